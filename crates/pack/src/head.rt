// The header: refusals 1 to 4, or the counts.
ghost use Rattle.std.specs.Prelude.{◌≡◌};
ghost use Rattle.pack.specs.Read.{starts_with};
ghost use Rattle.pack.specs.Header.{rpk, counts_of, header_of};

use crate::bytes::{byte_at, starts_with, word_at};
use crate::counts::{Counts, size_of};
use laws::{Fault, Refusal, need};

const EDITION: u32 = 1;

fn letters(pack: &[u8]) -> bool
    ensures { result ≡ starts_with pack.now rpk }
{
    starts_with(pack, b"RPK")
}

// The six counts as the bytes have them, within their limits or not.
fn counts_of(pack: &[u8]) -> Counts
    ensures { result ≡ counts_of pack.now }
{
    Counts {
        types: word_at(pack, 4),
        definitions: word_at(pack, 6),
        expressions: word_at(pack, 8),
        roots: word_at(pack, 10),
        values: word_at(pack, 12),
        words: word_at(pack, 14),
    }
}

// Reading past the end gives 0, so the counts are read first; the first test that fails is the answer.
pub fn header(pack: &[u8]) -> Result<Counts, Refusal>
    ensures { result ≡ header_of pack.now }
{
    let c = counts_of(pack);
    need(16 <= pack.len(), Fault::TooShort)?;
    need(letters(pack), Fault::WrongStart)?;
    need(byte_at(pack, 3) == EDITION, Fault::WrongStart)?;
    need(c.in_limits(), Fault::OverLimit)?;
    need(pack.len() == size_of(c), Fault::WrongLength)?;
    Ok(c)
}
