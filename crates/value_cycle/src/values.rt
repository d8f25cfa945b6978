// The values of a pack: their kinds, and what their lists contain.
ghost use Rattle.std.specs.Prelude.{◌≡◌};
ghost use Rattle.pack.specs.Named.{items_of};
ghost use Rattle.components.specs.Answers.{has};
ghost use Rattle.tarjan.specs.Values.{kind_of};

use pack::{Counts, list_item, list_len, value_row};

pub fn kind_of(pack: &[u8], c: Counts, v: u32) -> u32
    ensures { result ≡ kind_of pack.now c v }
{
    let row = value_row(pack, c, v);
    row.kind
}

// Whether w is in the list at word s.
pub fn contains(pack: &[u8], c: Counts, s: u32, w: u32) -> bool
    ensures { result ≡ has w (items_of pack.now c s) }
{
    for k in 0..list_len(pack, c, s) {
        if list_item(pack, c, s, k) == w {
            return true;
        }
    }
    false
}
