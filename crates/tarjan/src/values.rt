// The values of a pack: their references.
ghost use Rattle.std.specs.Prelude.{◌≡◌};
ghost use Rattle.tarjan.specs.Values.{list_of};

use pack::{Counts, value_row};

// Where the list of the values that v references starts.
pub fn list_of(pack: &[u8], c: Counts, v: u32) -> u32
    ensures { result ≡ list_of pack.now c v }
{
    let row = value_row(pack, c, v);
    row.list
}
