// The rows and lists of a pack, with its counts lent: the search can be 2,500 frames deep, and a copy of them would lie in each.
ghost use Rattle.std.specs.Prelude.{◌≡◌};
ghost use Rattle.laws.specs.Bounded.{Reads};
ghost use Rattle.pack.specs.Lists.{list_len, list_item};
ghost use Rattle.pack.specs.Rows.{definition_row};

use pack::{Counts, DefinitionRow, definition_row, list_item, list_len};

// A definition's row, a list's length and a word after it.
pub fn definition_of(pack: &[u8], c: &Counts, d: u32) -> DefinitionRow
    ensures { result ≡ definition_row pack.now c.now d }
{
    definition_row(pack, *c, d)
}

pub fn length_of(pack: &[u8], c: &Counts, s: u32) -> u32
    ensures { Reads result (list_len pack.now c.now s) 65536 }
{
    list_len(pack, *c, s)
}

pub fn item_of(pack: &[u8], c: &Counts, s: u32, k: u32) -> u32
    ensures { Reads result (list_item pack.now c.now s k) 65536 }
{
    list_item(pack, *c, s, k)
}
