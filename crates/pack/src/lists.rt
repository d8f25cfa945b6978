// Lists: a count word, then its items.
ghost use Rattle.laws.specs.Bounded.{Reads};
ghost use Rattle.pack.specs.Lists.{list_len, list_item};

use crate::bytes::word_at;
use crate::counts::{Counts, lists_at};

// How many items the list at word s has.
pub fn list_len(pack: &[u8], c: Counts, s: u32) -> u32
    ensures { Reads result (list_len pack.now c s) 65536 }
{
    word_at(pack, lists_at(c) + 2 * (s as usize))
}

// Of the list at word s: the word k after its count.
pub fn list_item(pack: &[u8], c: Counts, s: u32, k: u32) -> u32
    ensures { Reads result (list_item pack.now c s k) 65536 }
{
    word_at(pack, lists_at(c) + 2 * ((s as usize) + 1 + (k as usize)))
}
