// Lists in range: a count word and its items, all inside the list words, each item's words in range.
ghost use Rattle.std.specs.Prelude.{◌≡◌, ◌+◌, ◌≤◌, ◌<◌};
ghost use Rattle.lists.specs.Lists.{list_fits, words_of, item_fits, items_fit};
ghost use Rattle.lists.specs.Peaks.{Peaks as PeaksOf, Narrow};
ghost use Rattle.laws.specs.First.{all};

use crate::forms::Form;
use crate::peaks::{Peaks, items_below};
use pack::{Counts, list_len};

// What the items of a list are, with what their words stay below.
#[derive(Clone, Copy)]
pub enum Items {
    // One id.
    Ids(u32),
    // Two words: a name and an id, or a slot and a type.
    Pairs(u32, u32),
    // A name, and where a list of field types starts.
    Variants,
    // Four words: a variant's name or `_`, a slot list+1 or 0, a guard+1 or 0, a body.
    Arms(u32),
}

// Whether so many words after the count of the list at s lie in the table.
pub fn list_fits(c: Counts, s: u32, words: u32) -> bool
    ensures { result ≡ list_fits c s words }
{
    (s as u64) + 1 + (words as u64) <= (c.words as u64)
}

// How many words n items take.
fn words_of(items: Items, n: u32) -> u32
    requires { n < 65536 }
    ensures { result ≡ words_of items n }
{
    match items {
        Items::Ids(_) => n,
        Items::Pairs(_, _) => 2 * n,
        Items::Variants => 2 * n,
        Items::Arms(_) => 4 * n,
    }
}

// Whether the list at s is one of such items.
pub fn items_fit(
    pack: &[u8],
    c: Counts,
    items: Items,
    s: u32,
    peaks: &[u16; Peaks::CAPACITY],
) -> bool
    requires { PeaksOf pack.now c peaks.now × Narrow items }
    ensures { result ≡ items_fit pack.now c items s }
{
    let n = list_len(pack, c, s);
    list_fits(c, s, words_of(items, n)) && each_fits(pack, c, items, s, n, peaks)
}

// Whether each of the n items of the list at s is in range.
fn each_fits(
    pack: &[u8],
    c: Counts,
    items: Items,
    s: u32,
    n: u32,
    peaks: &[u16; Peaks::CAPACITY],
) -> bool
    requires { (s + 1 + words_of items n ≤ c.words) × PeaksOf pack.now c peaks.now × Narrow items }
    ensures { result ≡ all (item_fits pack.now c items s) 0 n }
{
    match items {
        Items::Ids(limit) => items_below(pack, c, Form::Id, s + 1, n, limit, peaks),
        Items::Pairs(first, second) => {
            items_below(pack, c, Form::Word, s + 1, n, first, peaks)
                && items_below(pack, c, Form::Word, s + 2, n, second, peaks)
        }
        Items::Variants => items_below(pack, c, Form::Variant, s + 1, n, 1, peaks),
        Items::Arms(limit) => items_below(pack, c, Form::Arm, s + 1, n, limit, peaks),
    }
}
