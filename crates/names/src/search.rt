// Names found through the index: by a search of the seats of one key, which rise.
ghost use Rattle.std.specs.Prelude.{◌≡◌, not, ◌+◌, ◌*◌, ◌<◌, ◌≤◌, eqb, ltb};
ghost use Rattle.laws.specs.First.{until};
ghost use Rattle.pack.specs.Lists.{pair_of};
ghost use Rattle.names.specs.Index.{no_name, seat_at, key_at, Indexed, Rising, next_item};

use crate::index::{NameIndex, entry_at, seat_of};
use pack::{Counts, list_item, list_len};

// Of the seats low .. high - 1 of all, which rise: the first that is not below x.
fn seek(names: &[u16; NameIndex::CAPACITY], low: u32, high: u32, x: u32) -> u32
    requires { Rising names.now low high }
    ensures { result ≡ until (λ m. ltb (seat_at names.now m) x) low high }
{
    let from = (NameIndex::SEATS + low) as usize;
    let to = (NameIndex::SEATS + high) as usize;
    let below = names[from..to].partition_point(|seat| u32::from(*seat) < x);
    low + below as u32
}

// The first seat from x on whose word has the key, the number of all words where there is none.
fn seat_from(pack: &[u8], c: Counts, names: &[u16; NameIndex::CAPACITY], key: u32, x: u32) -> u32
    requires { Indexed pack.now c names.now × (key < no_name) × (x ≤ c.words) }
    ensures { result ≡ until (λ j. not (eqb (key_at pack.now c j) key)) x c.words }
{
    let low = entry_at(names, key);
    let high = entry_at(names, key + 1);
    let m = seek(names, low, high, x);
    if m < high {
        entry_at(names, NameIndex::SEATS + m)
    } else {
        c.words
    }
}

// Of the items 2i, 2i + 2, .. below 2n of a list that lies in the list words: half of the place of the first that is the name; n where
// none is.
fn item_from(
    pack: &[u8],
    c: Counts,
    names: &[u16; NameIndex::CAPACITY],
    s: u32,
    i: u32,
    n: u32,
    name: u32,
) -> u32
    requires { Indexed pack.now c names.now × (i ≤ n) × (name < no_name) × (s + 1 + 2 * n ≤ c.words) }
    ensures { result ≡ next_item pack.now c s i n name }
{
    let first = seat_of(c.words, s + 1);
    let k = seat_from(pack, c, names, name, first + i) - first;
    k.min(n)
}

// The same of any list, item by item.
fn item_walked(pack: &[u8], c: Counts, s: u32, i: u32, n: u32, name: u32) -> u32
    requires { (i ≤ n) × (n < 131072) }
    ensures { result ≡ next_item pack.now c s i n name }
{
    for k in i..n {
        if list_item(pack, c, s, 2 * k) == name {
            return k;
        }
    }
    n
}

// The first k of i .. n - 1 with item 2k of the list at word s that name; n where there is none.
// (What is no name, and a list that does not lie in the list words, are in no pack that is well formed.)
pub fn next_item(
    pack: &[u8],
    c: Counts,
    names: &[u16; NameIndex::CAPACITY],
    s: u32,
    i: u32,
    n: u32,
    name: u32,
) -> u32
    requires { Indexed pack.now c names.now × (i ≤ n) × (n < 131072) }
    ensures { result ≡ next_item pack.now c s i n name }
{
    let end = (s as usize) + 1 + 2 * (n as usize);
    if name < NameIndex::NO_NAME && end <= (c.words as usize) {
        item_from(pack, c, names, s, i, n, name)
    } else {
        item_walked(pack, c, s, i, n, name)
    }
}

// The first pair of the list at word s whose first word is that one, the number of its pairs where there is none.
pub fn find_pair(
    pack: &[u8],
    c: Counts,
    names: &[u16; NameIndex::CAPACITY],
    s: u32,
    word: u32,
) -> u32
    requires { Indexed pack.now c names.now }
    ensures { result ≡ pair_of pack.now c s word }
{
    let n = list_len(pack, c, s);
    next_item(pack, c, names, s, 0, n, word)
}
