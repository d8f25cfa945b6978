// Lists by what they look like: names as they are, types by their numbers.
ghost use Rattle.std.specs.Prelude.{◌≡◌, ◌<◌, ◌≤◌, ◌+◌, ◌*◌};
ghost use Rattle.laws.specs.First.{all};
ghost use Rattle.structure.specs.Lists.{words};
ghost use Rattle.structure.specs.Words.{looks, odd_from, WordsHeld};
ghost use Rattle.structure.specs.Table.{entry, like_at, like, held_in};

use crate::compare::is_within;
use crate::slots::{len_at, name_at, part_at, sort_at};
use crate::table::{TypeTable, entry_at};
use pack::Counts;

fn item_like(
    pack: &[u8],
    c: Counts,
    same: &[u32; TypeTable::CAPACITY],
    s: u32,
    t: u32,
    m: u32,
) -> bool
    requires { m < 65536 }
    ensures { result ≡ like_at pack.now c (entry same.now) s t m }
{
    let names = name_at(pack, c, s, m) == name_at(pack, c, t, m);
    let left = entry_at(same, part_at(pack, c, s, m));
    let right = entry_at(same, part_at(pack, c, t, m));
    names && left == right
}

fn items_like(
    pack: &[u8],
    c: Counts,
    same: &[u32; TypeTable::CAPACITY],
    s: u32,
    t: u32,
    n: u32,
) -> bool
    requires { n < 65536 }
    ensures { result ≡ all (like_at pack.now c (entry same.now) s t) 0 n }
{
    for m in 0..n {
        if !item_like(pack, c, same, s, t, m) {
            return false;
        }
    }
    true
}

// Whether two lists look the same. The loop is not entered where they are of other sorts.
#[tactic(auto, unfolding(crate::specs::Table::like))]
pub fn lists_like(pack: &[u8], c: Counts, same: &[u32; TypeTable::CAPACITY], s: u32, t: u32) -> bool
    ensures { result ≡ like pack.now c (entry same.now) s t }
{
    if sort_at(pack, c, s) == sort_at(pack, c, t) {
        items_like(pack, c, same, s, t, len_at(pack, c, s))
    } else {
        false
    }
}

// Whether a type of the list is marked.
pub fn list_held(pack: &[u8], c: Counts, marks: &[u32; TypeTable::CAPACITY], s: u32) -> bool
    ensures { result ≡ held_in pack.now c (entry marks.now) s }
{
    for m in 0..len_at(pack, c, s) {
        if entry_at(marks, part_at(pack, c, s, m)) != 0 {
            return true;
        }
    }
    false
}

// How many words are looked at together.
const RUN: usize = 128;

// Whether one of the n words from a on, STEP words from one to the next, names a marked type: those that do are counted, with no way out of
// the loop, so that several are taken at a time.
fn run_held<const STEP: usize>(look: &[u16; TypeTable::LOOKS], a: usize, n: usize) -> bool
    requires { (a + STEP * n < looks + STEP) × (n ≤ looks) }
    ensures { result ≡ odd_from look.now (λ m. a + STEP * m) n }
{
    let mut odd: u16 = 0;
    for m in 0..n {
        odd += look[a + STEP * m] % 2;
    }
    odd != 0
}

// Whether one of them does, run by run: the first run that has a marked type ends it.
fn any_held<const STEP: usize>(look: &[u16; TypeTable::LOOKS], a: usize, n: usize) -> bool
    requires { (a + STEP * n < looks + STEP) × (n ≤ looks) }
    ensures { result ≡ odd_from look.now (λ m. a + STEP * m) n }
{
    for r in 0..(n + RUN - 1) / RUN {
        let from = RUN * r;
        if run_held::<STEP>(look, a + STEP * from, RUN.min(n - from)) {
            return true;
        }
    }
    false
}

// Whether a type of the list is marked, by what is known of its words.
pub fn words_held(look: &[u16; TypeTable::LOOKS], s: u32, sort: u32) -> bool
    requires { sort < 131072 }
    ensures { WordsHeld look.now s sort result }
{
    if is_within(s, sort) {
        let n = (sort / 2) as usize;
        let start = (s / 2) as usize;
        if sort % 2 == 1 {
            any_held::<2>(look, start + 2, n)
        } else {
            any_held::<1>(look, start + 1, n)
        }
    } else {
        false
    }
}
