// Two lists of one sort, compared word by word.
ghost use Rattle.std.specs.Prelude.{◌≡◌, ◌<◌, ◌≤◌, ◌+◌, ◌*◌, ◌/◌, leb};
ghost use Rattle.structure.specs.Lists.{words, span_of};
ghost use Rattle.structure.specs.Words.{looks, WordsApart};
ghost use Rattle.structure.specs.Tree.{Compared, Apart};

use crate::table::TypeTable;

// The first of n words from a and b on, STEP words from one to the next, that differ.
#[inline(never)]
fn words_apart<const STEP: usize>(
    look: &[u16; TypeTable::LOOKS],
    a: usize,
    b: usize,
    n: usize,
) -> Option<usize>
    requires { (a + STEP * n < looks + STEP) × (b + STEP * n < looks + STEP) }
    ensures { WordsApart look.now STEP a b n result }
{
    for m in 0..n {
        if look[a + STEP * m] != look[b + STEP * m] {
            return Some(m);
        }
    }
    None
}

// Lists of n types that start at words a and b: a place where they differ.
fn types_apart(look: &[u16; TypeTable::LOOKS], a: usize, b: usize, n: usize) -> Option<usize>
    requires { (a + 1 + n ≤ words) × (b + 1 + n ≤ words) }
    ensures { Apart look.now a b (2 * n) result }
{
    match words_apart::<1>(look, a + 1, b + 1, n) {
        Some(m) => Some(m + 1),
        None => None,
    }
}

// The same of lists of n pairs.
fn pairs_apart(look: &[u16; TypeTable::LOOKS], a: usize, b: usize, n: usize) -> Option<usize>
    requires { (a + 1 + 2 * n ≤ words) × (b + 1 + 2 * n ≤ words) }
    ensures { Apart look.now a b (2 * n + 1) result }
{
    let names = words_apart::<2>(look, TypeTable::WORDS + a + 1, TypeTable::WORDS + b + 1, n);
    if let Some(m) = names {
        return Some(TypeTable::WORDS + 1 + 2 * m);
    }
    match words_apart::<2>(look, a + 2, b + 2, n) {
        Some(m) => Some(2 * m + 2),
        None => None,
    }
}

// How many words the items of a list of that sort take.
#[tactic(auto, unfolding(crate::specs::Lists::span_of, laws::specs::Choice::pick))]
pub fn span_of(sort: u32) -> u32
    requires { sort < 131072 }
    ensures { result ≡ span_of sort }
{
    if sort % 2 == 1 {
        2 * (sort / 2)
    } else {
        sort / 2
    }
}

// Whether a list of that sort at s lies in the words that there is room for.
#[tactic(auto, using(crate::proofs::Spots::span_small))]
pub fn is_within(s: u32, sort: u32) -> bool
    requires { sort < 131072 }
    ensures { result ≡ leb (s / 2 + 1 + span_of sort) words }
{
    s / 2 + 1 + span_of(sort) <= 8192
}

// A place where two lists of one sort differ.
pub fn compare(look: &[u16; TypeTable::LOOKS], s: u32, t: u32, sort: u32) -> Option<usize>
    requires { sort < 131072 }
    ensures { Compared look.now s t sort result }
{
    if is_within(s, sort) && is_within(t, sort) {
        compare_within(look, (s / 2) as usize, (t / 2) as usize, sort)
    } else {
        None
    }
}

fn compare_within(look: &[u16; TypeTable::LOOKS], a: usize, b: usize, sort: u32) -> Option<usize>
    requires { (sort < 131072) × (a + 1 + span_of sort ≤ words) × (b + 1 + span_of sort ≤ words) }
    ensures { Apart look.now a b sort result }
{
    let n = (sort / 2) as usize;
    if sort % 2 == 1 {
        pairs_apart(look, a, b, n)
    } else {
        types_apart(look, a, b, n)
    }
}
