// What union-find refuses: 37, 38 and 39. And what it does not: a variable set to itself.
ghost use Rattle.std.specs.Prelude.{◌≤◌};
ghost use Rattle.unionfind.specs.Cells.{capacity, LoopFree};

use crate::answers::{Wanted, is_answer, is_full};
use crate::chain::{ALL, LAST, link_up};
use crate::vars::{changed, fill, float_var, int_var, primitive, var};
use laws::{Fault, Refusal};
use stdio::Tally;
use unionfind::{Kind, UnionFind, fresh, set};

// ---- 37

// One variable more than there is room for, and no cell changes.
fn one_too_many(kind: Kind) -> bool {
    let mut cells = UnionFind::empty().cells;
    let n = fill(&mut cells, ALL);
    let before = cells;
    let made = fresh(&mut cells, n, kind);
    n == ALL && is_full(made) && changed(&before, &cells) == 0
}

pub(crate) fn full() -> Tally {
    let mut tally = Tally::none();
    for kind in [Kind::Var, Kind::IntVar, Kind::FloatVar] {
        tally.count(one_too_many(kind));
    }
    tally
}

// ---- set

// A cell, the code that it is set to, and what is wanted of the answer.
type Set = (u32, u32, Wanted);

// Sets a cell where n variables are in use, and holds the answer and all cells to what is wanted: the cell holds the code, if nothing is refused.
fn is_set(cells: &mut [u32; UnionFind::CAPACITY], n: u32, v: u32, x: u32, wanted: Wanted) -> bool
    requires { (n ≤ capacity) × LoopFree cells.old }
    ensures { LoopFree cells.new }
{
    let mut after = *cells;
    if wanted.is_none() {
        if let Some(cell) = after.get_mut(v as usize) {
            *cell = x;
        }
    }
    let a = set(cells, n, v, x);
    is_answer(a, wanted) && changed(&after, cells) == 0
}

// Sets one cell after the other.
fn sets(cells: &mut [u32; UnionFind::CAPACITY], n: u32, cases: &[Set], tally: &mut Tally)
    requires { (n ≤ capacity) × LoopFree cells.old }
{
    for (v, x, wanted) in cases {
        tally.count(is_set(cells, n, *v, *x, *wanted));
    }
}

// The same where three variables are in use, all unset.
fn sets_of_three(cases: &[Set], tally: &mut Tally) {
    let mut cells = UnionFind::empty().cells;
    let n = fill(&mut cells, 3);
    sets(&mut cells, n, cases, tally);
}

// The same where all variables are in one chain.
fn sets_of_all(cases: &[Set], tally: &mut Tally) {
    let mut cells = UnionFind::empty().cells;
    let n = fill(&mut cells, ALL);
    link_up(&mut cells, n);
    sets(&mut cells, n, cases, tally);
}

fn unknown_var(v: u32) -> Wanted {
    Some(Refusal::at(Fault::UnknownVariable, v))
}

fn closes_loop(v: u32) -> Wanted {
    Some(Refusal::at(Fault::ClosesLoop, v))
}

// Three variables are in use: 38 is given at the cell, and at the link only where the cell is known.
pub(crate) fn unknown() -> Tally {
    let mut tally = Tally::none();
    let cases = [
        (3, primitive(11), unknown_var(3)),
        (2048, primitive(11), unknown_var(2048)),
        (4, var(3), unknown_var(4)),
        (3, var(3), unknown_var(3)),
        (3, var(0), unknown_var(3)),
        (2, var(3), unknown_var(3)),
        (2, int_var(4), unknown_var(4)),
        (2, float_var(2048), unknown_var(2048)),
    ];
    sets_of_three(&cases, &mut tally);
    tally
}

// 39 is given at the cell, for a loop of 2, of 3 and of all: a chain's end may not be linked back to its start, nor a cell within to one before it.
pub(crate) fn loops() -> Tally {
    let mut tally = Tally::none();
    let short = [
        (0, var(1), None),
        (1, var(0), closes_loop(1)),
        (1, var(2), None),
        (2, var(0), closes_loop(2)),
        (2, var(1), closes_loop(2)),
    ];
    sets_of_three(&short, &mut tally);
    let long = [
        (LAST, var(0), closes_loop(LAST)),
        (1024, var(0), closes_loop(1024)),
    ];
    sets_of_all(&long, &mut tally);
    tally
}

// A variable set to itself closes no loop: an unset one stays so, and one that was set is unset again.
pub(crate) fn own() -> Tally {
    let mut tally = Tally::none();
    let cases = [
        (0, var(0), None),
        (0, var(1), None),
        (0, var(0), None),
        (1, primitive(11), None),
        (1, var(1), None),
    ];
    sets_of_three(&cases, &mut tally);
    tally
}
