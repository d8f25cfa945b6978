// A chain through all cells: each variable is linked to the next, and the last is unset.
ghost use Rattle.std.specs.Prelude.{◌≤◌};
ghost use Rattle.unionfind.specs.Cells.{capacity, LoopFree};

use crate::answers::is_answer;
use crate::vars::{changed, fill, others, var};
use stdio::Tally;
use unionfind::{UnionFind, find, find_ref, set};

// As many variables as there are cells, and the last of them.
pub const ALL: u32 = 2048;

pub const LAST: u32 = 2047;

// Links each variable but the last to the next; whether every set was done.
pub(crate) fn link_up(cells: &mut [u32; UnionFind::CAPACITY], n: u32) -> bool
    requires { (n ≤ capacity) × LoopFree cells.old }
    ensures { LoopFree cells.new }
{
    let mut done = true;
    for k in 0..LAST {
        if !is_answer(set(cells, n, k, var(k + 1)), None) {
            done = false;
        }
    }
    done
}

// `find_ref` gives the chain's end, and changes nothing.
fn looked(cells: &[u32; UnionFind::CAPACITY], tally: &mut Tally)
    requires { LoopFree cells.now }
{
    let before = *cells;
    let seen = find_ref(cells, 0);
    tally.count(seen == var(LAST));
    tally.count(changed(&before, cells) == 0);
}

// One `find` gives the same, and leaves every cell set to it.
fn compressed(cells: &mut [u32; UnionFind::CAPACITY], tally: &mut Tally)
    requires { LoopFree cells.old }
    ensures { LoopFree cells.new }
{
    let found = find(cells, 0);
    tally.count(found == var(LAST));
    tally.count(others(cells, found) == 0);
}

// All variables are made, all links are set; the last two cells alone hold the last variable's code. Then the chain is asked for before and
// after it is compressed.
pub(crate) fn chain() -> Tally {
    let mut tally = Tally::none();
    let mut cells = UnionFind::empty().cells;
    let n = fill(&mut cells, ALL);
    tally.count(n == ALL);
    let done = link_up(&mut cells, n);
    tally.count(done);
    tally.count(others(&cells, var(LAST)) == 2046);
    looked(&cells, &mut tally);
    compressed(&mut cells, &mut tally);
    looked(&cells, &mut tally);
    tally
}
