// Unify asked of two types, and held to what is wanted.
ghost use Rattle.std.specs.Prelude.{◌≡◌, true};
ghost use Rattle.unionfind.specs.Cells.{Knows, Live};
ghost use Rattle.worked_cells.specs.Wants.{pair as pair_of};

use crate::answers::is_answer;
use crate::sides::HOLDING;
use crate::vars::{changed, more};
use crate::wants::{NODE, Want};
use structure::TypeTable;
use unify::{resolve_type, unify};
use unionfind::{Kind, UnionFind, is_var, number_of};

// Two types: the left and the right side.
#[derive(Clone, Copy)]
pub struct Pair {
    pub left: u32,
    pub right: u32,
}

impl Pair {
    pub fn new(left: u32, right: u32) -> Pair
        ensures { result ≡ pair_of left right }
    {
        Pair { left, right }
    }
}

// Two variables of each kind.
fn six(cells: &mut [u32; UnionFind::CAPACITY]) -> u32
    requires { Live 0 cells.old }
    ensures { Live result cells.new }
{
    let a = more(cells, 0, Kind::Var);
    let b = more(cells, a, Kind::Var);
    let c = more(cells, b, Kind::IntVar);
    let d = more(cells, c, Kind::IntVar);
    let e = more(cells, d, Kind::FloatVar);
    more(cells, e, Kind::FloatVar)
}

// Whether a code, where it is a variable's, is that of one of the n in use.
fn knows(n: u32, x: u32) -> bool
    ensures { result ≡ true → Knows n x }
{
    !is_var(x) || number_of(x) < n
}

// Whether both codes are known so.
fn knows_both(n: u32, pair: Pair) -> bool
    ensures { result ≡ true → (Knows n pair.left × Knows n pair.right) }
{
    knows(n, pair.left) && knows(n, pair.right)
}

// Which rows hold a variable.
fn marked() -> [u32; TypeTable::CAPACITY] {
    let mut marks = [0u32; TypeTable::CAPACITY];
    marks[HOLDING] = 1;
    marks
}

// Unifies two types that are known, and holds the answer, the cells and what both sides then stand for to what is wanted.
fn is_wanted(
    cells: &mut [u32; UnionFind::CAPACITY],
    n: u32,
    pair: Pair,
    want: Want,
    after: Pair,
) -> bool
    requires { Live n cells.old × (Knows n pair.left × Knows n pair.right) }
{
    let marks = marked();
    let before = *cells;
    let a = unify(cells, n, &marks, pair.left, pair.right, NODE);
    let changes = changed(&before, cells);
    let left = resolve_type(cells, n, pair.left);
    let right = resolve_type(cells, n, pair.right);
    is_answer(a, want.answer())
        && changes == want.changes()
        && left == after.left
        && right == after.right
}

// The same of any two types.
fn ask(cells: &mut [u32; UnionFind::CAPACITY], n: u32, pair: Pair, want: Want, after: Pair) -> bool
    requires { Live n cells.old }
{
    if knows_both(n, pair) {
        is_wanted(cells, n, pair, want, after)
    } else {
        false
    }
}

// The same in a state with two variables of each kind, all unset.
pub(crate) fn unifies(pair: Pair, want: Want) -> bool {
    let mut cells = UnionFind::empty().cells;
    let n = six(&mut cells);
    ask(&mut cells, n, pair, want, want.after(pair))
}

// In such a state a first pair is unified where both are known; then the pair is asked for.
pub(crate) fn unifies_after(first: Pair, pair: Pair, want: Want, after: Pair) -> bool {
    let mut cells = UnionFind::empty().cells;
    let n = six(&mut cells);
    if knows_both(n, first) {
        // What it answers is not held to anything: the pair is.
        let _ = unify(&mut cells, n, &marked(), first.left, first.right, NODE);
    }
    ask(&mut cells, n, pair, want, after)
}
