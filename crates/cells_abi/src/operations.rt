// One operation of a script.
ghost use Rattle.std.specs.Prelude.{◌≡◌};
ghost use Rattle.laws.specs.Faults.{number_of};
ghost use Rattle.unionfind.specs.Cells.{Live};
ghost use Rattle.cells_abi.specs.Script.{Steps, make_step, find_step, ref_step, cell_step, set_step, operation_of};

use laws::Fault;
use unionfind::{Kind, UnionFind, find, find_ref, fresh, set};

// What an operation answers, a code or a refusal's number; the refusal's place; how many variables are in use after it.
#[derive(Clone, Copy)]
pub struct Step {
    pub answer: u32,
    pub place: u32,
    pub len: u32,
}

impl Step {
    fn done(answer: u32, len: u32) -> Step
        ensures { result ≡ record { answer = answer; place = 0; len = len } }
    {
        Step {
            answer,
            place: 0,
            len,
        }
    }

    fn refused(fault: Fault, place: u32, len: u32) -> Step
        ensures { result ≡ record { answer = number_of fault; place = place; len = len } }
    {
        Step {
            answer: fault.number(),
            place,
            len,
        }
    }
}

pub(crate) fn make(cells: &mut [u32; UnionFind::CAPACITY], n: u32, kind: Kind) -> Step
    requires { Live n cells.old }
    ensures { Steps (make_step kind n cells.old) result cells.new }
{
    match fresh(cells, n, kind) {
        Ok(x) => Step::done(x, n + 1),
        Err(r) => Step::refused(r.fault, r.place, n),
    }
}

pub(crate) fn look(cells: &mut [u32; UnionFind::CAPACITY], n: u32, v: u32) -> Step
    requires { Live n cells.old }
    ensures { Steps (find_step v n cells.old) result cells.new }
{
    if v < n {
        let x = find(cells, v);
        return Step::done(x, n);
    }
    Step::refused(Fault::UnknownVariable, v, n)
}

pub(crate) fn peek(cells: &mut [u32; UnionFind::CAPACITY], n: u32, v: u32) -> Step
    requires { Live n cells.old }
    ensures { Steps (ref_step v n cells.old) result cells.new }
{
    if v < n {
        let x = find_ref(cells, v);
        return Step::done(x, n);
    }
    Step::refused(Fault::UnknownVariable, v, n)
}

// What stands in a cell, so that compression is seen.
pub(crate) fn cell(cells: &mut [u32; UnionFind::CAPACITY], n: u32, v: u32) -> Step
    requires { Live n cells.old }
    ensures { Steps (cell_step v n cells.old) result cells.new }
{
    if v < n {
        let x = cells[v as usize];
        return Step::done(x, n);
    }
    Step::refused(Fault::UnknownVariable, v, n)
}

pub(crate) fn store(cells: &mut [u32; UnionFind::CAPACITY], n: u32, v: u32, x: u32) -> Step
    requires { Live n cells.old }
    ensures { Steps (set_step v x n cells.old) result cells.new }
{
    match set(cells, n, v, x) {
        Ok(()) => Step::done(0, n),
        Err(r) => Step::refused(r.fault, r.place, n),
    }
}

// The operation of that number, as the host writes it: 0 to 2 fresh by kind, 3 find, 4 find_ref, 5 the cell itself, any other set.
pub(crate) fn operate(
    cells: &mut [u32; UnionFind::CAPACITY],
    n: u32,
    op: u32,
    v: u32,
    x: u32,
) -> Step
    requires { Live n cells.old }
    ensures { Steps (operation_of op v x n cells.old) result cells.new }
{
    match op {
        0 => make(cells, n, Kind::Var),
        1 => make(cells, n, Kind::IntVar),
        2 => make(cells, n, Kind::FloatVar),
        3 => look(cells, n, v),
        4 => peek(cells, n, v),
        5 => cell(cells, n, v),
        _ => store(cells, n, v, x),
    }
}
