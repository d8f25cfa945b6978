// Resolving a type, and unifying two.
ghost use Rattle.std.specs.Prelude.{◌≡◌, ◌<◌};
ghost use Rattle.unionfind.specs.Cells.{Live, Knows};
ghost use Rattle.unify.specs.Unify.{Resolves, Unifies};

use crate::plan::{Plan, plan_for};
use laws::{Fault, Refusal};
use structure::TypeTable;
use unionfind::{UnionFind, find, is_var, number_of, set};

// What a type stands for: a variable what is found of it, any other type itself.
pub fn resolve_type(cells: &mut [u32; UnionFind::CAPACITY], n: u32, x: u32) -> u32
    requires { Live n cells.old × Knows n x }
    ensures { Resolves n cells.old x result cells.new }
{
    if is_var(x) {
        find(cells, number_of(x))
    } else {
        x
    }
}

// Both sides are resolved; then the plan says what is to be done. A mismatch is refused at the node whose rule asked.
pub fn unify(
    cells: &mut [u32; UnionFind::CAPACITY],
    n: u32,
    marks: &[u32; TypeTable::CAPACITY],
    left: u32,
    right: u32,
    at: u32,
) -> Result<(), Refusal>
    requires { Live n cells.old × (Knows n left × Knows n right) }
    ensures { Unifies n marks.now at cells.old left right result cells.new }
{
    let a = resolve_type(cells, n, left);
    let b = resolve_type(cells, n, right);
    match plan_for(marks, a, b) {
        Plan::Same => Ok(()),
        Plan::Clash => Err(Refusal::at(Fault::Mismatch, at)),
        Plan::Store { cell, code } => set(cells, n, cell, code),
    }
}
