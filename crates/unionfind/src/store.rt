// What changes a cell: a variable is made, or set.
ghost use Rattle.std.specs.Prelude.{◌≤◌};
ghost use Rattle.unionfind.specs.Cells.{capacity, LoopFree, Live};
ghost use Rattle.unionfind.specs.Answers.{Sets, Makes};

use crate::cells::UnionFind;
use crate::chain::{is_link, passes};
use crate::codes::{Kind, is_var, number_of, own_code};
use laws::{Fault, Refusal};

// Variable n, unset, of the kind asked for: there are n in use, and n + 1 after it. It is refused where there is no room for another.
pub fn fresh(cells: &mut [u32; UnionFind::CAPACITY], n: u32, kind: Kind) -> Result<u32, Refusal>
    requires { Live n cells.old }
    ensures { Makes n cells.old kind result cells.new }
{
    if (n as usize) < UnionFind::CAPACITY {
        let x = own_code(kind, n);
        cells[n as usize] = x;
        return Ok(x);
    }
    Err(Refusal::at(Fault::NoRoom, 0))
}

// The cell v set to the code x, where n variables are in use. Refused are a variable that is not in use, and a link that would close a loop.
pub fn set(cells: &mut [u32; UnionFind::CAPACITY], n: u32, v: u32, x: u32) -> Result<(), Refusal>
    requires { (n ≤ capacity) × LoopFree cells.old }
    ensures { Sets n cells.old v x result cells.new }
{
    if n <= v {
        return Err(Refusal::at(Fault::UnknownVariable, v));
    }
    if is_var(x) {
        let w = number_of(x);
        if n <= w {
            return Err(Refusal::at(Fault::UnknownVariable, w));
        }
        if is_link(v, x) {
            if passes(cells, w, v) {
                return Err(Refusal::at(Fault::ClosesLoop, v));
            }
        }
    }
    cells[v as usize] = x;
    Ok(())
}
