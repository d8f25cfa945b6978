// The cells, and the state with no variable in use.
ghost use Rattle.std.specs.Prelude.{◌≡◌};
ghost use Rattle.unionfind.specs.Cells.{capacity, Live};
ghost use Rattle.unionfind.specs.Answers.{selves, Empties};

use crate::codes::{Kind, own_code};

#[derive(Drop)]
pub struct UnionFind {
    pub cells: [u32; UnionFind::CAPACITY],
    pub len: u32,
}

impl UnionFind {
    pub const CAPACITY: usize = 2048;

    // Every cell maps to itself, so that a variable not yet made is an unset one.
    pub fn empty() -> Self
        ensures { Empties result.len result.cells }
    {
        let mut cells = [0u32; Self::CAPACITY];
        for i in 0..Self::CAPACITY {
            cells[i] = own_code(Kind::Var, i as u32);
        }
        Self {
            cells: cells,
            len: 0,
        }
    }
}

// The n variables in use unset again: the cells are as `empty` gives them.
pub fn unset_cells(cells: &mut [u32; UnionFind::CAPACITY], n: u32)
    requires { Live n cells.old }
    ensures { cells.new ≡ selves 0 capacity }
{
    for i in 0..n {
        cells[i as usize] = own_code(Kind::Var, i);
    }
}
