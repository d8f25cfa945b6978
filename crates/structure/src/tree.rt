// The walk of a list through the tree of its sort.
ghost use Rattle.std.specs.Prelude.{◌≡◌, ◌<◌, ◌≤◌, ◌*◌, ◌/◌, replicate};
ghost use Rattle.structure.specs.Structure.{rows};
ghost use Rattle.laws.specs.Bounded.{Reads};
ghost use Rattle.structure.specs.Words.{look_at};
ghost use Rattle.structure.specs.Table.{Link};
ghost use Rattle.structure.specs.Buckets.{Chained};
ghost use Rattle.structure.specs.Tree.{cells_len, sorts, cell_at, member_key, Small, Sound, Bare, Passed, Forked, Turned, Walked};

use crate::buckets::Chains;
use crate::table::{TypeTable, linked};
use crate::words::look_at;

// The trees of lists: the root of each sort, the links to forks, each fork's test, and the members of all forks.
#[derive(Drop)]
pub struct ListTrees {
    pub roots: [u16; TypeTable::SORTS],
    pub cells: [u16; TypeTable::CELLS],
    pub tests: [u32; TypeTable::CAPACITY],
    pub members: Chains,
}

// Where a walk ends.
#[derive(Clone, Copy)]
pub struct Stop {
    pub cell: u32,
    pub row: u32,
}

// A fork where a list has another value than the row.
#[derive(Clone, Copy)]
pub struct Other {
    pub fork: u32,
    pub value: u32,
}

// Where a list no longer passes on: at a cell without a fork, or at such a fork.
#[derive(Clone, Copy)]
pub struct Ahead {
    pub cell: u32,
    pub other: Option<Other>,
}

// The key of a fork's member with the value x.
#[tactic(auto, unfolding(crate::specs::Tree::member_key))]
pub fn member_key(g: u32, x: u32) -> u32
    requires { (g < 4093) × (x < 65536) }
    ensures { result ≡ member_key g x }
{
    x * (TypeTable::BUCKETS as u32) + g
}

// The place of a test.
pub fn place_of(test: u32) -> u32
    ensures { Reads result (test / 65536) 65536 }
{
    test / 65536
}

impl ListTrees {
    pub fn empty() -> Self
        ensures { Bare result × Sound result 0 }
    {
        Self {
            roots: [0u16; TypeTable::SORTS],
            cells: [0u16; TypeTable::CELLS],
            tests: [0u32; TypeTable::CAPACITY],
            members: Chains::empty(),
        }
    }

    // The fork at cell d.
    #[tactic(auto, using(laws::proofs::Bounded::get_in))]
    pub fn fork_at(&self, d: u32) -> Option<u32>
        requires { d < cells_len }
        ensures { Link (cell_at self.now.cells d) result }
    {
        linked(self.cells[d as usize])
    }

    // From a cell on, past each fork where the list at s has the row's own value.
    fn pass_on(&self, look: &[u16; TypeTable::LOOKS], s: u32, from: u32) -> Ahead
        requires { (from < cells_len) × Small self.now.cells }
        ensures { Passed (look_at look.now s) self.now.cells self.now.tests from result }
    {
        let mut cell = from;
        while let Some(fork) = self.fork_at(cell) {
            let test = self.tests[fork as usize];
            let value = look_at(look, s, place_of(test));
            if value != test % 65536 {
                return Ahead {
                    cell,
                    other: Some(Other { fork, value }),
                };
            }
            cell = 2 * fork + 1;
        }
        Ahead { cell, other: None }
    }

    // The member of the fork ahead that has the list's value there.
    fn turn_at(&self, i: u32, ahead: Ahead) -> Option<u32>
        requires { (i ≤ rows) × Chained self.now.members i × Forked ahead.other }
        ensures { Turned self.now.members.keys i ahead.other result }
    {
        match ahead.other {
            None => None,
            Some(other) => {
                let head = self.members.heads[other.fork as usize];
                self.members
                    .row_from(i, member_key(other.fork, other.value), head)
            }
        }
    }

    // The walk of the list at s from row k on.
    #[inline(never)]
    pub fn walk(&self, look: &[u16; TypeTable::LOOKS], i: u32, s: u32, k: u32) -> Stop
        requires { (k < i) × Sound self.now i }
        ensures { Walked (look_at look.now s) self.now.cells self.now.tests self.now.members.keys i k result }
    {
        let mut row = k;
        let mut ahead = self.pass_on(look, s, 2 * k);
        while let Some(l) = self.turn_at(i, ahead) {
            row = l;
            ahead = self.pass_on(look, s, 2 * l);
        }
        Stop {
            cell: ahead.cell,
            row,
        }
    }
}
