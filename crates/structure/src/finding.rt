// A list that row i has, found in the tree of its sort, or the place where it is to stand.
ghost use Rattle.std.specs.Prelude.{◌≡◌, ◌<◌};
ghost use Rattle.structure.specs.Structure.{rows};
ghost use Rattle.structure.specs.Words.{look_at};
ghost use Rattle.structure.specs.Table.{Link};
ghost use Rattle.structure.specs.Tree.{root_at, cells_len, test_in, key_in, Sound, Finding, Below, Ended, Missed};

use crate::compare::compare;
use crate::slots::slot_at;
use crate::table::{TypeTable, linked};
use crate::tree::{ListTrees, member_key, place_of};
use crate::words::look_at;

// What is found of a list: an earlier row, or where the list is to stand.
#[derive(Clone, Copy)]
pub enum Found {
    // The row has a list that looks the same.
    Same(u32),
    // No row has, and the list is to stand in no tree.
    Loose,
    // No row has, and the list is the first of its sort.
    Root,
    // No row has, and the list is a member of a fork, under that key.
    Member(u32),
    // No row has, and the list makes a fork in that cell: its test, and the key under which the list is a member.
    Fork { cell: u32, test: u32, key: u32 },
}

impl Found {
    // The test of the row that has the list, 0 where it is no fork.
    pub fn test(self) -> u32
        ensures { result ≡ test_in self }
    {
        match self {
            Found::Fork { test, .. } => test,
            _ => 0,
        }
    }

    // The key under which the list is a member, 0 where it is none.
    pub fn key(self) -> u32
        ensures { result ≡ key_in self }
    {
        match self {
            Found::Member(key) | Found::Fork { key, .. } => key,
            _ => 0,
        }
    }
}

// The walk ended at an empty cell: the list is that of the row, or makes a new fork there.
fn at_end(
    pack: &[u8],
    look: &[u16; TypeTable::LOOKS],
    i: u32,
    s: u32,
    sort: u32,
    cell: u32,
    row: u32,
) -> Found
    requires { (sort < 131072) × (i < rows) × (cell < cells_len) }
    ensures { Ended pack.now look.now i s sort cell row result }
{
    let t = slot_at(pack, row);
    match compare(look, s, t, sort) {
        None => Found::Same(row),
        Some(place) => {
            let o = place as u32;
            let own = look_at(look, t, o);
            let key = member_key(i, look_at(look, s, o));
            Found::Fork {
                cell,
                test: o * 65536 + own,
                key,
            }
        }
    }
}

impl ListTrees {
    #[tactic(auto, using(laws::proofs::Bounded::get_in))]
    fn root_of(&self, sort: u32) -> Option<u32>
        ensures { Link (root_at self.now.roots sort) result }
    {
        linked(self.roots[(sort % 16384) as usize])
    }

    // The walk ended at a fork: the list is a new member of it.
    fn at_fork(&self, look: &[u16; TypeTable::LOOKS], s: u32, g: u32) -> Found
        requires { g < rows }
        ensures { Missed look.now self.now.tests s g result }
    {
        let test = self.tests[g as usize];
        Found::Member(member_key(g, look_at(look, s, place_of(test))))
    }

    // From the root k on.
    fn find_below(
        &self,
        pack: &[u8],
        look: &[u16; TypeTable::LOOKS],
        i: u32,
        s: u32,
        sort: u32,
        k: u32,
    ) -> Found
        requires { (k < i) × (i < rows) × (sort < 131072) × Sound self.now i }
        ensures { Below pack.now look.now self.now i s sort k result }
    {
        let stop = self.walk(look, i, s, k);
        match self.fork_at(stop.cell) {
            None => at_end(pack, look, i, s, sort, stop.cell, stop.row),
            Some(g) => self.at_fork(look, s, g),
        }
    }

    pub fn find(
        &self,
        pack: &[u8],
        look: &[u16; TypeTable::LOOKS],
        i: u32,
        s: u32,
        sort: u32,
    ) -> Found
        requires { (i < rows) × (sort < 131072) × Sound self.now i }
        ensures { Finding pack.now look.now self.now i s sort result }
    {
        match self.root_of(sort) {
            None => Found::Root,
            Some(k) => self.find_below(pack, look, i, s, sort, k),
        }
    }
}
