// What is known of a row's list. A list that looks like an earlier one has what is known of that.
ghost use Rattle.std.specs.Prelude.{◌≡◌, ◌<◌, ◌+◌, replicate, set};
ghost use Rattle.laws.specs.Lists.{bit};
ghost use Rattle.laws.specs.Bounded.{get, put};
ghost use Rattle.structure.specs.Structure.{rows};
ghost use Rattle.structure.specs.Table.{Link, Hit, Clear};
ghost use Rattle.structure.specs.Tree.{Bare, Sound};
ghost use Rattle.structure.specs.Facts.{slots, has_list, Finds, HeldTold, FactsTold, ListKept};

use crate::finding::Found;
use crate::lists::{list_held, lists_like, words_held};
use crate::slots::{slot_at, sort_at};
use crate::table::{TypeTable, entry_at, linked};
use crate::tree::ListTrees;
use pack::Counts;

// The number of a list, and whether a type of it is marked.
#[derive(Clone, Copy)]
pub struct ListFacts {
    pub number: u32,
    pub held: bool,
}

// The lists of the rows before: a row that has each list, what is known of each row's list, and the trees in which lists are found.
#[derive(Drop)]
pub struct KnownLists {
    pub users: [u16; TypeTable::SLOTS],
    pub numbers: [u32; TypeTable::CAPACITY],
    pub helds: [u32; TypeTable::CAPACITY],
    pub trees: ListTrees,
}

// A row before i whose list looks like that at s: each row is looked at. This is for packs that are not well-formed.
fn row_with_list(
    pack: &[u8],
    c: Counts,
    same: &[u32; TypeTable::CAPACITY],
    i: u32,
    s: u32,
) -> Option<u32>
    ensures { Hit (has_list pack.now c same.now s) i result }
{
    for j in 0..i {
        if lists_like(pack, c, same, slot_at(pack, j), s) {
            return Some(j);
        }
    }
    None
}

// Whether a type of the list at s is marked. `fit` says that all lists lie in the words that there is room for.
fn held_of(
    pack: &[u8],
    c: Counts,
    marks: &[u32; TypeTable::CAPACITY],
    look: &[u16; TypeTable::LOOKS],
    fit: bool,
    s: u32,
    sort: u32,
) -> bool
    requires { sort < 131072 }
    ensures { HeldTold pack.now c marks.now look.now fit s sort result }
{
    if fit {
        words_held(look, s, sort)
    } else {
        list_held(pack, c, marks, s)
    }
}

impl KnownLists {
    pub fn empty() -> Self
        ensures { (result.users ≡ replicate slots 0) × Clear result.numbers × Clear result.helds × Bare result.trees × Sound result.trees 0 }
    {
        Self {
            users: [0u16; TypeTable::SLOTS],
            numbers: [0u32; TypeTable::CAPACITY],
            helds: [0u32; TypeTable::CAPACITY],
            trees: ListTrees::empty(),
        }
    }

    // A row that has the list at s itself.
    #[tactic(auto, using(laws::proofs::Bounded::get_in, laws::proofs::Bounded::get_out))]
    fn user_of(&self, s: u32) -> Option<u32>
        ensures { Link (get slots self.now.users s) result }
    {
        if (s as usize) < TypeTable::SLOTS {
            linked(self.users[s as usize])
        } else {
            None
        }
    }

    // A row whose list looks like that at s, or where that one is to stand in its tree.
    fn find(
        &self,
        pack: &[u8],
        c: Counts,
        same: &[u32; TypeTable::CAPACITY],
        look: &[u16; TypeTable::LOOKS],
        fit: bool,
        i: u32,
        s: u32,
        sort: u32,
    ) -> Found
        requires { (i < rows) × (sort < 131072) × Sound self.now.trees i }
        ensures { Finds pack.now c same.now look.now self.now fit i s sort result }
    {
        if let Some(row) = self.user_of(s) {
            Found::Same(row)
        } else if fit {
            self.trees.find(pack, look, i, s, sort)
        } else {
            match row_with_list(pack, c, same, i, s) {
                Some(row) => Found::Same(row),
                None => Found::Loose,
            }
        }
    }

    // What is known of the list at s, of which that was found.
    fn facts_of(
        &self,
        pack: &[u8],
        c: Counts,
        marks: &[u32; TypeTable::CAPACITY],
        look: &[u16; TypeTable::LOOKS],
        fit: bool,
        i: u32,
        s: u32,
        sort: u32,
        found: Found,
    ) -> ListFacts
        requires { (i < rows) × (sort < 131072) }
        ensures { FactsTold pack.now c marks.now look.now self.now fit i s sort found result }
    {
        match found {
            Found::Same(row) => ListFacts {
                number: entry_at(&self.numbers, row),
                held: entry_at(&self.helds, row) != 0,
            },
            _ => ListFacts {
                number: i,
                held: held_of(pack, c, marks, look, fit, s, sort),
            },
        }
    }

    // Row i has the list at s. A slot past those that there is room for is not kept.
    fn keep_user(&mut self, i: u32, s: u32)
        requires { i < rows }
        ensures { self.new ≡ record self.old { users = put slots self.old.users s (i + 1) } }
    {
        if (s as usize) < TypeTable::SLOTS {
            self.users[s as usize] = (i + 1) as u16;
        }
    }

    // What is known of row i's list, kept for the rows after it.
    fn keep_facts(&mut self, i: u32, l: ListFacts)
        requires { i < rows }
        ensures { self.new ≡ record self.old { numbers = set self.old.numbers i l.number; helds = set self.old.helds i (bit l.held) } }
    {
        self.numbers[i as usize] = l.number;
        self.helds[i as usize] = u32::from(l.held);
    }

    // The list of row i, found or put into its tree, and what is known of it.
    pub fn keep(
        &mut self,
        pack: &[u8],
        c: Counts,
        table: &TypeTable,
        look: &[u16; TypeTable::LOOKS],
        fit: bool,
        i: u32,
    ) -> ListFacts
        requires { (i < rows) × Sound self.old.trees i }
        ensures { ListKept pack.now c table.now look.now self.old fit i result self.new × Sound self.new.trees (i + 1) }
    {
        let s = slot_at(pack, i);
        let sort = sort_at(pack, c, s);
        let found = self.find(pack, c, &table.same, look, fit, i, s, sort);
        let l = self.facts_of(pack, c, &table.marks, look, fit, i, s, sort, found);
        self.trees.grow(i, sort, found);
        self.keep_user(i, s);
        self.keep_facts(i, l);
        l
    }
}
