// Notes on each expression: how often it was named, up to 2, and the place where it was named, if it was named once.
ghost use Rattle.std.specs.Prelude.{◌≡◌, ◌<◌};
ghost use Rattle.laws.specs.Lists.{gather};
ghost use Rattle.pack.specs.Lists.{list_len};
ghost use Rattle.pack.specs.Named.{optional};
ghost use Rattle.trees.specs.Notes.{told, note_one, note_all, kids_at};
ghost use Rattle.trees.specs.Hops.{Hops as HopsOf, Passed, Noting};
ghost use Rattle.trees.specs.Trees.{Clean};

use crate::kids::Kids;
use pack::{Counts, list_item, list_len};

#[derive(Drop)]
pub struct Notes {
    // Of each expression, how often it was named, up to 2.
    pub uses: [u8; Notes::CAPACITY],
    // Of each expression, where it was named, if it was named once.
    pub places: [u8; Notes::CAPACITY],
    // Of each kind of items and each list word, how many items from there on name only what was named twice.
    pub hops: [u16; Notes::HOPS],
}

impl Notes {
    // One for each expression that a pack can have.
    pub const CAPACITY: usize = 4096;

    // One for each list word and each kind of items.
    pub const HOPS: usize = 24576;

    pub fn empty() -> Self
        ensures { Clean result }
    {
        Notes {
            uses: [0; Notes::CAPACITY],
            places: [0; Notes::CAPACITY],
            hops: [0; Notes::HOPS],
        }
    }

    // One naming.
    pub fn note(&mut self, kid: u32, place: u8)
        ensures noted { told self.new ≡ note_one kid place (told self.old) }
        ensures hops { self.new.hops ≡ self.old.hops }
    {
        let k = kid as usize;
        if k < Notes::CAPACITY {
            let n = self.uses[k];
            if n < 2 {
                self.uses[k] = n + 1;
                self.places[k] = place;
            }
        }
    }

    // What is stored as a child+1, or 0 for none.
    pub fn note_optional(&mut self, stored: u32, place: u8)
        ensures noted { told self.new ≡ note_all (optional stored) place (told self.old) }
        ensures hops { self.new.hops ≡ self.old.hops }
    {
        if stored != 0 {
            self.note(stored - 1, place);
        }
    }

    // What item k of the list at s names.
    fn note_item(&mut self, pack: &[u8], c: Counts, kids: Kids, s: u32, k: u32, place: u8)
        requires { k < 65536 }
        ensures noted { told self.new ≡ note_all (kids_at pack.now c kids s k) place (told self.old) }
        ensures hops { self.new.hops ≡ self.old.hops }
    {
        match kids {
            Kids::Items => {
                self.note(list_item(pack, c, s, k), place);
            }
            Kids::Seconds => {
                self.note(list_item(pack, c, s, 2 * k + 1), place);
            }
            Kids::Arms => {
                self.note_optional(list_item(pack, c, s, 4 * k + 2), place);
                self.note(list_item(pack, c, s, 4 * k + 3), place);
            }
        }
    }

    // Passes some items of the list at s, from item k on: a run of items that are full, or one item that it notes.
    fn note_some(&mut self, pack: &[u8], c: Counts, kids: Kids, s: u32, k: u32, place: u8) -> u32
        requires { (k < 65536) × HopsOf pack.now c self.old.uses self.old.hops }
        ensures { Passed pack.now c kids s k place (told self.old) (told self.new) self.new.hops result }
    {
        let j = kids.item_start((s as usize) + 1, k);
        let run = self.reach(pack, c, kids, j);
        if run == 0 {
            self.note_item(pack, c, kids, s, k, place);
            1
        } else {
            self.set_hop(pack, c, kids, j, run);
            run
        }
    }

    // What the items of the list at s name, in their order.
    pub fn note_list(&mut self, pack: &[u8], c: Counts, kids: Kids, s: u32, place: u8)
        requires { HopsOf pack.now c self.old.uses self.old.hops }
        ensures { Noting (told self.new) (note_all (gather (kids_at pack.now c kids s) 0 (list_len pack.now c s)) place (told self.old)) pack.now c self.new.hops }
    {
        let n = list_len(pack, c, s);
        let mut k = 0;
        while k < n {
            let passed = self.note_some(pack, c, kids, s, k, place);
            k += passed;
        }
    }
}
