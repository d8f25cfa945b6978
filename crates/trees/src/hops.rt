// Runs of items whose children were all named twice: a list passes such a run in one step.
ghost use Rattle.std.specs.Prelude.{◌≡◌, ◌<◌};
ghost use Rattle.pack.specs.Named.{optional};
ghost use Rattle.trees.specs.Notes.{told};
ghost use Rattle.trees.specs.Hops.{full, all_full, kids_from, hop_at, Run, Hops as HopsOf};

use crate::kids::Kids;
use crate::notes::Notes;
use pack::{Counts, list_len};

// More than there are list words.
const LINE: usize = 8192;

impl Notes {
    // How many items from word j on are known to be full.
    fn hop_at(&self, kids: Kids, j: usize) -> u16
        ensures { result ≡ hop_at self.now.hops kids j }
    {
        if j < LINE {
            self.hops[kids.line() + j]
        } else {
            0
        }
    }

    fn is_full(&self, k: u32) -> bool
        ensures { result ≡ full self.now.uses k }
    {
        let at = k as usize;
        at >= Notes::CAPACITY || self.uses[at] >= 2
    }

    fn optional_full(&self, stored: u32) -> bool
        ensures { result ≡ all_full self.now.uses (optional stored) }
    {
        stored == 0 || self.is_full(stored - 1)
    }

    // Whether the item at word j names only what was named twice.
    fn item_full(&self, pack: &[u8], c: Counts, kids: Kids, j: u32) -> bool
        requires { j < 8192 }
        ensures { result ≡ all_full self.now.uses (kids_from pack.now c kids j) }
    {
        match kids {
            Kids::Items => self.is_full(list_len(pack, c, j)),
            Kids::Seconds => self.is_full(list_len(pack, c, j + 1)),
            Kids::Arms => {
                self.optional_full(list_len(pack, c, j + 2))
                    && self.is_full(list_len(pack, c, j + 3))
            }
        }
    }

    // A run of one item, or none.
    fn one_full(&self, pack: &[u8], c: Counts, kids: Kids, j: usize) -> u32
        ensures { Run pack.now c self.now.uses kids j result }
    {
        if j < LINE && self.item_full(pack, c, kids, j as u32) {
            1
        } else {
            0
        }
    }

    // A run of items from word j on: the known one and the one after it, or what the first item tells.
    pub fn reach(&self, pack: &[u8], c: Counts, kids: Kids, j: usize) -> u32
        requires { HopsOf pack.now c self.now.uses self.now.hops }
        ensures { Run pack.now c self.now.uses kids j result }
    {
        let known = self.hop_at(kids, j) as u32;
        if known == 0 {
            self.one_full(pack, c, kids, j)
        } else {
            let next = kids.item_start(j, known);
            known + (self.hop_at(kids, next) as u32)
        }
    }

    // Notes that a run of n items starts at word j.
    pub fn set_hop(&mut self, pack: &[u8], c: Counts, kids: Kids, j: usize, n: u32)
        requires { HopsOf pack.now c self.old.uses self.old.hops × Run pack.now c self.old.uses kids j n }
        ensures noted { told self.new ≡ told self.old }
        ensures kept { HopsOf pack.now c self.new.uses self.new.hops }
    {
        if j < LINE {
            self.hops[kids.line() + j] = n as u16;
        }
    }
}
