// What is kept of each list word: the word, and what is known of the type that it names.
ghost use Rattle.std.specs.Prelude.{◌≡◌, ℕ, ◌<◌, eqb, length, set};
ghost use Rattle.laws.specs.Choice.{pick};
ghost use Rattle.laws.specs.Bounded.{Reads};
ghost use Rattle.pack.specs.Lists.{list_word};
ghost use Rattle.structure.specs.Structure.{rows};
ghost use Rattle.structure.specs.Lists.{words};
ghost use Rattle.structure.specs.Buckets.{buckets, head_at, Links};
ghost use Rattle.structure.specs.Words.{looks, look_at, word_in, Read, Noted};

use crate::buckets::bucket_of;
use crate::table::{TypeTable, linked, wide};
use pack::{Counts, list_len};

// What the list at s has at place o.
#[tactic(auto, using(laws::proofs::Bounded::get_in), unfolding(crate::specs::Words::look_at))]
pub fn look_at(look: &[u16; TypeTable::LOOKS], s: u32, o: u32) -> u32
    requires { o < 65536 }
    ensures { Reads result (look_at look.now s o) 65536 }
{
    wide(look[((s / 2 + o) % 16384) as usize])
}

// Word k is x where it names type i.
#[tactic(auto, using(laws::proofs::Bounded::get_in), unfolding(laws::specs::Choice::pick))]
fn note_word(look: &mut [u16; TypeTable::LOOKS], k: u32, i: u32, x: u32)
    requires { (k < words) × (x < 65536) }
    ensures { look.new ≡ pick (eqb (word_in look.old k) i) (set look.old k x) look.old }
{
    if wide(look[(8192 + k) as usize]) == i {
        look[k as usize] = x as u16;
    }
}

// What is known of each list word's type, and from 8,192 on the words; and the chains of words of one bucket.
// (No `Chains`: what is chained are the words themselves, so that there is no array of keys, and there are more of them than rows.)
#[derive(Drop)]
pub struct Words {
    pub look: [u16; TypeTable::LOOKS],
    pub heads: [u16; TypeTable::BUCKETS],
    pub nexts: [u16; TypeTable::WORDS],
}

impl Words {
    pub fn empty() -> Self
        ensures { (length result.look ≡ looks) × ((x : ℕ → ℕ) → Links words x result.heads result.nexts 0) }
    {
        Self {
            look: [0u16; TypeTable::LOOKS],
            heads: [0u16; TypeTable::BUCKETS],
            nexts: [0u16; TypeTable::WORDS],
        }
    }

    // The words of all lists. Those of one value are chained.
    pub fn read(&mut self, pack: &[u8], c: Counts)
        requires { (length self.old.look ≡ looks) × ((x : ℕ → ℕ) → Links words x self.old.heads self.old.nexts 0) }
        ensures { Read pack.now c self.new.look words × Links words (list_word pack.now c) self.new.heads self.new.nexts words }
    {
        for j in 0..8192u32 {
            let word = list_len(pack, c, j);
            let bucket = bucket_of(word);
            self.nexts[j as usize] = self.heads[bucket as usize];
            self.heads[bucket as usize] = (j + 1) as u16;
            self.look[(8192 + j) as usize] = word as u16;
        }
    }

    // Type i is x in all words that name it.
    pub fn note(&mut self, i: u32, x: u32)
        requires { (i < rows) × (x < 65536) × (length self.old.look ≡ looks) × Links words (word_in self.old.look) self.old.heads self.old.nexts words }
        ensures { Noted self.old.look self.new.look i x × (self.new.heads ≡ self.old.heads) × (self.new.nexts ≡ self.old.nexts) }
    {
        let mut link = self.heads[i as usize];
        while let Some(k) = linked(link) {
            note_word(&mut self.look, k, i, x);
            link = self.nexts[k as usize];
        }
    }
}
