// Notes: of each node the code of the type that it records, its call and whether it diverges, until the root is checked and every type can
// be resolved. A note of 0 says that the node was not seen.
ghost use Rattle.std.specs.Prelude.{◌≡◌, replicate};
ghost use Rattle.laws.specs.Bounded.{get, put};
ghost use Rattle.words.specs.Notes.{nodes, note_of, code_noted, call_noted, diverges_noted, is_seen};

use laws::{get_at, put_at};

// The facts of a note are packed into one number of 4 bytes, since there is one for each of 4,096 nodes.
#[derive(Drop)]
pub struct Notes {
    pub notes: [u32; Notes::CAPACITY],
}

impl Notes {
    pub const CAPACITY: usize = 4096;

    // The lowest bits are the code; each other field starts at its constant.
    pub const CODES: u32 = 131072;

    pub const CALL: u32 = 131072;

    pub const CALLS: u32 = 4;

    pub const DIVERGES: u32 = 524288;

    pub const SEEN: u32 = 1048576;

    pub fn empty() -> Self
        ensures { result.notes ≡ replicate nodes 0 }
    {
        Self {
            notes: [0u32; Self::CAPACITY],
        }
    }
}

#[tactic(auto, using(crate::proofs::Noting::bit_small), unfolding(crate::specs::Notes::note_of))]
pub fn note_of(diverges: bool, call: u32, code: u32) -> u32
    ensures { result ≡ note_of diverges call code }
{
    let bit = u32::from(diverges);
    Notes::SEEN + bit * Notes::DIVERGES + call % Notes::CALLS * Notes::CALL + code % Notes::CODES
}

#[tactic(auto, unfolding(crate::specs::Notes::code_noted))]
pub fn code_noted(note: u32) -> u32
    ensures { result ≡ code_noted note }
{
    note % Notes::CODES
}

#[tactic(auto, unfolding(crate::specs::Notes::call_noted))]
pub fn call_noted(note: u32) -> u32
    ensures { result ≡ call_noted note }
{
    note / Notes::CALL % Notes::CALLS
}

#[tactic(auto, unfolding(crate::specs::Notes::diverges_noted))]
pub fn diverges_noted(note: u32) -> bool
    ensures { result ≡ diverges_noted note }
{
    note / Notes::DIVERGES % 2 == 1
}

#[tactic(auto, unfolding(crate::specs::Notes::is_seen))]
pub fn is_seen(note: u32) -> bool
    ensures { result ≡ is_seen note }
{
    note / Notes::SEEN % 2 == 1
}

pub fn note_at(notes: &[u32; Notes::CAPACITY], id: u32) -> u32
    ensures { result ≡ get nodes notes.now id }
{
    get_at(notes, id)
}

pub fn put_note(notes: &mut [u32; Notes::CAPACITY], id: u32, note: u32)
    ensures { notes.new ≡ put nodes notes.old id note }
{
    put_at(notes, id, note)
}
