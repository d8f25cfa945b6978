// What is noted of a node while its root is checked.
ghost use Rattle.std.specs.Prelude.{◌≡◌};
ghost use Rattle.expr.specs.Rules.{recorded, sealed, last_code};

use crate::types::Code;
use words::{Notes, code_noted, note_at, note_of, put_note};

// The type that a node records.
#[tactic(auto, unfolding(crate::specs::Rules::recorded))]
pub fn record_type(notes: &mut [u32; Notes::CAPACITY], id: u32, code: u32)
    ensures { notes.new ≡ recorded notes.old id code }
{
    put_note(notes, id, note_of(false, 0, code));
}

// The node is accepted.
#[tactic(auto, unfolding(crate::specs::Rules::sealed))]
pub fn seal(notes: &mut [u32; Notes::CAPACITY], id: u32, diverges: bool, call: u32)
    ensures { notes.new ≡ sealed notes.old id diverges call }
{
    let code = code_noted(note_at(notes, id));
    put_note(notes, id, note_of(diverges, call, code));
}

// What a block records: its last expression's type, or unit.
#[tactic(auto, unfolding(crate::specs::Rules::last_code))]
pub fn last_code(notes: &[u32; Notes::CAPACITY], last: u32) -> u32
    ensures { result ≡ last_code notes.now last }
{
    if last == 0 {
        Code::UNIT
    } else {
        code_noted(note_at(notes, last - 1))
    }
}
