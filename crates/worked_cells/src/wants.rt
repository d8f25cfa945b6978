// What is wanted of a pair that is unified.
ghost use Rattle.std.specs.Prelude.{◌≡◌, IfSome, Some};
ghost use Rattle.worked_cells.specs.declared.wants.Want.{Want as WantOf};
ghost use Rattle.worked_cells.specs.Wants.{letter_of, answer_of, changes_of, after_of};

use crate::answers::Wanted;
use crate::pairs::Pair;
use laws::{Fault, Refusal};

// The node whose rule asks.
pub const NODE: u32 = 77;

// What is wanted of a pair, with its letter in a table.
#[derive(Clone, Copy)]
pub enum Want {
    // Nothing changes: `=`.
    Same,
    // The left one is set to the right one: `<`.
    Left,
    // The right one is set to the left one: `>`.
    Right,
    // 20 at the node: `.`.
    Clash,
}

impl Want {
    // What a letter wants, if it is one of these.
    pub fn of(letter: u8) -> Option<Want>
        ensures known { (w : WantOf) → letter_of w ≡ letter → result ≡ Some w }
        ensures only { IfSome result (λ w. letter_of w ≡ letter) }
    {
        match letter {
            b'=' => Some(Want::Same),
            b'<' => Some(Want::Left),
            b'>' => Some(Want::Right),
            b'.' => Some(Want::Clash),
            _ => None,
        }
    }

    // The answer.
    pub fn answer(self) -> Wanted
        ensures { result ≡ answer_of self }
    {
        match self {
            Want::Clash => Some(Refusal::at(Fault::Mismatch, NODE)),
            Want::Same | Want::Left | Want::Right => None,
        }
    }

    // How many cells change.
    pub fn changes(self) -> usize
        ensures { result ≡ changes_of self }
    {
        match self {
            Want::Left | Want::Right => 1,
            Want::Same | Want::Clash => 0,
        }
    }

    // What the two stand for afterwards.
    pub fn after(self, pair: Pair) -> Pair
        ensures { result ≡ after_of self pair }
    {
        match self {
            Want::Left => Pair::new(pair.right, pair.right),
            Want::Right => Pair::new(pair.left, pair.left),
            Want::Same | Want::Clash => pair,
        }
    }
}
