// Slots open and close while a root is checked: a slot is bound once in a root, and is open from there to the end of its scope.
#![tactic(auto)]

mod close;
mod open;
mod slots;

pub use close::{close_lets, close_list};
pub use open::{open_list, open_pairs, open_slot};
pub use slots::{Slots, slot_at};
