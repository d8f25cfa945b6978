// What is recorded of each node while a root is checked, and the words that a report writes of it.
#![tactic(auto)]

mod area;
mod nodes;
mod notes;
mod word;

pub use nodes::write_node;
pub use notes::{Notes, code_noted, note_at, note_of, put_note};
pub use word::encode;
