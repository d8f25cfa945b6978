// Lists: what their items stay below, names that differ, references that rise, each asked of a whole list at once.
#![tactic(auto)]

mod earlier;
mod forms;
mod limits;
mod lists;
mod names;
mod peaks;
mod runs;
mod tables;
mod tree;
mod weights;

pub use limits::{EXPLICITS, LITERALS, NAMES, OPERATORS, SLOTS, VARIABLES, optional_below};
pub use lists::{Items, items_fit};
pub use names::{items_rise, names_differ};
pub use peaks::Peaks;
pub use tree::fill_tree;
