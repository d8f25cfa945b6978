// An index of the list words by their value, made once: so that a name is found in a list without a walk over the list.
#![tactic(auto)]

mod fill;
mod index;
mod search;

pub use fill::fill_names;
pub use index::NameIndex;
pub use search::{find_pair, next_item};
