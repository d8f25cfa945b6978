// Tarjan's search over the values of a pack: their listing, and the size of each value's component.
#![tactic(auto)]

mod connect;
mod listing;
mod search;
mod stack;
mod values;

pub use connect::tarjan;
pub use listing::Listing;
pub use search::Search;
pub use values::list_of;
