// Union-find over type codes: module 1 of document 01.
// The cells are lent, as `&mut u.cells`; how many variables are in use goes beside them, by value.
#![tactic(auto)]

mod cells;
mod chain;
mod codes;
mod store;

pub use cells::{UnionFind, unset_cells};
pub use chain::{find, find_ref};
pub use codes::{Kind, Tag, code_of, is_var, number_of, tag_of};
pub use store::{fresh, set};
