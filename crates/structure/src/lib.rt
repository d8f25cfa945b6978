// The type table by structure: rows equal in structure have one number, the smallest of them, so that two types are equal exactly if their
// codes are; and which rows hold a variable.
#![tactic(auto)]

mod buckets;
mod compare;
mod facts;
mod finding;
mod grow;
mod lists;
mod numbering;
mod rows;
mod slots;
mod table;
mod tree;
mod types;
mod words;

pub use numbering::number_rows;
pub use table::TypeTable;
pub use types::{holds_var, type_code};
