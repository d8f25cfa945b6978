// What a resolved type names, its members by name, and what module 4 of document 01 decides of a field without
// looking into its parts: refusals 32, 35 and 36.
#![tactic(auto)]

mod access;
mod lists;
mod marks;
mod types;

pub use access::accessed;
pub use lists::{is_member, member_of, name_at};
pub use marks::{any_field_marked, any_marked, is_marked};
pub use types::{is_list, named};
