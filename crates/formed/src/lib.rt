// What makes a pack well-formed: its header, its rows, and that its expressions are trees under its roots.
#![tactic(auto)]

mod whole;

pub use whole::formed;
