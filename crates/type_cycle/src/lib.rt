// Module 3: no definition has an unresolved variable in a field, and none holds itself.
#![tactic(auto)]

mod cycles;
mod readers;
mod search;
mod skips;
mod visits;

pub use cycles::detect_type_cycles;
