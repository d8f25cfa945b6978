// The rows of a pack in table order: refusals 10, 11 and 14, each at its first row.
// Every rule asks all its tests and then chooses: what it calls is total, and the first fault ends the walk.
#![tactic(auto)]

mod definitions;
mod expressions;
mod faults;
mod roots;
mod table;
mod tables;
mod types;
mod values;

pub use tables::rows;
