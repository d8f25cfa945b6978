// "5. Order": in which order constants and functions are compiled, or why there is no such order.
#![tactic(auto)]

mod area;
mod context;
mod recursive;
mod values;
mod whole;

pub use whole::find_compilation_order;
