// What module 4 of document 01 decides of a match without looking into its parts: refusals 24, 26 to 30, 35 and 36.
#![tactic(auto)]

mod answer;
mod arms;

pub use answer::Subject;
pub use arms::{arm_fault, examined, missing_variants};
