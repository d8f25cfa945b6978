// What module 4 of document 01 decides of a record without looking into its parts: refusals 31, 35 and 36.
#![tactic(auto)]

mod answer;
mod records;

pub use answer::RecordFault;
pub use records::{duplicate_fields, invalid_fields, missing_fields, record_fault};
