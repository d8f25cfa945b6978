// The functions that the Rust host calls, by way of `entries_c`, with plain numbers and byte slices. The answer of each is a refusal's
// number, or 0 for a report; place and detail are written always, 0 on a report.
#![tactic(auto)]

mod answers;
mod order;
mod ready;
mod root;
mod types;

pub use order::rulepack_order;
pub use root::rulepack_root;
pub use types::{check_types, rulepack_types};
