// Unify: module 2 of document 01, over type codes.
// Rows of equal structure have one number, so two types are equal exactly if their codes are.
#![tactic(auto)]

mod classes;
mod plan;
mod sides;

pub use classes::{is_int_type, is_numeric_type};
pub use plan::{Plan, plan_for};
pub use sides::{resolve_type, unify};
