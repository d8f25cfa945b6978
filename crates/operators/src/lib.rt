// The operators of document 01, module 4, as pure decisions over type codes: what the right side is checked against, what the operator's
// own type is and which call it stands for, or the refusal at the left node.
#![tactic(auto)]

mod names;
mod plan;
mod rules;

pub use names::{Call, Op, Primitive, call_number, primitive_code};
pub use plan::OperatorPlan;
pub use rules::operator_plan;
