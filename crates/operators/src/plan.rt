// What an operator's rule says once its left side is checked.
ghost use Rattle.std.specs.Prelude.{◌≡◌};
ghost use Rattle.operators.specs.Operators.{accepted};

use crate::names::Call;
use laws::Fault;

// The right side is checked against `right`, `result` is the operator's own type and `call` what it stands for.
#[derive(Clone, Copy)]
pub struct OperatorPlan {
    pub right: u32,
    pub result: u32,
    pub call: Option<Call>,
}

pub fn accept(right: u32, res: u32, call: Option<Call>) -> Result<OperatorPlan, Fault>
    ensures { result ≡ accepted right res call }
{
    Ok(OperatorPlan {
        right: right,
        result: res,
        call: call,
    })
}
