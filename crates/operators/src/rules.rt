// The rule of each operator: `own` is the code that the left side was checked against, `left` what that stands for.
ghost use Rattle.std.specs.Prelude.{◌≡◌};
ghost use Rattle.operators.specs.Operators.{logical, compared, equated, number, added, divided, remainder, power, operator_plan};

use crate::names::{Call, Op, Primitive};
use crate::plan::{OperatorPlan, accept};
use laws::Fault;
use unify::{is_int_type, is_numeric_type};

// And, Or.
fn logical_plan() -> Result<OperatorPlan, Fault>
    ensures { result ≡ logical }
{
    let truth = Primitive::Bool.code();
    accept(truth, truth, None)
}

// Lt, Le, Gt, Ge.
#[tactic(auto, unfolding(crate::specs::Operators::compared, laws::specs::Choice::pick))]
fn compared_plan(own: u32, left: u32) -> Result<OperatorPlan, Fault>
    ensures { result ≡ compared left own }
{
    if !is_numeric_type(left) {
        return Err(Fault::NotNumeric);
    }
    equated_plan(own)
}

// Eq, Ne.
fn equated_plan(own: u32) -> Result<OperatorPlan, Fault>
    ensures { result ≡ equated own }
{
    accept(own, Primitive::Bool.code(), None)
}

// Sub, Mul, and what Add, Div and Exp are else.
#[tactic(auto, unfolding(crate::specs::Operators::number, laws::specs::Choice::pick))]
fn number_plan(own: u32, left: u32) -> Result<OperatorPlan, Fault>
    ensures { result ≡ number left own }
{
    if is_numeric_type(left) {
        accept(own, own, None)
    } else {
        Err(Fault::NotNumeric)
    }
}

#[tactic(auto, unfolding(crate::specs::Operators::added, laws::specs::Choice::pick))]
fn added_plan(own: u32, left: u32, list: bool) -> Result<OperatorPlan, Fault>
    ensures { result ≡ added left list own }
{
    if left == Primitive::String.code() {
        accept(own, own, Some(Call::StringAppend))
    } else if list {
        accept(own, own, Some(Call::ListConcat))
    } else {
        number_plan(own, left)
    }
}

#[tactic(auto, unfolding(crate::specs::Operators::divided, laws::specs::Choice::pick))]
fn divided_plan(own: u32, left: u32) -> Result<OperatorPlan, Fault>
    ensures { result ≡ divided left own }
{
    if left == Primitive::IpAddr.code() {
        let bits = Primitive::U8.code();
        let prefix = Primitive::Prefix.code();
        accept(bits, prefix, Some(Call::PrefixNew))
    } else {
        number_plan(own, left)
    }
}

#[tactic(auto, unfolding(crate::specs::Operators::remainder, laws::specs::Choice::pick))]
fn remainder_plan(own: u32, left: u32) -> Result<OperatorPlan, Fault>
    ensures { result ≡ remainder left own }
{
    if is_int_type(left) {
        accept(own, own, None)
    } else {
        Err(Fault::NotInteger)
    }
}

#[tactic(auto, unfolding(crate::specs::Operators::power, laws::specs::Choice::pick))]
fn power_plan(own: u32, left: u32) -> Result<OperatorPlan, Fault>
    ensures { result ≡ power left own }
{
    if is_int_type(left) {
        accept(Primitive::U32.code(), own, None)
    } else {
        number_plan(own, left)
    }
}

// And Or Lt Le Gt Ge Eq Ne Add Sub Mul Div Mod Exp are op 0 to 13; any further op is taken for Exp.
#[tactic(auto, unfolding(crate::specs::Operators::operator_plan))]
pub fn operator_plan(op: u32, own: u32, left: u32, list: bool) -> Result<OperatorPlan, Fault>
    ensures { result ≡ operator_plan op own left list }
{
    match Op::of(op) {
        Op::And | Op::Or => logical_plan(),
        Op::Lt | Op::Le | Op::Gt | Op::Ge => compared_plan(own, left),
        Op::Eq | Op::Ne => equated_plan(own),
        Op::Add => added_plan(own, left, list),
        Op::Sub | Op::Mul => number_plan(own, left),
        Op::Div => divided_plan(own, left),
        Op::Mod => remainder_plan(own, left),
        Op::Exp => power_plan(own, left),
    }
}
