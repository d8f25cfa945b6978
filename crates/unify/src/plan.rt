// What is to be done with two resolved sides: module 2's cases in their order.
ghost use Rattle.std.specs.Prelude.{◌≡◌};
ghost use Rattle.unify.specs.Unify.{number_plan, any_plan, plan_of};

use crate::classes::takes_type;
use structure::{TypeTable, holds_var};
use unionfind::{Tag, number_of, tag_of};

#[derive(Clone, Copy)]
pub enum Plan {
    Same,
    Clash,
    Store { cell: u32, code: u32 },
}

// An integer or float variable beside what it may be let to.
#[tactic(auto, unfolding(crate::specs::Unify::number_plan, laws::specs::Choice::pick))]
fn number_plan(left: u32, right: u32) -> Plan
    ensures { result ≡ number_plan left right }
{
    if takes_type(left, right) {
        Plan::Store {
            cell: number_of(left),
            code: right,
        }
    } else if takes_type(right, left) {
        Plan::Store {
            cell: number_of(right),
            code: left,
        }
    } else {
        Plan::Clash
    }
}

// An any-variable, the left one first.
#[tactic(auto, unfolding(crate::specs::Unify::any_plan, laws::specs::Choice::pick))]
fn any_plan(left: u32, right: u32) -> Plan
    ensures { result ≡ any_plan left right }
{
    if tag_of(left) == Tag::VAR {
        Plan::Store {
            cell: number_of(left),
            code: right,
        }
    } else if tag_of(right) == Tag::VAR {
        Plan::Store {
            cell: number_of(right),
            code: left,
        }
    } else {
        number_plan(left, right)
    }
}

#[tactic(auto, unfolding(crate::specs::Unify::plan_of, laws::specs::Choice::pick))]
pub fn plan_for(marks: &[u32; TypeTable::CAPACITY], left: u32, right: u32) -> Plan
    ensures { result ≡ plan_of marks.now left right }
{
    if left == right {
        Plan::Same
    } else if holds_var(marks, left) || holds_var(marks, right) {
        Plan::Clash
    } else {
        any_plan(left, right)
    }
}
