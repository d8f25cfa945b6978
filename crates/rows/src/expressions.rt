// The expression table: 9 kinds of nodes.
ghost use Rattle.std.specs.Prelude.{◌≡◌, ◌≤◌};
ghost use Rattle.lists.specs.Peaks.{Peaks as PeaksOf, never};
ghost use Rattle.rows.specs.Expressions.{unused as unused_of, expression_known, kind_known, expression_in_range, expression_rule};

use crate::faults::fault_of;
use laws::Fault;
use lists::{Items, LITERALS, NAMES, OPERATORS, Peaks, SLOTS, items_fit, optional_below};
use pack::{Counts, ExpressionRow, NodeKind, expression_row};

// Whether three fields that a kind does not use are zero.
#[tactic(auto, unfolding(crate::specs::Expressions::unused))]
fn unused(x: u32, y: u32, z: u32) -> bool
    ensures { result ≡ unused_of x y z }
{
    x == 0 && y == 0 && z == 0
}

#[tactic(auto, unfolding(crate::specs::Expressions::kind_known, laws::specs::Choice::by_kind))]
fn kind_known(r: ExpressionRow) -> bool
    ensures { result ≡ kind_known r }
{
    match NodeKind::try_from(r.kind) {
        Ok(NodeKind::Literal) => r.op < LITERALS && unused(r.a, r.b, r.c),
        Ok(NodeKind::Slot) => unused(r.op, r.b, r.c),
        Ok(NodeKind::Block) => unused(r.op, 0, r.c),
        Ok(NodeKind::Let) => unused(r.op, 0, 0),
        Ok(NodeKind::Match) => unused(r.op, 0, r.c),
        Ok(NodeKind::Operator) => r.op < OPERATORS && unused(0, 0, r.c),
        Ok(NodeKind::Record) => unused(r.op, 0, r.c),
        Ok(NodeKind::Field) => unused(r.op, 0, r.c),
        Ok(NodeKind::Return) => unused(r.op, r.b, r.c),
        Err(_) => false,
    }
}

#[tactic(auto, unfolding(crate::specs::Expressions::expression_known))]
fn expression_known(r: ExpressionRow) -> bool
    ensures { result ≡ expression_known r }
{
    r.zero == 0 && kind_known(r)
}

#[tactic(auto, unfolding(crate::specs::Expressions::expression_in_range, laws::specs::Choice::by_kind))]
fn expression_in_range(
    pack: &[u8],
    c: Counts,
    e: u32,
    r: ExpressionRow,
    peaks: &[u16; Peaks::CAPACITY],
) -> bool
    requires { PeaksOf pack.now c peaks.now × (e ≤ never) }
    ensures { result ≡ expression_in_range pack.now c e r }
{
    match NodeKind::try_from(r.kind) {
        Ok(NodeKind::Literal) => true,
        Ok(NodeKind::Slot) => r.a < SLOTS,
        Ok(NodeKind::Block) => {
            items_fit(pack, c, Items::Ids(e), r.a, peaks) && optional_below(r.b, e)
        },
        Ok(NodeKind::Let) => { r.a < SLOTS && r.b < e && optional_below(r.c, c.types) },
        Ok(NodeKind::Match) => r.a < e && items_fit(pack, c, Items::Arms(e), r.b, peaks),
        Ok(NodeKind::Operator) => r.a < e && r.b < e,
        Ok(NodeKind::Record) => {
            r.a < c.definitions && items_fit(pack, c, Items::Pairs(NAMES, e), r.b, peaks)
        },
        Ok(NodeKind::Field) => r.a < e && r.b < NAMES,
        Ok(NodeKind::Return) => optional_below(r.a, e),
        _ => true,
    }
}

// The first fault of expression row e, if it has one.
pub fn expression_rule(
    pack: &[u8],
    c: Counts,
    e: u32,
    peaks: &[u16; Peaks::CAPACITY],
) -> Option<Fault>
    requires { PeaksOf pack.now c peaks.now × (e ≤ never) }
    ensures { result ≡ expression_rule pack.now c e }
{
    let row = expression_row(pack, c, e);
    let known = expression_known(row);
    let ranged = expression_in_range(pack, c, e, row, peaks);
    fault_of(known, ranged, true)
}
