// The children of an expression, one after the other in checking order.
ghost use Rattle.std.specs.Prelude.{◌≡◌, ◌<◌, option_to_list};
ghost use Rattle.laws.specs.Bounded.{Reads};
ghost use Rattle.pack.specs.Named.{optional};
ghost use Rattle.report.specs.Kids.{most, kids_room, kid_at, block_kid, arm_kid, first_or};

use pack::{Counts, ExpressionRow, NodeKind, list_item, list_len};

// How many places for children a row has.
#[tactic(auto, unfolding(crate::specs::Kids::kids_room, laws::specs::Choice::by_kind))]
pub fn kids_room(pack: &[u8], c: Counts, row: ExpressionRow) -> u32
    ensures { Reads result (kids_room pack.now c row) most }
{
    match NodeKind::try_from(row.kind) {
        Ok(NodeKind::Literal) => 0,
        Ok(NodeKind::Slot) => 0,
        Ok(NodeKind::Block) => list_len(pack, c, row.a) + 1,
        Ok(NodeKind::Let) => 1,
        Ok(NodeKind::Match) => 2 * list_len(pack, c, row.b) + 1,
        Ok(NodeKind::Operator) => 2,
        Ok(NodeKind::Record) => list_len(pack, c, row.b),
        Ok(NodeKind::Field) => 1,
        Ok(NodeKind::Return) => 1,
        Err(_) => 0,
    }
}

// What is stored as a child+1, or 0 for none.
fn stored(x: u32) -> Option<u32>
    ensures { option_to_list result ≡ optional x }
{
    x.checked_sub(1)
}

// Of a block: a statement, or what is stored as its last expression.
#[tactic(auto, unfolding(crate::specs::Kids::block_kid, laws::specs::Choice::pick))]
fn block_kid(pack: &[u8], c: Counts, list: u32, last: u32, k: u32) -> Option<u32>
    ensures { option_to_list result ≡ block_kid pack.now c list last k }
{
    if k < list_len(pack, c, list) {
        Some(list_item(pack, c, list, k))
    } else {
        stored(last)
    }
}

// Of a match: its examinee, then of each arm its guard, if it has one, and its body.
#[tactic(auto, unfolding(crate::specs::Kids::arm_kid, laws::specs::Choice::pick))]
fn arm_kid(pack: &[u8], c: Counts, examinee: u32, arms: u32, k: u32) -> Option<u32>
    requires { k < most }
    ensures { option_to_list result ≡ arm_kid pack.now c examinee arms k }
{
    if k == 0 {
        return Some(examinee);
    }
    let j = k - 1;
    if j % 2 == 0 {
        stored(list_item(pack, c, arms, 4 * (j / 2) + 2))
    } else {
        Some(list_item(pack, c, arms, 4 * (j / 2) + 3))
    }
}

#[tactic(auto, unfolding(crate::specs::Kids::first_or, laws::specs::Choice::pick))]
fn first_or(first: u32, second: u32, k: u32) -> u32
    ensures { result ≡ first_or first second k }
{
    if k == 0 { first } else { second }
}

// The child at place k.
#[tactic(auto, unfolding(crate::specs::Kids::kid_at, laws::specs::Choice::by_kind))]
pub fn kid_at(pack: &[u8], c: Counts, row: ExpressionRow, k: u32) -> Option<u32>
    requires { k < most }
    ensures { option_to_list result ≡ kid_at pack.now c row k }
{
    match NodeKind::try_from(row.kind) {
        Ok(NodeKind::Literal) => None,
        Ok(NodeKind::Slot) => None,
        Ok(NodeKind::Block) => block_kid(pack, c, row.a, row.b, k),
        Ok(NodeKind::Let) => Some(row.b),
        Ok(NodeKind::Match) => arm_kid(pack, c, row.a, row.b, k),
        Ok(NodeKind::Operator) => Some(first_or(row.a, row.b, k)),
        Ok(NodeKind::Record) => Some(list_item(pack, c, row.b, 2 * k + 1)),
        Ok(NodeKind::Field) => Some(row.a),
        Ok(NodeKind::Return) => stored(row.a),
        Err(_) => None,
    }
}
