// The type table: 11 kinds.
ghost use Rattle.std.specs.Prelude.{◌≡◌, true};
ghost use Rattle.lists.specs.Peaks.{Peaks as PeaksOf};
ghost use Rattle.rows.specs.Types.{primitive, type_known, named_fits, type_in_range, type_distinct, type_rule};

use crate::faults::fault_of;
use laws::Fault;
use lists::{EXPLICITS, Items, NAMES, Peaks, VARIABLES, items_fit, names_differ};
use pack::{Counts, TypeKind, TypeRow, definition_row, list_len, type_row};

#[tactic(auto, unfolding(crate::specs::Types::primitive))]
fn is_primitive(a: u32) -> bool
    ensures { result ≡ primitive a }
{
    a <= 5 || (8 <= a && a <= 17)
}

#[tactic(auto, unfolding(crate::specs::Types::type_known, laws::specs::Choice::by_kind))]
fn type_known(r: TypeRow) -> bool
    ensures { result ≡ type_known r }
{
    match TypeKind::try_from(r.kind) {
        Ok(TypeKind::Never) => r.a == 0 && r.b == 0,
        Ok(TypeKind::Unit) => r.a == 0 && r.b == 0,
        Ok(TypeKind::Primitive) => is_primitive(r.a) && r.b == 0,
        Ok(TypeKind::Explicit) => r.b == 0,
        Ok(TypeKind::Named) => true,
        Ok(TypeKind::Record) => r.a == 0,
        Ok(TypeKind::Function) => true,
        Ok(TypeKind::Var) => r.b == 0,
        Ok(TypeKind::IntVar) => r.b == 0,
        Ok(TypeKind::FloatVar) => r.b == 0,
        Ok(TypeKind::RecordVar) => true,
        Err(_) => false,
    }
}

#[tactic(auto, unfolding(crate::specs::Types::named_fits))]
fn named_fits(
    pack: &[u8],
    c: Counts,
    i: u32,
    a: u32,
    b: u32,
    peaks: &[u16; Peaks::CAPACITY],
) -> bool
    requires { PeaksOf pack.now c peaks.now }
    ensures { result ≡ named_fits pack.now c i a b }
{
    let known = a < c.definitions;
    let fit = items_fit(pack, c, Items::Ids(i), b, peaks);
    let d = definition_row(pack, c, a);
    let as_many = list_len(pack, c, b) == d.parameters;
    known && fit && as_many
}

#[tactic(auto, unfolding(crate::specs::Types::type_in_range, laws::specs::Choice::by_kind))]
fn type_in_range(pack: &[u8], c: Counts, i: u32, r: TypeRow, peaks: &[u16; Peaks::CAPACITY]) -> bool
    requires { PeaksOf pack.now c peaks.now }
    ensures { result ≡ type_in_range pack.now c i r }
{
    match TypeKind::try_from(r.kind) {
        Ok(TypeKind::Never) => true,
        Ok(TypeKind::Unit) => true,
        Ok(TypeKind::Primitive) => true,
        Ok(TypeKind::Explicit) => r.a < EXPLICITS,
        Ok(TypeKind::Named) => named_fits(pack, c, i, r.a, r.b, peaks),
        Ok(TypeKind::Record) => items_fit(pack, c, Items::Pairs(NAMES, i), r.b, peaks),
        Ok(TypeKind::Function) => r.a < i && items_fit(pack, c, Items::Ids(i), r.b, peaks),
        Ok(TypeKind::Var) => r.a < VARIABLES,
        Ok(TypeKind::IntVar) => r.a < VARIABLES,
        Ok(TypeKind::FloatVar) => r.a < VARIABLES,
        Ok(TypeKind::RecordVar) => {
            r.a < VARIABLES && items_fit(pack, c, Items::Pairs(NAMES, i), r.b, peaks)
        },
        _ => true,
    }
}

// Asked of a row in range.
#[tactic(auto, unfolding(crate::specs::Types::type_distinct, laws::specs::Choice::pick))]
fn type_distinct(pack: &[u8], c: Counts, i: u32, r: TypeRow, peaks: &[u16; Peaks::CAPACITY]) -> bool
    requires { PeaksOf pack.now c peaks.now }
    ensures { type_in_range pack.now c i r ≡ true → result ≡ type_distinct pack.now c r }
{
    match TypeKind::try_from(r.kind) {
        Ok(TypeKind::Record) => names_differ(pack, c, r.b, peaks),
        Ok(TypeKind::RecordVar) => names_differ(pack, c, r.b, peaks),
        _ => true,
    }
}

// The first fault of type row i, if it has one.
pub fn type_rule(pack: &[u8], c: Counts, i: u32, peaks: &[u16; Peaks::CAPACITY]) -> Option<Fault>
    requires { PeaksOf pack.now c peaks.now }
    ensures { result ≡ type_rule pack.now c i }
{
    let row = type_row(pack, i);
    let known = type_known(row);
    let ranged = type_in_range(pack, c, i, row, peaks);
    let distinct = type_distinct(pack, c, i, row, peaks);
    fault_of(known, ranged, distinct)
}
