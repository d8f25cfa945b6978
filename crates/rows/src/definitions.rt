// The definition table: enums, records, runtime types and lists.
ghost use Rattle.std.specs.Prelude.{◌≡◌, true};
ghost use Rattle.lists.specs.Peaks.{Peaks as PeaksOf};
ghost use Rattle.rows.specs.Definitions.{definition_kind, definition_known, definition_in_range, definition_distinct, definition_rule};

use crate::faults::fault_of;
use laws::Fault;
use lists::{Items, NAMES, Peaks, items_fit, names_differ};
use pack::{Counts, DefinitionKind, DefinitionRow, definition_row};

#[tactic(auto, unfolding(crate::specs::Definitions::definition_kind, laws::specs::Choice::by_kind))]
fn definition_kind(r: DefinitionRow) -> bool
    ensures { result ≡ definition_kind r }
{
    match DefinitionKind::try_from(r.kind) {
        Ok(DefinitionKind::Enum) => true,
        Ok(DefinitionKind::Record) => true,
        Ok(DefinitionKind::Runtime) => r.list == 0,
        Ok(DefinitionKind::List) => r.list == 0,
        Err(_) => false,
    }
}

#[tactic(auto, unfolding(crate::specs::Definitions::definition_known))]
fn definition_known(r: DefinitionRow) -> bool
    ensures { result ≡ definition_known r }
{
    r.zero == 0 && definition_kind(r)
}

#[tactic(auto, unfolding(crate::specs::Definitions::definition_in_range, laws::specs::Choice::by_kind))]
fn definition_in_range(
    pack: &[u8],
    c: Counts,
    r: DefinitionRow,
    peaks: &[u16; Peaks::CAPACITY],
) -> bool
    requires { PeaksOf pack.now c peaks.now }
    ensures { result ≡ definition_in_range pack.now c r }
{
    let types = c.types;
    match DefinitionKind::try_from(r.kind) {
        Ok(DefinitionKind::Enum) => items_fit(pack, c, Items::Variants, r.list, peaks),
        Ok(DefinitionKind::Record) => items_fit(pack, c, Items::Pairs(NAMES, types), r.list, peaks),
        _ => true,
    }
}

// Asked of a row in range.
#[tactic(auto, unfolding(crate::specs::Definitions::definition_distinct, laws::specs::Choice::by_kind))]
fn definition_distinct(
    pack: &[u8],
    c: Counts,
    r: DefinitionRow,
    peaks: &[u16; Peaks::CAPACITY],
) -> bool
    requires { PeaksOf pack.now c peaks.now }
    ensures { definition_in_range pack.now c r ≡ true → result ≡ definition_distinct pack.now c r }
{
    match DefinitionKind::try_from(r.kind) {
        Ok(DefinitionKind::Enum) => names_differ(pack, c, r.list, peaks),
        Ok(DefinitionKind::Record) => names_differ(pack, c, r.list, peaks),
        _ => true,
    }
}

// The first fault of definition row i, if it has one.
pub fn definition_rule(
    pack: &[u8],
    c: Counts,
    i: u32,
    peaks: &[u16; Peaks::CAPACITY],
) -> Option<Fault>
    requires { PeaksOf pack.now c peaks.now }
    ensures { result ≡ definition_rule pack.now c i }
{
    let row = definition_row(pack, c, i);
    let known = definition_known(row);
    let ranged = definition_in_range(pack, c, row, peaks);
    let distinct = definition_distinct(pack, c, row, peaks);
    fault_of(known, ranged, distinct)
}
