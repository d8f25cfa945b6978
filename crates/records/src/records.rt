// A record expression: the fields that it names against those of its definition.
ghost use Rattle.std.specs.Prelude.{◌≡◌, ◌<◌};
ghost use Rattle.names.specs.Index.{Indexed};
ghost use Rattle.records.specs.Record.{strangers as strangers_in, is_plain_record, invalid_fields, named_before, duplicate_fields, missing_fields, counted_fault, marked_fault, fields_fault, record_fault};

use crate::answer::RecordFault;
use laws::Fault;
use members::{any_field_marked, is_member, name_at};
use names::{NameIndex, find_pair};
use pack::{Counts, DefinitionKind, DefinitionRow, definition_row, list_len};
use structure::TypeTable;

// How many names of the given pairs are none of the list's.
fn strangers(
    pack: &[u8],
    c: Counts,
    names: &[u16; NameIndex::CAPACITY],
    list: u32,
    given: u32,
) -> u32
    requires { Indexed pack.now c names.now }
    ensures { result ≡ strangers_in pack.now c list given }
{
    (0..list_len(pack, c, given))
        .filter(|j| !is_member(pack, c, names, list, name_at(pack, c, given, *j)))
        .count() as u32
}

// How many of the fields as written name no member.
#[tactic(auto, unfolding(crate::specs::Record::invalid_fields))]
pub fn invalid_fields(
    pack: &[u8],
    c: Counts,
    names: &[u16; NameIndex::CAPACITY],
    list: u32,
    fields: u32,
) -> u32
    requires { Indexed pack.now c names.now }
    ensures { result ≡ invalid_fields pack.now c list fields }
{
    strangers(pack, c, names, list, fields)
}

// How many members are never named: the same count, of the other list.
#[tactic(auto, unfolding(crate::specs::Record::missing_fields))]
pub fn missing_fields(
    pack: &[u8],
    c: Counts,
    names: &[u16; NameIndex::CAPACITY],
    list: u32,
    fields: u32,
) -> u32
    requires { Indexed pack.now c names.now }
    ensures { result ≡ missing_fields pack.now c list fields }
{
    strangers(pack, c, names, fields, list)
}

// Whether field j as written names what one before it named.
#[tactic(auto, unfolding(crate::specs::Record::named_before))]
fn named_before(
    pack: &[u8],
    c: Counts,
    names: &[u16; NameIndex::CAPACITY],
    fields: u32,
    j: u32,
) -> bool
    requires { Indexed pack.now c names.now × (j < 65536) }
    ensures { result ≡ named_before pack.now c fields j }
{
    let name = name_at(pack, c, fields, j);
    find_pair(pack, c, names, fields, name) < j
}

// How many of the fields as written name a member again.
pub fn duplicate_fields(
    pack: &[u8],
    c: Counts,
    names: &[u16; NameIndex::CAPACITY],
    list: u32,
    fields: u32,
) -> u32
    requires { Indexed pack.now c names.now }
    ensures { result ≡ duplicate_fields pack.now c list fields }
{
    (0..list_len(pack, c, fields))
        .filter(|j| {
            is_member(pack, c, names, list, name_at(pack, c, fields, *j))
                && named_before(pack, c, names, fields, *j)
        })
        .count() as u32
}

// 31 with its detail, or what follows.
#[tactic(auto, unfolding(crate::specs::Record::counted_fault, laws::specs::Choice::pick))]
fn counted_fault(
    invalid: u32,
    duplicate: u32,
    missing: u32,
    rest: Option<RecordFault>,
) -> Option<RecordFault>
    ensures { result ≡ counted_fault invalid duplicate missing rest }
{
    if invalid == 0 && duplicate == 0 && missing == 0 {
        rest
    } else {
        Some(RecordFault {
            fault: Fault::WrongFields,
            detail: (invalid as u64) * 268435456 + (duplicate as u64) * 16384 + (missing as u64),
        })
    }
}

// 35: a field's type is not fully known.
#[tactic(auto, unfolding(laws::specs::Choice::pick))]
fn marked_fault(
    pack: &[u8],
    c: Counts,
    marks: &[u32; TypeTable::CAPACITY],
    list: u32,
) -> Option<RecordFault>
    ensures { result ≡ marked_fault pack.now c marks.now list }
{
    if any_field_marked(pack, c, marks, list) {
        Some(RecordFault {
            fault: Fault::HoldsVariable,
            detail: 0,
        })
    } else {
        None
    }
}

// 31, then 35.
#[tactic(auto, unfolding(crate::specs::Record::fields_fault))]
fn fields_fault(
    pack: &[u8],
    c: Counts,
    names: &[u16; NameIndex::CAPACITY],
    marks: &[u32; TypeTable::CAPACITY],
    list: u32,
    fields: u32,
) -> Option<RecordFault>
    requires { Indexed pack.now c names.now }
    ensures { result ≡ fields_fault pack.now c marks.now list fields }
{
    let invalid = invalid_fields(pack, c, names, list, fields);
    let duplicate = duplicate_fields(pack, c, names, list, fields);
    let missing = missing_fields(pack, c, names, list, fields);
    let held = marked_fault(pack, c, marks, list);
    counted_fault(invalid, duplicate, missing, held)
}

#[tactic(auto, unfolding(crate::specs::Record::is_plain_record))]
fn is_plain_record(row: DefinitionRow) -> bool
    ensures { result ≡ is_plain_record row }
{
    row.kind == DefinitionKind::Record as u32 && row.parameters == 0
}

// The first fault of a record of definition d, with these fields as written, if it has one: 36, 31, 35.
#[tactic(auto, unfolding(crate::specs::Record::record_fault, laws::specs::Choice::pick))]
pub fn record_fault(
    pack: &[u8],
    c: Counts,
    names: &[u16; NameIndex::CAPACITY],
    marks: &[u32; TypeTable::CAPACITY],
    d: u32,
    fields: u32,
) -> Option<RecordFault>
    requires { Indexed pack.now c names.now }
    ensures { result ≡ record_fault pack.now c marks.now d fields }
{
    let row = definition_row(pack, c, d);
    if is_plain_record(row) {
        fields_fault(pack, c, names, marks, row.list, fields)
    } else {
        Some(RecordFault {
            fault: Fault::NotPlain,
            detail: 0,
        })
    }
}
