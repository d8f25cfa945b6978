// A field of a resolved type: its type, or why there is none.
ghost use Rattle.std.specs.Prelude.{◌≡◌};
ghost use Rattle.names.specs.Index.{Indexed};
ghost use Rattle.members.specs.Field.{field_in, field_of_definition, field_of_type, accessed_by};

use crate::marks::is_marked;
use crate::types::{is_row, named};
use laws::Fault;
use names::{NameIndex, find_pair};
use pack::{
    Counts, DefinitionKind, DefinitionRow, TypeKind, definition_row, list_item, list_len, type_row,
};
use structure::TypeTable;
use unionfind::number_of;

// By name in a list of names and types: 32, 35.
#[tactic(auto, unfolding(crate::specs::Field::field_in, crate::specs::Lookup::is_member, crate::specs::Lookup::member_of, laws::specs::Choice::pick))]
fn field_in(
    pack: &[u8],
    c: Counts,
    names: &[u16; NameIndex::CAPACITY],
    marks: &[u32; TypeTable::CAPACITY],
    list: u32,
    name: u32,
) -> Result<u32, Fault>
    requires { Indexed pack.now c names.now }
    ensures { result ≡ field_in pack.now c marks.now list name }
{
    let n = list_len(pack, c, list);
    let k = find_pair(pack, c, names, list, name);
    if k < n {
        let field = list_item(pack, c, list, 2 * k + 1);
        if is_marked(marks, field) {
            Err(Fault::HoldsVariable)
        } else {
            Ok(field)
        }
    } else {
        Err(Fault::NoSuchField)
    }
}

// Of a named type: 36, then by name.
#[tactic(auto, unfolding(crate::specs::Field::field_of_definition, laws::specs::Choice::pick))]
fn field_of_definition(
    pack: &[u8],
    c: Counts,
    names: &[u16; NameIndex::CAPACITY],
    marks: &[u32; TypeTable::CAPACITY],
    name: u32,
    row: DefinitionRow,
) -> Result<u32, Fault>
    requires { Indexed pack.now c names.now }
    ensures { result ≡ field_of_definition pack.now c marks.now name row }
{
    if row.parameters == 0 {
        if row.kind == DefinitionKind::Record as u32 {
            field_in(pack, c, names, marks, row.list, name)
        } else {
            Err(Fault::NoSuchField)
        }
    } else {
        Err(Fault::NotPlain)
    }
}

// Of a type that is no named one: a record type has fields.
#[tactic(auto, unfolding(crate::specs::Field::field_of_type, laws::specs::Choice::pick))]
fn field_of_type(
    pack: &[u8],
    c: Counts,
    names: &[u16; NameIndex::CAPACITY],
    marks: &[u32; TypeTable::CAPACITY],
    name: u32,
    x: u32,
) -> Result<u32, Fault>
    requires { Indexed pack.now c names.now }
    ensures { result ≡ field_of_type pack.now c marks.now name x }
{
    if is_row(pack, TypeKind::Record, x) {
        let row = type_row(pack, number_of(x));
        field_in(pack, c, names, marks, row.b, name)
    } else {
        Err(Fault::NoSuchField)
    }
}

// The field of that name of a resolved type.
#[tactic(auto, unfolding(crate::specs::Field::accessed_by))]
pub fn accessed(
    pack: &[u8],
    c: Counts,
    names: &[u16; NameIndex::CAPACITY],
    marks: &[u32; TypeTable::CAPACITY],
    x: u32,
    name: u32,
) -> Result<u32, Fault>
    requires { Indexed pack.now c names.now }
    ensures { result ≡ accessed_by pack.now c marks.now x name }
{
    match named(pack, x) {
        None => field_of_type(pack, c, names, marks, name, x),
        Some(definition) => {
            let row = definition_row(pack, c, definition);
            field_of_definition(pack, c, names, marks, name, row)
        }
    }
}
