// The code of a type row.
ghost use Rattle.std.specs.Prelude.{◌≡◌, ◌<◌};
ghost use Rattle.laws.specs.Bounded.{Reads};
ghost use Rattle.pack.specs.Rows.{type_row};
ghost use Rattle.unionfind.specs.Codes.{numbers};
ghost use Rattle.structure.specs.Structure.{number_of};
ghost use Rattle.structure.specs.Types.{var_code, plain_code, is_bare, code_in, holds_var};

use crate::rows::row_number;
use crate::table::{TypeTable, entry_at};
use pack::{Counts, TypeKind, list_len, type_row};
use unionfind::{Tag, code_of, number_of, tag_of};

#[tactic(auto, unfolding(crate::specs::Types::var_code, laws::specs::Choice::pick))]
fn var_code(kind: u32, number: u32, other: u32) -> u32
    requires { number < numbers }
    ensures { result ≡ var_code kind number other }
{
    match TypeKind::try_from(kind) {
        Ok(TypeKind::Var) => code_of(Tag::VAR, number),
        Ok(TypeKind::IntVar) => code_of(Tag::INT_VAR, number),
        Ok(TypeKind::FloatVar) => code_of(Tag::FLOAT_VAR, number),
        _ => other,
    }
}

#[tactic(auto, unfolding(crate::specs::Types::plain_code, laws::specs::Choice::pick))]
fn plain_code(kind: u32, number: u32, bare: bool, other: u32) -> u32
    requires { number < numbers }
    ensures { result ≡ plain_code kind number bare other }
{
    match TypeKind::try_from(kind) {
        Ok(TypeKind::Never) => code_of(Tag::NEVER, 0),
        Ok(TypeKind::Unit) => code_of(Tag::UNIT, 0),
        Ok(TypeKind::Primitive) => code_of(Tag::PRIMITIVE, number),
        _ if bare => code_of(Tag::DEFINITION, number),
        _ => other,
    }
}

#[tactic(auto, unfolding(crate::specs::Types::is_bare))]
fn is_bare(pack: &[u8], c: Counts, i: u32) -> bool
    ensures { result ≡ is_bare pack.now c (type_row pack.now i) }
{
    let row = type_row(pack, i);
    row.kind == TypeKind::Named as u32 && list_len(pack, c, row.b) == 0
}

#[tactic(auto, using(crate::proofs::Reading::number_of_small))]
fn number_at(pack: &[u8], i: u32) -> u32
    ensures { Reads result (number_of (type_row pack.now i)) numbers }
{
    row_number(type_row(pack, i))
}

// The code of type row i, from the table of structures; never past the rows.
#[tactic(auto, unfolding(crate::specs::Types::code_in, crate::specs::Types::code_for, laws::specs::Choice::pick))]
pub fn type_code(pack: &[u8], c: Counts, same: &[u32; TypeTable::CAPACITY], i: u32) -> u32
    ensures { result ≡ code_in pack.now c same.now i }
{
    if i < c.types {
        let row = type_row(pack, i);
        let number = number_at(pack, i);
        let other = code_of(Tag::ROW, entry_at(same, i) % Tag::NUMBERS);
        let var = var_code(row.kind, number, other);
        plain_code(row.kind, number, is_bare(pack, c, i), var)
    } else {
        code_of(Tag::NEVER, 0)
    }
}

// Whether a type is a row that holds a variable.
#[tactic(auto, unfolding(crate::specs::Types::holds_var))]
pub fn holds_var(marks: &[u32; TypeTable::CAPACITY], x: u32) -> bool
    ensures { result ≡ holds_var marks.now x }
{
    tag_of(x) == Tag::ROW && entry_at(marks, number_of(x)) != 0
}
