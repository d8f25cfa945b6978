// A row's key and mark, from the numbers and marks of its parts.
ghost use Rattle.std.specs.Prelude.{◌≡◌};
ghost use Rattle.laws.specs.Bounded.{Reads};
ghost use Rattle.pack.specs.Rows.{type_row};
ghost use Rattle.structure.specs.Structure.{rows, numbered, number_of, is_var_kind};
ghost use Rattle.structure.specs.Table.{entry, first_of, key_of, mark_of, entry_or};

use crate::table::{TypeTable, entry_at};
use pack::{TypeKind, TypeRow, type_row};
use unionfind::Tag;

const ROWS: u32 = 2048;

#[tactic(auto, unfolding(crate::specs::Structure::numbered))]
fn is_numbered(kind: u32) -> bool
    ensures { result ≡ numbered kind }
{
    matches!(
        TypeKind::try_from(kind),
        Ok(
            TypeKind::Primitive
                | TypeKind::Explicit
                | TypeKind::Named
                | TypeKind::Var
                | TypeKind::IntVar
                | TypeKind::FloatVar
                | TypeKind::RecordVar,
        )
    )
}

#[tactic(auto, unfolding(crate::specs::Structure::is_var_kind))]
fn is_var_kind(kind: u32) -> bool
    ensures { result ≡ is_var_kind kind }
{
    matches!(
        TypeKind::try_from(kind),
        Ok(TypeKind::Var | TypeKind::IntVar | TypeKind::FloatVar | TypeKind::RecordVar)
    )
}

#[tactic(auto, unfolding(crate::specs::Structure::number_of, laws::specs::Choice::pick))]
pub fn row_number(row: TypeRow) -> u32
    ensures { result ≡ number_of row }
{
    if is_numbered(row.kind) { row.a } else { 0 }
}

// A row's number, or that of what it returns.
#[tactic(auto, unfolding(crate::specs::Table::first_of, laws::specs::Choice::pick))]
fn first_of(pack: &[u8], same: &[u32; TypeTable::CAPACITY], i: u32) -> u32
    ensures { result ≡ first_of (entry same.now) (type_row pack.now i) }
{
    let row = type_row(pack, i);
    if row.kind == TypeKind::Function as u32 {
        entry_at(same, row.a)
    } else {
        row_number(row)
    }
}

#[tactic(auto, unfolding(pack::specs::Rows::type_row))]
fn kind_at(pack: &[u8], i: u32) -> u32
    ensures { Reads result (type_row pack.now i).kind 16 }
{
    let row = type_row(pack, i);
    row.kind
}

// The key of row i, whose list has that number.
#[tactic(auto, unfolding(crate::specs::Table::key_of))]
pub fn key_at(pack: &[u8], same: &[u32; TypeTable::CAPACITY], i: u32, list: u32) -> u32
    ensures { result ≡ key_of (type_row pack.now i).kind (first_of (entry same.now) (type_row pack.now i)) list }
{
    let kind = kind_at(pack, i);
    let first = first_of(pack, same, i);
    (kind * Tag::NUMBERS + first % Tag::NUMBERS) * ROWS + list % ROWS
}

// What an array has for the row that a search found, or i where it found none.
pub fn entry_or(xs: &[u32; TypeTable::CAPACITY], found: Option<u32>, i: u32) -> u32
    ensures { result ≡ entry_or xs.now found i }
{
    match found {
        Some(row) => entry_at(xs, row),
        None => i,
    }
}

// Whether row i holds a variable, where `held` says so of its list.
#[tactic(auto, unfolding(crate::specs::Table::mark_of))]
pub fn mark_at(pack: &[u8], marks: &[u32; TypeTable::CAPACITY], i: u32, held: bool) -> u32
    ensures { result ≡ mark_of (entry marks.now) (type_row pack.now i) held }
{
    let row = type_row(pack, i);
    let own = is_var_kind(row.kind);
    let returned = row.kind == TypeKind::Function as u32 && entry_at(marks, row.a) != 0;
    u32::from(own || returned || held)
}
