// The rows of the five tables, each taken apart into its fields, most significant first.
ghost use Rattle.std.specs.Prelude.{◌≡◌};
ghost use Rattle.pack.specs.Rows.{type_row, definition_row, expression_row, root_row, value_row};

use crate::bytes::{row_32, row_64};
use crate::counts::{Counts, definitions_at, expressions_at, roots_at, values_at};

#[derive(Clone, Copy)]
pub struct TypeRow {
    pub kind: u32,
    pub a: u32,
    pub b: u32,
}

#[derive(Clone, Copy)]
pub struct DefinitionRow {
    pub kind: u32,
    pub parameters: u32,
    pub zero: u32,
    pub list: u32,
}

#[derive(Clone, Copy)]
pub struct ExpressionRow {
    pub kind: u32,
    pub op: u32,
    pub a: u32,
    pub b: u32,
    pub c: u32,
    pub zero: u32,
}

#[derive(Clone, Copy)]
pub struct RootRow {
    pub body: u32,
    pub returns: u32,
    pub list: u32,
    pub zero: u32,
}

#[derive(Clone, Copy)]
pub struct ValueRow {
    pub kind: u32,
    pub zero: u32,
    pub list: u32,
}

pub fn type_row(pack: &[u8], i: u32) -> TypeRow
    ensures { result ≡ type_row pack.now i }
{
    let row = row_32(pack, 16 + 4 * (i as usize));
    TypeRow {
        kind: row / 268435456 % 16,
        a: row / 16384 % 16384,
        b: row % 16384,
    }
}

pub fn definition_row(pack: &[u8], c: Counts, i: u32) -> DefinitionRow
    ensures { result ≡ definition_row pack.now c i }
{
    let row = row_32(pack, definitions_at(c) + 4 * (i as usize));
    DefinitionRow {
        kind: row / 1073741824 % 4,
        parameters: row / 67108864 % 16,
        zero: row / 16384 % 4096,
        list: row % 16384,
    }
}

pub fn expression_row(pack: &[u8], c: Counts, i: u32) -> ExpressionRow
    ensures { result ≡ expression_row pack.now c i }
{
    let row = row_64(pack, expressions_at(c) + 8 * (i as usize));
    ExpressionRow {
        kind: (row / 288230376151711744 % 64) as u32,
        op: (row / 4503599627370496 % 64) as u32,
        a: (row / 274877906944 % 16384) as u32,
        b: (row / 16777216 % 16384) as u32,
        c: (row / 1024 % 16384) as u32,
        zero: (row % 1024) as u32,
    }
}

pub fn root_row(pack: &[u8], c: Counts, i: u32) -> RootRow
    ensures { result ≡ root_row pack.now c i }
{
    let row = row_64(pack, roots_at(c) + 8 * (i as usize));
    RootRow {
        body: (row / 1125899906842624 % 16384) as u32,
        returns: (row / 68719476736 % 16384) as u32,
        list: (row / 4194304 % 16384) as u32,
        zero: (row % 4194304) as u32,
    }
}

pub fn value_row(pack: &[u8], c: Counts, i: u32) -> ValueRow
    ensures { result ≡ value_row pack.now c i }
{
    let row = row_32(pack, values_at(c) + 4 * (i as usize));
    ValueRow {
        kind: row / 1073741824 % 4,
        zero: row / 16384 % 65536,
        list: row % 16384,
    }
}
