// Codes of types, and variables to try on.
ghost use Rattle.unionfind.specs.Cells.{Live};

use unionfind::{Kind, Tag, UnionFind, code_of, fresh};

// A code, total: the tags and numbers that are asked for are all in range.
fn coded(tag: u32, k: u32) -> u32 {
    code_of(tag % 8, k % Tag::NUMBERS)
}

// The codes of any-variable k, and of the integer and the float variable k.
pub(crate) fn var(k: u32) -> u32 {
    coded(Tag::VAR, k)
}

pub(crate) fn int_var(k: u32) -> u32 {
    coded(Tag::INT_VAR, k)
}

pub(crate) fn float_var(k: u32) -> u32 {
    coded(Tag::FLOAT_VAR, k)
}

// Of never and of unit, and of the primitive, the row and the definition k.
pub(crate) fn never() -> u32 {
    coded(Tag::NEVER, 0)
}

pub(crate) fn unit() -> u32 {
    coded(Tag::UNIT, 0)
}

pub(crate) fn primitive(k: u32) -> u32 {
    coded(Tag::PRIMITIVE, k)
}

pub(crate) fn row(k: u32) -> u32 {
    coded(Tag::ROW, k)
}

pub(crate) fn definition(k: u32) -> u32 {
    coded(Tag::DEFINITION, k)
}

// One variable more; how many are in use then.
pub(crate) fn more(cells: &mut [u32; UnionFind::CAPACITY], n: u32, kind: Kind) -> u32
    requires { Live n cells.old }
    ensures { Live result cells.new }
{
    match fresh(cells, n, kind) {
        Ok(_) => n + 1,
        Err(_) => n,
    }
}

// Up to so many variables of one kind, from none on.
pub(crate) fn fill(cells: &mut [u32; UnionFind::CAPACITY], count: u32) -> u32
    requires { Live 0 cells.old }
    ensures { Live result cells.new }
{
    let mut n: u32 = 0;
    for _ in 0..count {
        n = more(cells, n, Kind::Var);
    }
    n
}

// How many cells hold another code than x.
pub(crate) fn others(cells: &[u32; UnionFind::CAPACITY], x: u32) -> usize {
    cells.iter().filter(|code| **code != x).count()
}

// How many cells differ.
pub(crate) fn changed(
    before: &[u32; UnionFind::CAPACITY],
    after: &[u32; UnionFind::CAPACITY],
) -> usize {
    before.iter().zip(after).filter(|(a, b)| **a != **b).count()
}
