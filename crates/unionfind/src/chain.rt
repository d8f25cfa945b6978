// Chains of links: what a variable resolves to, and which cells are passed on the way.
ghost use Rattle.std.specs.Prelude.{◌≡◌, ◌<◌};
ghost use Rattle.unionfind.specs.Cells.{capacity, is_link, trail, among, found, LoopFree};
ghost use Rattle.unionfind.specs.Answers.{Finds};

use crate::cells::UnionFind;
use crate::codes::{is_var, number_of};

// Whether the cell v, which holds x, links to another.
pub fn is_link(v: u32, x: u32) -> bool
    ensures { result ≡ is_link v x }
{
    if is_var(x) { number_of(x) != v } else { false }
}

// What the variable v resolves to; every cell passed is set to it on the way out.
pub fn find(cells: &mut [u32; UnionFind::CAPACITY], v: u32) -> u32
    requires { (v < capacity) × LoopFree cells.old }
    ensures { Finds cells.old v result cells.new }
{
    let x = cells[v as usize];
    if is_link(v, x) {
        let root = find(cells, number_of(x));
        cells[v as usize] = root;
        root
    } else {
        x
    }
}

// The same, and no cell changes.
pub fn find_ref(cells: &[u32; UnionFind::CAPACITY], v: u32) -> u32
    requires { (v < capacity) × LoopFree cells.now }
    ensures { result ≡ found cells.now v }
{
    let x = cells[v as usize];
    if is_link(v, x) {
        find_ref(cells, number_of(x))
    } else {
        x
    }
}

// Whether the chain from w on passes through v.
pub fn passes(cells: &[u32; UnionFind::CAPACITY], w: u32, v: u32) -> bool
    requires { (w < capacity) × LoopFree cells.now }
    ensures { result ≡ among v (trail cells.now w) }
{
    if w == v {
        return true;
    }
    let x = cells[w as usize];
    if is_link(w, x) {
        passes(cells, number_of(x), v)
    } else {
        false
    }
}
