// The words of the nodes of a tree, each type resolved once the whole root is checked. What was noted of a node is cleared with its word, so
// that the notes can serve the next root.
ghost use Rattle.std.specs.Prelude.{◌≡◌};
ghost use Rattle.report.specs.Visits.{tree_of};
ghost use Rattle.report.specs.Report.{rep, write_one, write_all, kids_trees, reported, Held, Wrote};

use crate::kids::{kid_at, kids_room};
use pack::{Counts, ExpressionRow, expression_row};
use unionfind::{UnionFind, unset_cells};
use words::{Notes, note_at, put_note, write_node};

// One node.
fn write_one(
    cells: &mut [u32; UnionFind::CAPACITY],
    n: u32,
    notes: &mut [u32; Notes::CAPACITY],
    id: u32,
    area: &mut [u8],
)
    requires { Held n cells.old notes.old }
    ensures { Wrote n (write_one id (rep cells.old notes.old area.old)) cells.new notes.new area.new }
{
    if 4 * (id as usize) + 4 <= area.len() {
        let note = note_at(notes, id);
        write_node(cells, n, note, id, area);
        put_note(notes, id, 0);
    }
}

// The trees of a row's children, so many levels.
#[cycle(tree)]
fn write_kids(
    pack: &[u8],
    c: Counts,
    cells: &mut [u32; UnionFind::CAPACITY],
    n: u32,
    notes: &mut [u32; Notes::CAPACITY],
    area: &mut [u8],
    depth: u32,
    row: ExpressionRow,
)
    requires { Held n cells.old notes.old }
    ensures { Wrote n (write_all (kids_trees depth pack.now c row) (rep cells.old notes.old area.old)) cells.new notes.new area.new }
{
    for k in 0..kids_room(pack, c, row) {
        if let Some(x) = kid_at(pack, c, row, k) {
            write_tree(pack, c, cells, n, notes, area, depth, x);
        }
    }
}

// A node, then the trees of its children, so many levels.
#[cycle(tree)]
fn write_tree(
    pack: &[u8],
    c: Counts,
    cells: &mut [u32; UnionFind::CAPACITY],
    n: u32,
    notes: &mut [u32; Notes::CAPACITY],
    area: &mut [u8],
    depth: u32,
    id: u32,
)
    requires { Held n cells.old notes.old }
    ensures { Wrote n (write_all (tree_of depth pack.now c id) (rep cells.old notes.old area.old)) cells.new notes.new area.new }
{
    if depth == 0 {
        return;
    }
    write_one(cells, n, notes, id, area);
    let row = expression_row(pack, c, id);
    write_kids(pack, c, cells, n, notes, area, depth - 1, row);
}

// The report of a root, so many levels from id down: the words of its nodes. Notes and cells are left as the next root wants them.
pub fn write_root(
    pack: &[u8],
    c: Counts,
    cells: &mut [u32; UnionFind::CAPACITY],
    n: u32,
    notes: &mut [u32; Notes::CAPACITY],
    area: &mut [u8],
    depth: u32,
    id: u32,
)
    requires { Held n cells.old notes.old }
    ensures { rep cells.new notes.new area.new ≡ reported (write_all (tree_of depth pack.now c id) (rep cells.old notes.old area.old)) }
{
    write_tree(pack, c, cells, n, notes, area, depth, id);
    unset_cells(cells, n);
}
