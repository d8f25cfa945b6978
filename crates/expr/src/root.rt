// A root: its parameters and return type, then its body, and what its report writes.
ghost use Rattle.std.specs.Prelude.{◌≡◌, ◌||◌};
ghost use Rattle.pack.specs.Rows.{root_row};
ghost use Rattle.names.specs.Index.{Indexed};
ghost use Rattle.members.specs.Marks.{is_marked, any_field_marked};
ghost use Rattle.expr.specs.Root.{root_answer, root_area, root_cells, root_notes, Blank, Checks};

use crate::state::{Env, State};
use laws::{Fault, Refusal};
use members::{any_field_marked, is_marked};
use names::NameIndex;
use pack::{Counts, RootRow, root_row};
use report::write_root;
use slots::{Slots, open_pairs};
use structure::{TypeTable, type_code};
use unionfind::UnionFind;
use words::Notes;

// How deep a well-formed pack goes.
const DEPTH: u32 = 64;

// Whether a parameter or the return type holds a variable.
fn root_marked(pack: &[u8], c: Counts, marks: &[u32; TypeTable::CAPACITY], row: RootRow) -> bool
    ensures { result ≡ (is_marked marks.now row.returns || any_field_marked pack.now c marks.now row.list) }
{
    is_marked(marks, row.returns) || any_field_marked(pack, c, marks, row.list)
}

// Root `root` of a well-formed pack, whose types are numbered by `number_rows` and whose names are put in order by `fill_names`. Cells and notes
// are lent too, so that a program asks for them once and a root costs what it has.
pub fn check_root(
    pack: &[u8],
    c: Counts,
    names: &[u16; NameIndex::CAPACITY],
    same: &[u32; TypeTable::CAPACITY],
    marks: &[u32; TypeTable::CAPACITY],
    cells: &mut [u32; UnionFind::CAPACITY],
    notes: &mut [u32; Notes::CAPACITY],
    root: u32,
    area: &mut [u8],
) -> Result<(), Refusal>
    requires { Checks pack.now c same.now marks.now root area.old × Indexed pack.now c names.now × Blank cells.old notes.old }
    ensures { ((result ≡ root_answer pack.now c root) × (area.new ≡ root_area pack.now c root area.old))
        × ((cells.new ≡ root_cells pack.now c root) × (notes.new ≡ root_notes pack.now c root)) }
{
    let row = root_row(pack, c, root);
    if root_marked(pack, c, marks, row) {
        return Err(Refusal::at(Fault::HoldsVariable, row.body));
    }
    let mut slots = Slots::empty().slots;
    let ret = type_code(pack, c, same, row.returns);
    if open_pairs(pack, c, same, &mut slots, row.list) {
        let env = Env {
            pack,
            counts: c,
            names,
            same,
            marks,
            ret,
        };
        let mut state = State {
            cells,
            slots: &mut slots,
            notes,
        };
        let o = state.expr(&env, DEPTH, row.body, ret, 0)?;
        write_root(pack, c, cells, o.vars, notes, area, DEPTH, row.body);
        Ok(())
    } else {
        Err(Refusal::at(Fault::SlotBoundBefore, row.body))
    }
}
