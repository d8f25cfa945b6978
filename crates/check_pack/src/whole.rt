// A pack asked all that the entries ask, its rows checked and numbered and its names put in order once: how far it comes, and the refusal where it stops.
ghost use Rattle.std.specs.Prelude.{◌≡◌, ◌≤◌, length, Ok};
ghost use Rattle.formed.specs.Formed.{formed_of};
ghost use Rattle.value_cycle.specs.Area.{Orders};
ghost use Rattle.value_cycle.specs.Order.{order_of};
ghost use Rattle.check_pack.specs.Whole.{whole, order_part, roots_answer, roots_part, whole_of};

use entries::check_types;
use expr::check_root;
use laws::Refusal;
use names::{NameIndex, fill_names};
use pack::Counts;
use structure::number_rows;
use unionfind::UnionFind;
use value_cycle::find_compilation_order;
use words::Notes;

// The bytes that the longest order takes.
pub const AREA: usize = 2048;

// The bytes that the words of the most expressions take.
const WORDS: usize = 16384;

// The parts that passed, and the refusal of the one that did not.
#[derive(Clone, Copy)]
pub enum Verdict {
    // No part passed.
    NoTypes(Refusal),
    // The types passed, and all roots before the one that did not.
    NoRoot(Refusal),
    // The types and all roots passed.
    NoOrder(Counts, Refusal),
    // All passed, and the area has the order.
    Passed(Counts),
}

// The order of a pack whose types and roots passed.
fn check_order(pack: &[u8], c: Counts, area: &mut [u8]) -> Verdict
    requires { Orders pack.now c area.old }
    ensures { whole result area.new ≡ order_part c (order_of pack.now c area.old) }
{
    match find_compilation_order(pack, c, area) {
        Ok(()) => Verdict::Passed(c),
        Err(r) => Verdict::NoOrder(c, r),
    }
}

// All roots of a well-formed pack, rising.
fn check_roots(pack: &[u8], c: Counts) -> Result<(), Refusal>
    requires { formed_of pack.now ≡ Ok c }
    ensures { result ≡ roots_answer pack.now c }
{
    let table = number_rows(pack, c);
    let same = table.same;
    let marks = table.marks;
    let mut index = NameIndex::empty();
    fill_names(pack, c, &mut index.table);
    let mut cells = UnionFind::empty().cells;
    let mut notes = Notes::empty().notes;
    let mut words = [0u8; WORDS];
    for i in 0..c.roots {
        check_root(
            pack,
            c,
            &index.table,
            &same,
            &marks,
            &mut cells,
            &mut notes,
            i,
            &mut words,
        )?;
    }
    Ok(())
}

// What follows the types.
fn check_rest(pack: &[u8], c: Counts, area: &mut [u8]) -> Verdict
    requires { (formed_of pack.now ≡ Ok c) × (2048 ≤ length area.old) }
    ensures { whole result area.new ≡ roots_part pack.now c area.old }
{
    match check_roots(pack, c) {
        Ok(()) => check_order(pack, c, area),
        Err(r) => Verdict::NoRoot(r),
    }
}

pub fn check_whole(pack: &[u8], area: &mut [u8]) -> Verdict
    requires { 2048 ≤ length area.old }
    ensures { whole result area.new ≡ whole_of pack.now area.old }
{
    match check_types(pack) {
        Ok(c) => check_rest(pack, c, area),
        Err(r) => Verdict::NoTypes(r),
    }
}
