// Refusal 35: types whose rows hold a variable, by the marks of the table of structures.
ghost use Rattle.std.specs.Prelude.{◌≡◌};
ghost use Rattle.members.specs.Marks.{is_marked, any_marked, any_field_marked};

use pack::{Counts, list_item, list_len};
use structure::TypeTable;

// Whether type row i holds a variable.
#[tactic(auto, unfolding(crate::specs::Marks::is_marked, laws::specs::Bounded::get, laws::specs::Choice::pick))]
pub fn is_marked(marks: &[u32; TypeTable::CAPACITY], i: u32) -> bool
    ensures { result ≡ is_marked marks.now i }
{
    marks.get(i as usize).is_some_and(|mark| *mark != 0)
}

// Whether one of a list of types does.
pub fn any_marked(pack: &[u8], c: Counts, marks: &[u32; TypeTable::CAPACITY], list: u32) -> bool
    ensures { result ≡ any_marked pack.now c marks.now list }
{
    (0..list_len(pack, c, list)).any(|k| is_marked(marks, list_item(pack, c, list, k)))
}

// Whether one of the types of a list of names and types does.
pub fn any_field_marked(
    pack: &[u8],
    c: Counts,
    marks: &[u32; TypeTable::CAPACITY],
    list: u32,
) -> bool
    ensures { result ≡ any_field_marked pack.now c marks.now list }
{
    (0..list_len(pack, c, list)).any(|k| is_marked(marks, list_item(pack, c, list, 2 * k + 1)))
}
