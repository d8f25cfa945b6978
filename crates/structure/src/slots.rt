// The list of a type row, named by its slot: twice its start, and one more where it is a list of pairs. A slot is a place in the array of rows
// that have each list, and a sort one in the array of roots, so each is one number.
ghost use Rattle.std.specs.Prelude.{◌≡◌, ◌<◌};
ghost use Rattle.laws.specs.Bounded.{Reads};
ghost use Rattle.pack.specs.Rows.{type_row};
ghost use Rattle.structure.specs.Lists.{slot_of, sort_of, of_pairs, len_at, name_at, part_at};

use pack::{Counts, TypeKind, list_item, list_len, type_row};

// The slot of rows that have no list.
const NO_LIST: u32 = 32768;

#[tactic(auto, using(crate::proofs::Reading::row_small), unfolding(crate::specs::Lists::slot_of, crate::specs::Lists::listed, crate::specs::Structure::paired, laws::specs::Choice::pick))]
pub fn slot_at(pack: &[u8], i: u32) -> u32
    ensures { Reads result (slot_of (type_row pack.now i)) 32769 }
{
    let row = type_row(pack, i);
    let kind = row.kind;
    if kind == TypeKind::Record as u32 || kind == TypeKind::RecordVar as u32 {
        2 * row.b + 1
    } else if kind == TypeKind::Named as u32 || kind == TypeKind::Function as u32 {
        2 * row.b
    } else {
        NO_LIST
    }
}

#[tactic(auto, unfolding(crate::specs::Lists::len_at, laws::specs::Choice::pick))]
pub fn len_at(pack: &[u8], c: Counts, s: u32) -> u32
    ensures { Reads result (len_at pack.now c s) 65536 }
{
    if s < NO_LIST {
        list_len(pack, c, s / 2)
    } else {
        0
    }
}

// A list's length, and whether it is one of pairs.
#[tactic(auto, unfolding(crate::specs::Lists::sort_of))]
pub fn sort_at(pack: &[u8], c: Counts, s: u32) -> u32
    ensures { Reads result (sort_of pack.now c s) 131072 }
{
    2 * len_at(pack, c, s) + s % 2
}

#[tactic(auto, unfolding(crate::specs::Lists::of_pairs))]
fn of_pairs(s: u32) -> bool
    ensures { result ≡ of_pairs s }
{
    s % 2 == 1
}

// Of item m: its name, 0 where the list has none.
#[tactic(auto, unfolding(crate::specs::Lists::name_at, laws::specs::Choice::pick))]
pub fn name_at(pack: &[u8], c: Counts, s: u32, m: u32) -> u32
    requires { m < 65536 }
    ensures { Reads result (name_at pack.now c s m) 65536 }
{
    if of_pairs(s) {
        list_item(pack, c, s / 2, 2 * m)
    } else {
        0
    }
}

// Of item m: its type.
#[tactic(auto, unfolding(crate::specs::Lists::part_at, laws::specs::Choice::pick))]
pub fn part_at(pack: &[u8], c: Counts, s: u32, m: u32) -> u32
    requires { m < 65536 }
    ensures { Reads result (part_at pack.now c s m) 65536 }
{
    if of_pairs(s) {
        list_item(pack, c, s / 2, 2 * m + 1)
    } else {
        list_item(pack, c, s / 2, m)
    }
}
