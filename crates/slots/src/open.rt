// Opening slots: one, those of an arm at the types of its variant's fields, those of a root's parameters.
ghost use Rattle.std.specs.Prelude.{◌≡◌, ◌<◌, ◌≤◌};
ghost use Rattle.unionfind.specs.Codes.{codes};
ghost use Rattle.slots.specs.Slots.{unbound, opened, opening, open_each, open_list, open_pairs};

use crate::slots::{Slots, put_slot, slot_at};
use pack::{Counts, list_item, list_len};
use structure::{TypeTable, type_code};

// Opens the slot with the type, unless it was bound before.
#[tactic(auto, unfolding(crate::specs::Slots::opened, laws::specs::Choice::pick))]
pub fn open_slot(slots: &mut [u32; Slots::CAPACITY], a: u32, code: u32) -> bool
    requires { code < codes }
    ensures { (result ≡ unbound slots.old a) × (slots.new ≡ opened slots.old a code) }
{
    if slot_at(slots, a) == Slots::UNBOUND {
        put_slot(slots, a, Slots::OPEN + code);
        true
    } else {
        false
    }
}

// Opens slots one after the other, up to the first that was bound before: the k-th stands at STEP * k in `list`, its type FIRST further on
// than that in `fields`.
fn open_each<const STEP: u32, const FIRST: u32>(
    pack: &[u8],
    c: Counts,
    same: &[u32; TypeTable::CAPACITY],
    slots: &mut [u32; Slots::CAPACITY],
    list: u32,
    fields: u32,
) -> bool
    requires { (STEP ≤ 2) × (FIRST ≤ 1) }
    ensures { opening result slots.new ≡ open_each STEP FIRST pack.now c same.now list fields slots.old }
{
    for k in 0..list_len(pack, c, list) {
        let a = list_item(pack, c, list, STEP * k);
        let code = type_code(pack, c, same, list_item(pack, c, fields, STEP * k + FIRST));
        if !open_slot(slots, a, code) {
            return false;
        }
    }
    true
}

// The slots listed at `list` with the types listed at `fields`, up to the first that was bound before.
#[tactic(auto, using(crate::proofs::Steps::open_plain))]
pub fn open_list(
    pack: &[u8],
    c: Counts,
    same: &[u32; TypeTable::CAPACITY],
    slots: &mut [u32; Slots::CAPACITY],
    list: u32,
    fields: u32,
) -> bool
    ensures { opening result slots.new ≡ open_list pack.now c same.now list fields slots.old }
{
    open_each::<1, 0>(pack, c, same, slots, list, fields)
}

// The same for a list of pairs, each a slot and its type.
#[tactic(auto, unfolding(crate::specs::Slots::open_pairs))]
pub fn open_pairs(
    pack: &[u8],
    c: Counts,
    same: &[u32; TypeTable::CAPACITY],
    slots: &mut [u32; Slots::CAPACITY],
    list: u32,
) -> bool
    ensures { opening result slots.new ≡ open_pairs pack.now c same.now list slots.old }
{
    open_each::<2, 1>(pack, c, same, slots, list, list)
}
