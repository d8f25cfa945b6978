// Closing slots: those of an arm, and those of a block's lets.
ghost use Rattle.std.specs.Prelude.{◌≡◌, [], ◌∷◌};
ghost use Rattle.slots.specs.Slots.{shut, let_slot, close_list, close_lets};

use crate::slots::{Slots, put_slot};
use pack::{Counts, NodeKind, expression_row, list_item, list_len};

#[tactic(auto, unfolding(crate::specs::Slots::shut))]
fn close_slot(slots: &mut [u32; Slots::CAPACITY], a: u32)
    ensures { slots.new ≡ shut slots.old (a ∷ []) }
{
    put_slot(slots, a, Slots::CLOSED);
}

// The slot of a statement that is a let.
#[tactic(auto, unfolding(crate::specs::Slots::shut, crate::specs::Slots::let_slot, laws::specs::Choice::pick))]
fn close_let(pack: &[u8], c: Counts, slots: &mut [u32; Slots::CAPACITY], e: u32)
    ensures { slots.new ≡ shut slots.old (let_slot pack.now c e) }
{
    let row = expression_row(pack, c, e);
    if row.kind == NodeKind::Let as u32 {
        close_slot(slots, row.a);
    }
}

// The slots listed at `list`.
pub fn close_list(pack: &[u8], c: Counts, slots: &mut [u32; Slots::CAPACITY], list: u32)
    ensures { slots.new ≡ close_list pack.now c list slots.old }
{
    for k in 0..list_len(pack, c, list) {
        close_slot(slots, list_item(pack, c, list, k));
    }
}

// The slots of the lets among the statements listed at `list`.
pub fn close_lets(pack: &[u8], c: Counts, slots: &mut [u32; Slots::CAPACITY], list: u32)
    ensures { slots.new ≡ close_lets pack.now c list slots.old }
{
    for k in 0..list_len(pack, c, list) {
        close_let(pack, c, slots, list_item(pack, c, list, k));
    }
}
