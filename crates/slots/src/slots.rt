// The slots of a root, each never bound, closed, or open with the code of its type.
ghost use Rattle.std.specs.Prelude.{◌≡◌, replicate};
ghost use Rattle.laws.specs.Bounded.{get, put};
ghost use Rattle.slots.specs.Slots.{slots as slot_count};

use laws::{get_at, put_at};

#[derive(Drop)]
pub struct Slots {
    pub slots: [u32; Slots::CAPACITY],
}

impl Slots {
    pub const CAPACITY: usize = 256;

    pub const UNBOUND: u32 = 0;

    pub const CLOSED: u32 = 1;

    // An open slot holds this and the code of its type.
    pub const OPEN: u32 = 2;

    pub fn empty() -> Self
        ensures { result.slots ≡ replicate slot_count 0 }
    {
        Self {
            slots: [0u32; Self::CAPACITY],
        }
    }
}

pub fn slot_at(slots: &[u32; Slots::CAPACITY], a: u32) -> u32
    ensures { result ≡ get slot_count slots.now a }
{
    get_at(slots, a)
}

pub fn put_slot(slots: &mut [u32; Slots::CAPACITY], a: u32, holds: u32)
    ensures { slots.new ≡ put slot_count slots.old a holds }
{
    put_at(slots, a, holds)
}
