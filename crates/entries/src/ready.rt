// What comes before an entry's own module: 1 to 4, then 5 and 6, then rows, 12, 15 and 13.
ghost use Rattle.std.specs.Prelude.{◌≡◌, leb, ltb, ◌*◌};
ghost use Rattle.laws.specs.declared.fault.Fault.TheVariants.{NoSuchRoot, AreaTooShort};
ghost use Rattle.pack.specs.Answer.{needs};
ghost use Rattle.formed.specs.Formed.{formed_of};
ghost use Rattle.entries.specs.Ready.{ready_to_check, ready_to_order};

use formed::formed;
use laws::{Fault, Refusal, need};
use pack::{Counts, header};

// 6 where an area of `room` bytes is shorter than what is needed; else what the pack says.
fn with_room(pack: &[u8], needed: usize, room: usize) -> Result<Counts, Refusal>
    ensures { result ≡ needs (leb needed room) AreaTooShort (formed_of pack.now) }
{
    need(needed <= room, Fault::AreaTooShort)?;
    formed(pack)
}

// The counts of a well-formed pack whose order has room, or the first refusal.
pub fn ready_to_order(pack: &[u8], room: usize) -> Result<Counts, Refusal>
    ensures { result ≡ ready_to_order pack.now room }
{
    let c = header(pack)?;
    with_room(pack, 2 * (c.values as usize), room)
}

// 5 where the pack has no such root; then 6.
fn with_root(pack: &[u8], c: Counts, root: u64, room: usize) -> Result<Counts, Refusal>
    ensures { result ≡ needs (ltb root c.roots) NoSuchRoot (needs (leb (4 * c.expressions) room) AreaTooShort (formed_of pack.now)) }
{
    need(root < u64::from(c.roots), Fault::NoSuchRoot)?;
    with_room(pack, 4 * (c.expressions as usize), room)
}

// The counts of a well-formed pack that has this root, whose words have room, or the first refusal.
pub fn ready_to_check(pack: &[u8], root: u64, room: usize) -> Result<Counts, Refusal>
    ensures { result ≡ ready_to_check pack.now root room }
{
    let c = header(pack)?;
    with_root(pack, c, root, room)
}
