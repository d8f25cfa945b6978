// Constants that lie on a cycle: 50 and 51.
ghost use Rattle.std.specs.Prelude.{◌≡◌, ◌<◌};
ghost use Rattle.tarjan.specs.Search.{Sorted};
ghost use Rattle.tarjan.specs.Values.{InRange, capacity};
ghost use Rattle.value_cycle.specs.Order.{lists_itself_in, is_looped_in, self_at, loop_at, looped_at, Finds};

use crate::values::{contains, kind_of};
use pack::{Counts, ValueKind};
use tarjan::{Listing, list_of};

// Whether v is a constant that lists itself.
fn lists_itself(pack: &[u8], c: Counts, v: u32) -> bool
    ensures { result ≡ lists_itself_in pack.now c v }
{
    kind_of(pack, c, v) == ValueKind::Constant as u32 && contains(pack, c, list_of(pack, c, v), v)
}

// 50: the smallest constant that lists itself.
pub fn first_self(pack: &[u8], c: Counts) -> Option<u32>
    ensures { Finds c.values (self_at pack.now c) (self_at pack.now c) result }
{
    for v in 0..c.values {
        if lists_itself(pack, c, v) {
            return Some(v);
        }
    }
    None
}

// Whether v is a constant in a component of two or more.
fn is_looped(pack: &[u8], c: Counts, listing: &Listing, v: u32) -> bool
    requires { v < capacity }
    ensures { result ≡ is_looped_in pack.now c listing.now.sizes v }
{
    kind_of(pack, c, v) == ValueKind::Constant as u32 && 1 < listing.size_of(v)
}

// 51: the first listed constant in a component of two or more.
pub fn first_looped(pack: &[u8], c: Counts, listing: &Listing) -> Option<u32>
    requires { InRange pack.now c × Sorted pack.now c listing.now }
    ensures { Finds c.values (loop_at pack.now c) (looped_at pack.now c) result }
{
    for d in 0..c.values {
        let v = listing.value_at(d);
        if is_looped(pack, c, listing, v) {
            return Some(v);
        }
    }
    None
}
