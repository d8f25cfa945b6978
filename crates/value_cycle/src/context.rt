// Constants that reach a context value: 52.
ghost use Rattle.std.specs.Prelude.{◌≡◌, true, false, ℕ, ◌<◌};
ghost use Rattle.laws.specs.Lists.{In};
ghost use Rattle.pack.specs.Named.{items_of};
ghost use Rattle.tarjan.specs.Values.{InRange};
ghost use Rattle.value_cycle.specs.Order.{context_at, Finds};
ghost use Rattle.value_cycle.specs.Context.{Sized, Seeks, SeeksIn, Asks};

use crate::values::kind_of;
use pack::{Counts, ValueKind, list_item, list_len};
use tarjan::{Listing, list_of};

// Whether v is a context value or reaches one.
// A value that was visited is asked no further. While its own references are still being asked, that alone settles nothing. But the
// first answer that is true ends the whole search, so where the search goes on, no visited value reaches a context value.
#[cycle(context)]
fn determine_uses_context(
    pack: &[u8],
    c: Counts,
    visited: &mut [bool; Listing::CAPACITY],
    v: u32,
) -> bool
    requires { InRange pack.now c × Sized visited.old × (v < c.values) }
    ensures { Seeks pack.now c visited.old v result visited.new }
{
    if visited[v as usize] {
        return false;
    }
    if kind_of(pack, c, v) == ValueKind::Context as u32 {
        return true;
    }
    visited[v as usize] = true;
    any_uses_context(pack, c, visited, list_of(pack, c, v))
}

// Whether one of the list at word s does.
#[cycle(context)]
fn any_uses_context(pack: &[u8], c: Counts, visited: &mut [bool; Listing::CAPACITY], s: u32) -> bool
    requires { InRange pack.now c × Sized visited.old × ((w : ℕ) → In w (items_of pack.now c s) → w < c.values) }
    ensures { SeeksIn pack.now c visited.old (items_of pack.now c s) result visited.new }
{
    for k in 0..list_len(pack, c, s) {
        let w = list_item(pack, c, s, k);
        if determine_uses_context(pack, c, visited, w) {
            return true;
        }
    }
    false
}

// Whether v is a constant that reaches a context value.
// Only constants are asked, since only for them an answer that is true ends the search.
fn constant_uses_context(
    pack: &[u8],
    c: Counts,
    visited: &mut [bool; Listing::CAPACITY],
    v: u32,
) -> bool
    requires { InRange pack.now c × Sized visited.old × (v < c.values) }
    ensures { Asks pack.now c visited.old v result visited.new }
{
    kind_of(pack, c, v) == ValueKind::Constant as u32 && determine_uses_context(pack, c, visited, v)
}

// 52: the smallest constant that reaches a context value.
pub fn context_check(pack: &[u8], c: Counts) -> Option<u32>
    requires { InRange pack.now c }
    ensures { Finds c.values (context_at pack.now c) (context_at pack.now c) result }
{
    let mut visited = [false; Listing::CAPACITY];
    for v in 0..c.values {
        if constant_uses_context(pack, c, &mut visited, v) {
            return Some(v);
        }
    }
    None
}
