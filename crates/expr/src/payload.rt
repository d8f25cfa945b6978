// The slots of an arm's payload, and where the arms of a match end.
ghost use Rattle.std.specs.Prelude.{◌≡◌, ◌<◌};
ghost use Rattle.slots.specs.Slots.{opening};
ghost use Rattle.expr.specs.Lent.{env_of};
ghost use Rattle.expr.specs.Rules.{payload_opens, payload_closes, ends_arms};

use crate::state::Env;
use members::member_of;
use pack::{Counts, list_item};
use slots::{Slots, close_list, open_list};

// The name of an arm for every variant.
const WILD: u32 = 16383;

// Whether all slots of the payload, stored as list+1, could open.
pub fn open_payload(
    env: &Env,
    slots: &mut [u32; Slots::CAPACITY],
    list: u32,
    name: u32,
    payload: u32,
) -> bool
    ensures { let e = env_of env.now in opening result slots.new ≡ payload_opens e.p e.c e.same list name payload slots.old }
{
    if payload == 0 {
        return true;
    }
    if name == WILD {
        return true;
    }
    let fields = member_of(env.pack, env.counts, env.names, list, name);
    open_list(env.pack, env.counts, env.same, slots, payload - 1, fields)
}

#[tactic(auto, unfolding(crate::specs::Rules::payload_closes))]
pub fn close_payload(pack: &[u8], c: Counts, slots: &mut [u32; Slots::CAPACITY], payload: u32)
    ensures { slots.new ≡ payload_closes pack.now c payload slots.old }
{
    if payload != 0 {
        close_list(pack, c, slots, payload - 1);
    }
}

// Whether arm k is an unguarded `_`.
#[tactic(auto, unfolding(crate::specs::Rules::ends_arms))]
pub fn ends_arms(pack: &[u8], c: Counts, arms: u32, k: u32) -> bool
    requires { k < 65536 }
    ensures { result ≡ ends_arms pack.now c arms k }
{
    let name = list_item(pack, c, arms, 4 * k);
    let guard = list_item(pack, c, arms, 4 * k + 2);
    name == WILD && guard == 0
}
