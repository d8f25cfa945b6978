// The order of values for the host: module 5 on a pack that is well-formed, in an area with room for it.
ghost use Rattle.std.specs.Prelude.{◌≡◌};
ghost use Rattle.value_cycle.specs.Order.{outcome};
ghost use Rattle.entries.specs.Answers.{told, result as with_area};
ghost use Rattle.entries.specs.Order.{order_answer, order_of};

use crate::answers::tell;
use crate::ready::ready_to_order;
use laws::Refusal;
use value_cycle::find_compilation_order;

fn order_values(pack: &[u8], area: &mut [u8]) -> Result<(), Refusal>
    ensures { outcome result area.new ≡ order_answer pack.now area.old }
{
    let c = ready_to_order(pack, area.len())?;
    find_compilation_order(pack, c, area)
}

pub fn rulepack_order(pack: &[u8], area: &mut [u8], place: &mut u32, detail: &mut u64) -> u32
    ensures { with_area (told result place.new detail.new) area.new ≡ order_of pack.now area.old }
{
    let answer = order_values(pack, area);
    tell(answer, place, detail)
}
