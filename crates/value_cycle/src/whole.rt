// The whole of it, in the order of the Rust: 50, the search, 51, 52, the listing.
ghost use Rattle.std.specs.Prelude.{◌≡◌, ◌<◌};
ghost use Rattle.value_cycle.specs.Area.{Orders};
ghost use Rattle.value_cycle.specs.Order.{outcome, order_of};

use crate::area::write_order;
use crate::context::context_check;
use crate::recursive::{first_looped, first_self};
use laws::{Fault, Refusal};
use pack::Counts;
use tarjan::tarjan;

pub fn find_compilation_order(pack: &[u8], c: Counts, area: &mut [u8]) -> Result<(), Refusal>
    requires { Orders pack.now c area.old }
    ensures { outcome result area.new ≡ order_of pack.now c area.old }
{
    if let Some(v) = first_self(pack, c) {
        return Err(Refusal::at(Fault::ReferencesItself, v));
    }
    let search = tarjan(pack, c);
    if let Some(v) = first_looped(pack, c, &search.listing) {
        return Err(Refusal::at(Fault::OnLongerCycle, v));
    }
    if let Some(v) = context_check(pack, c) {
        return Err(Refusal::at(Fault::ReachesContext, v));
    }
    write_order(&search.listing, c.values, area);
    Ok(())
}
