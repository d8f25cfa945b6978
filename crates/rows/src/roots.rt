// The root table.
ghost use Rattle.std.specs.Prelude.{◌≡◌};
ghost use Rattle.lists.specs.Peaks.{Peaks as PeaksOf};
ghost use Rattle.rows.specs.Roots.{root_in_range, root_rule};

use crate::faults::fault_of;
use laws::Fault;
use lists::{Items, Peaks, SLOTS, items_fit};
use pack::{Counts, RootRow, root_row};

#[tactic(auto, unfolding(crate::specs::Roots::root_in_range))]
fn root_in_range(pack: &[u8], c: Counts, r: RootRow, peaks: &[u16; Peaks::CAPACITY]) -> bool
    requires { PeaksOf pack.now c peaks.now }
    ensures { result ≡ root_in_range pack.now c r }
{
    let types = c.types;
    let parameters = items_fit(pack, c, Items::Pairs(SLOTS, types), r.list, peaks);
    r.body < c.expressions && r.returns < c.types && parameters
}

// The first fault of root row i, if it has one.
pub fn root_rule(pack: &[u8], c: Counts, i: u32, peaks: &[u16; Peaks::CAPACITY]) -> Option<Fault>
    requires { PeaksOf pack.now c peaks.now }
    ensures { result ≡ root_rule pack.now c i }
{
    let row = root_row(pack, c, i);
    let ranged = root_in_range(pack, c, row, peaks);
    fault_of(row.zero == 0, ranged, true)
}
