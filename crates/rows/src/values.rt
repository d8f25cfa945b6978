// The value table.
ghost use Rattle.std.specs.Prelude.{◌≡◌};
ghost use Rattle.lists.specs.Peaks.{Peaks as PeaksOf};
ghost use Rattle.rows.specs.Values.{value_rule};

use crate::faults::fault_of;
use laws::Fault;
use lists::{Items, Peaks, items_fit, items_rise};
use pack::{Counts, value_row};

// The first fault of value row i, if it has one.
pub fn value_rule(pack: &[u8], c: Counts, i: u32, peaks: &[u16; Peaks::CAPACITY]) -> Option<Fault>
    requires { PeaksOf pack.now c peaks.now }
    ensures { result ≡ value_rule pack.now c i }
{
    let row = value_row(pack, c, i);
    let values = c.values;
    let ranged = items_fit(pack, c, Items::Ids(values), row.list, peaks);
    let rise = items_rise(pack, c, row.list, peaks);
    fault_of(row.zero == 0, ranged, rise)
}
