// Refusals 40 and 41.
ghost use Rattle.std.specs.Prelude.{◌≡◌, true, ◌+◌, ◌≤◌, ◌<◌};
ghost use Rattle.laws.specs.Faults.{passes};
ghost use Rattle.pack.specs.Counts.{in_limits};
ghost use Rattle.rows.specs.Tables.{rows_of};
ghost use Rattle.type_cycle.specs.Cycles.{on_cycle, unresolved_of, cycle_of, type_cycles_of};
ghost use Rattle.type_cycle.specs.Order.{Good, Order, NoneBelow, Sought, Smallest};

use crate::search::{Listing, Search};
use laws::{Fault, Refusal};
use pack::Counts;

// 40, at the smallest definition with a variable in a field. Types that an earlier definition led to hold none, so they are not met again.
fn unresolved(pack: &[u8], c: Counts) -> Result<Counts, Refusal>
    requires { Good pack.now c }
    ensures { result ≡ unresolved_of pack.now c }
{
    let mut search = Search::empty();
    search.wall();
    for d in 0..c.definitions {
        search.visit_fields(pack, &c, d);
        if search.marks[Search::VARIABLE] {
            return Err(Refusal::at(Fault::Unresolved, d));
        }
    }
    Ok(c)
}

// All definitions, in the order in which a search leaves them.
fn visit_all(pack: &[u8], c: Counts) -> Listing
    requires { Good pack.now c }
    ensures { Order pack.now c result.names result.left }
{
    let mut search = Search::empty();
    for d in 0..c.definitions {
        search.visit_name(pack, &c, d);
    }
    search.order
}

// A definition below m that leads to itself. Those below low are known not to.
// They are asked in the order in which a search left them: what one leads to that does not lead to itself never leads to a later one,
// so what was met once is not met again.
fn seek(pack: &[u8], c: Counts, low: u32, m: u32, order: &Listing) -> Option<u32>
    requires { Good pack.now c × (m ≤ c.definitions) × Order pack.now c order.now.names order.now.left × NoneBelow pack.now c low }
    ensures { Sought pack.now c m result }
{
    let mut search = Search::empty();
    for i in 0..order.left {
        let d = order.at(i);
        if low <= d && d < m {
            search.visit_fields(pack, &c, d);
            if search.marks[Search::NAMES + (d as usize)] {
                return Some(d);
            }
        }
    }
    None
}

// The smallest definition that leads to itself, where `found` does: half of those below it are asked at a time.
fn smallest(pack: &[u8], c: Counts, found: u32, order: &Listing) -> u32
    requires { Good pack.now c × Order pack.now c order.now.names order.now.left × (found < c.definitions) × (on_cycle pack.now c found ≡ true) }
    ensures { Smallest pack.now c result }
{
    let mut low = 0;
    let mut high = found;
    while low < high {
        let middle = low + (high - low) / 2;
        match seek(pack, c, low, middle + 1, order) {
            Some(d) => high = d,
            None => low = middle + 1,
        }
    }
    high
}

// 41, at the smallest definition on a cycle of names.
fn cycle(pack: &[u8], c: Counts) -> Result<Counts, Refusal>
    requires { Good pack.now c }
    ensures { result ≡ cycle_of pack.now c }
{
    let order = visit_all(pack, c);
    match seek(pack, c, 0, c.definitions, &order) {
        Some(found) => {
            let d = smallest(pack, c, found, &order);
            Err(Refusal::at(Fault::TypeCycle, d))
        }
        None => Ok(c),
    }
}

// Of a pack whose rows have no fault: 40, then 41, or the counts.
pub fn detect_type_cycles(pack: &[u8], c: Counts) -> Result<Counts, Refusal>
    requires { (in_limits c ≡ true) × (passes (rows_of pack.now c) ≡ true) }
    ensures { result ≡ type_cycles_of pack.now c }
{
    // Without definitions there is nothing to look for, and no table to clear.
    if c.definitions == 0 {
        return Ok(c);
    }
    unresolved(pack, c)?;
    cycle(pack, c)
}
