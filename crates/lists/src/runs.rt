// Of each list word, where the first word from it on stands that is not below a limit.
// Arms and variants name lists of their own, and many rows may name the same arms: with this table such a list is judged in one step.
ghost use Rattle.std.specs.Prelude.{◌≡◌, ◌≤◌};
ghost use Rattle.lists.specs.Runs.{Runs as RunsOf};
ghost use Rattle.lists.specs.Lists.{ids_fit};

use crate::tables::Tables;
use pack::{Counts, list_len};

// Fills the table, from the last word down.
pub fn fill_runs(pack: &[u8], c: Counts, limit: u32, ends: &mut [u16; Tables::RUNS])
    requires { c.words ≤ 8184 }
    ensures { RunsOf pack.now c limit ends.new }
{
    let n = c.words;
    let mut end = n;
    ends[n as usize] = n as u16;
    for k in (0..n).rev() {
        if limit <= list_len(pack, c, k) {
            end = k;
        }
        ends[k as usize] = end as u16;
    }
}

// Whether the list at word s is a list of ids below the table's limit.
pub fn ids_fit(pack: &[u8], c: Counts, limit: u32, s: u32, ends: &[u16; Tables::RUNS]) -> bool
    requires { (c.words ≤ 8184) × RunsOf pack.now c limit ends.now }
    ensures { result ≡ ids_fit pack.now c limit s }
{
    let n = c.words;
    if s < n {
        let from = (s as usize) + 1;
        let end = u32::from(ends[from]);
        s + 1 + list_len(pack, c, s) <= end
    } else {
        false
    }
}
