// The tree that all lists are judged by, filled once for a pack.
ghost use Rattle.std.specs.Prelude.{◌≡◌, ◌≤◌, replicate};
ghost use Rattle.lists.specs.Peaks.{Peaks as PeaksOf};

use crate::peaks::{Peaks, fill_peaks};
use crate::tables::Tables;
use pack::Counts;

pub fn fill_tree(pack: &[u8], c: Counts, cells: &mut [u16; Peaks::CAPACITY])
    requires { (c.words ≤ 8184) × (cells.old ≡ replicate 98304 0) }
    ensures { PeaksOf pack.now c cells.new }
{
    let mut tables = Tables::empty();
    tables.fill(pack, c, cells);
    fill_peaks(pack, c, &tables, cells);
}
