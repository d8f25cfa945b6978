// Of each list word, where the same name stood last before it, an even number of words away.
// Then no name of a list of pairs repeats exactly if none stood at its first name or later.
ghost use Rattle.std.specs.Prelude.{◌≡◌, ◌≤◌, replicate};
ghost use Rattle.laws.specs.Bounded.{Reads};
ghost use Rattle.lists.specs.Peaks.{key as key_of, Earlier};

use crate::limits::NAMES;
use crate::peaks::{Peaks, region};
use crate::tables::Tables;
use pack::{Counts, list_len};

// The mark of the name at word j: two for each name, for even and for odd places. What is no name has one mark for all.
fn key(pack: &[u8], c: Counts, j: u32) -> u32
    ensures { Reads result (key_of pack.now c j) 32768 }
{
    let name = list_len(pack, c, j).min(NAMES);
    2 * name + j % 2
}

// Fills the table, from the first word up. Each name that was met has the place that met it last as its mark.
// The marks stand in the cells of the tree, before it is filled.
pub fn fill_earlier(
    pack: &[u8],
    c: Counts,
    marks: &mut [u16; Peaks::CAPACITY],
    places: &mut [u16; Tables::PLACES],
)
    requires { (c.words ≤ 8184) × (marks.old ≡ replicate 98304 0) }
    ensures { Earlier pack.now c places.new }
{
    let n = region(c);
    for j in 0..n {
        let mark = key(pack, c, j) as usize;
        let at = j as usize;
        places[at] = marks[mark];
        marks[mark] = j as u16;
    }
}
