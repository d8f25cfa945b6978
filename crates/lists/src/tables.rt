// The tables that the leaves of the tree are taken from, filled once for a pack.
ghost use Rattle.std.specs.Prelude.{◌≡◌, ◌≤◌, replicate};
ghost use Rattle.lists.specs.Peaks.{Right};

use crate::earlier::fill_earlier;
use crate::limits::SLOTS;
use crate::peaks::Peaks;
use crate::runs::fill_runs;
use pack::Counts;

#[derive(Drop)]
pub struct Tables {
    // Of each list word, where the first word from it on stands that is no id of a type; and past the last word.
    pub fields: [u16; Tables::RUNS],
    // The same, where the first word stands that is no slot.
    pub slots: [u16; Tables::RUNS],
    // Of each list word, and of a few past the last: where the same name stood last before it.
    pub earlier: [u16; Tables::PLACES],
}

impl Tables {
    pub const RUNS: usize = 8185;

    pub const PLACES: usize = 8192;

    pub fn empty() -> Self
        ensures { (result.fields ≡ replicate 8185 0) × (result.slots ≡ replicate 8185 0) × (result.earlier ≡ replicate 8192 0) }
    {
        Tables {
            fields: [0; Tables::RUNS],
            slots: [0; Tables::RUNS],
            earlier: [0; Tables::PLACES],
        }
    }

    // Fills all three. The cells of the tree, which is filled later, hold the marks of names meanwhile.
    pub fn fill(&mut self, pack: &[u8], c: Counts, cells: &mut [u16; Peaks::CAPACITY])
        requires { (c.words ≤ 8184) × (cells.old ≡ replicate 98304 0) }
        ensures { Right pack.now c self.new }
    {
        fill_runs(pack, c, c.types, &mut self.fields);
        fill_runs(pack, c, SLOTS, &mut self.slots);
        fill_earlier(pack, c, cells, &mut self.earlier);
    }
}
