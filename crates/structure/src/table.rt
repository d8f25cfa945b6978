// The type table by structure: the number of each row, and whether it holds a variable.
ghost use Rattle.std.specs.Prelude.{◌≡◌, replicate};
ghost use Rattle.laws.specs.Bounded.{get, Reads};
ghost use Rattle.structure.specs.Structure.{rows};
ghost use Rattle.structure.specs.Table.{Clear, Link};

use laws::get_at;

#[derive(Drop)]
pub struct TypeTable {
    pub same: [u32; TypeTable::CAPACITY],
    pub marks: [u32; TypeTable::CAPACITY],
}

impl TypeTable {
    pub const CAPACITY: usize = 2048;

    // While it is made, each list has a slot, two for a start: those of a well-formed pack are below this.
    pub const SLOTS: usize = 16384;

    // And rows are searched in chains; a prime.
    pub const BUCKETS: usize = 4093;

    // Of each list word, what is known of its type, and the word itself.
    pub const WORDS: usize = 8192;

    pub const LOOKS: usize = 16384;

    // Two links for each row of the trees of lists, and a root for each sort of list.
    pub const CELLS: usize = 4096;

    pub const SORTS: usize = 16384;

    pub fn empty() -> Self
        ensures { Clear result.same × Clear result.marks }
    {
        Self {
            same: [0u32; Self::CAPACITY],
            marks: [0u32; Self::CAPACITY],
        }
    }
}

// What an array of the table has for row k, 0 past its end.
pub fn entry_at(xs: &[u32; TypeTable::CAPACITY], k: u32) -> u32
    ensures { result ≡ get rows xs.now k }
{
    get_at(xs, k)
}

pub fn wide(x: u16) -> u32
    ensures { Reads result x 65536 }
{
    x as u32
}

// Where a link leads.
pub fn linked(link: u16) -> Option<u32>
    ensures { Link link result }
{
    if link == 0 {
        None
    } else {
        Some(wide(link) - 1)
    }
}
