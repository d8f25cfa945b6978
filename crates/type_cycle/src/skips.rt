// Lists may be shared and may overlap. For each list word a skip says how many items from it on were visited before, so that no word costs twice.
ghost use Rattle.std.specs.Prelude.{◌≡◌, ◌<◌, replicate};
ghost use Rattle.type_cycle.specs.Skips.{word_of, word_in, is_variants, skip_place, skip_of, put_skip};
ghost use Rattle.type_cycle.specs.Search.{Passes};

// What the items of a list are.
#[derive(Clone, Copy)]
pub enum Listed {
    // A type each.
    Types,
    // A name and a type.
    Fields,
    // A name, and where a list of types starts.
    Variants,
}

impl Listed {
    // Which word of a list tells what item k is, counted from its first item.
    pub fn word_in(self, k: u32) -> u32
        requires { k < 65536 }
        ensures { result ≡ word_in self k }
    {
        match self {
            Self::Types => k,
            Self::Fields | Self::Variants => 2 * k + 1,
        }
    }

    // Whether such a word is where a list starts.
    pub fn is_variants(self) -> bool
        ensures { result ≡ is_variants self }
    {
        match self {
            Self::Types | Self::Fields => false,
            Self::Variants => true,
        }
    }

    // Where the skip of item k of the list at s stands.
    fn place_of(self, s: u32, k: u32) -> usize
        ensures { result ≡ skip_place self (word_of self s k) }
    {
        match self {
            Self::Types => 3 * ((s as usize) + 1 + (k as usize)),
            Self::Fields => 3 * ((s as usize) + 2 + 2 * (k as usize)) + 1,
            Self::Variants => 3 * ((s as usize) + 2 + 2 * (k as usize)) + 2,
        }
    }
}

#[derive(Drop)]
pub struct Skips {
    pub cells: [u16; Skips::CAPACITY],
}

impl Skips {
    // Three for each list word: the same word can belong to lists of three sorts.
    pub const CAPACITY: usize = 24576;

    pub fn empty() -> Self
        ensures { result.cells ≡ replicate 24576 0 }
    {
        Self {
            cells: [0; Self::CAPACITY],
        }
    }

    // How many items from item k of the list at s on were visited before.
    pub fn at(&self, items: Listed, s: u32, k: u32) -> u16
        ensures { result ≡ skip_of self.now.cells items (word_of items s k) }
    {
        let at = items.place_of(s, k);
        if at < Self::CAPACITY {
            self.cells[at]
        } else {
            0
        }
    }

    // That so many were.
    pub fn set(&mut self, items: Listed, s: u32, k: u32, n: u32)
        requires { n < 65536 }
        ensures { self.new.cells ≡ put_skip self.old.cells items (word_of items s k) n }
    {
        let at = items.place_of(s, k);
        if at < Self::CAPACITY {
            self.cells[at] = n as u16;
        }
    }

    // The item after those that were visited before, from item k on. The skip found there is joined to this one, so that skips grow long.
    pub fn pass(&mut self, items: Listed, s: u32, k: u32, skip: u32, count: u32) -> u32
        requires { (0 < skip) × (k < count) × (count < 65536) × (skip ≡ skip_of self.old.cells items (word_of items s k)) }
        ensures { Passes items s k count self.old.cells self.new.cells result }
    {
        if skip < count - k {
            let next = k + skip;
            let more = u32::from(self.at(items, s, next)).min(count - next);
            self.set(items, s, k, skip + more);
            next + more
        } else {
            count
        }
    }
}
