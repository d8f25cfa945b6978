// Where a search is: what it has met, and the definitions that it has left.
ghost use Rattle.std.specs.Prelude.{false, ◌≡◌, ◌<◌, length, replicate, get_or};
ghost use Rattle.type_cycle.specs.Order.{Walled};
ghost use Rattle.type_cycle.specs.Search.{state, Fresh, Pushes, MeetsVariable};

use crate::skips::Skips;

// The definitions in the order in which the search left them.
#[derive(Drop)]
pub struct Listing {
    pub names: [u16; Listing::CAPACITY],
    pub left: usize,
}

impl Listing {
    // As many as there are marks.
    pub const CAPACITY: usize = 2561;

    pub fn empty() -> Self
        ensures names { result.names ≡ replicate 2561 0 }
        ensures left { result.left ≡ 0 }
    {
        Self {
            names: [0; Self::CAPACITY],
            left: 0,
        }
    }

    // The definition that was left after i others.
    pub fn at(&self, i: usize) -> u32
        requires { i < 2561 }
        ensures { result ≡ get_or self.now.names i 0 }
    {
        u32::from(self.names[i])
    }

    // The definition that is left now.
    pub fn push(&mut self, d: u32)
        requires { d < 65536 }
        ensures { Pushes self.old.left d self.old.names self.new.names self.new.left }
    {
        if self.left < Self::CAPACITY {
            self.names[self.left] = d as u16;
            self.left += 1;
        }
    }
}

// A mark for each type that was met, for each definition, and one for an unresolved variable.
#[derive(Drop)]
pub struct Search {
    pub marks: [bool; Search::PLACES],
    pub skips: Skips,
    pub order: Listing,
}

impl Search {
    // 2,048 types, 512 definitions and the variable.
    pub const PLACES: usize = 2561;

    pub const NAMES: usize = 2048;

    pub const VARIABLE: usize = 2560;

    pub fn empty() -> Self
        ensures { Fresh (state result) }
    {
        Self {
            marks: [false; Self::PLACES],
            skips: Skips::empty(),
            order: Listing::empty(),
        }
    }

    // Every definition gets a mark, so that no search goes past a named type.
    pub fn wall(&mut self)
        requires { self.old.marks ≡ replicate 2561 false }
        ensures walled { Walled 512 self.new.marks }
        ensures skips { self.new.skips ≡ self.old.skips }
    {
        for at in Self::NAMES..Self::VARIABLE {
            self.marks[at] = true;
        }
    }

    // An unresolved variable leads no further.
    pub fn visit_variable(&mut self)
        requires { length self.old.marks ≡ 2561 }
        ensures { MeetsVariable (state self.old) (state self.new) }
    {
        self.marks[Self::VARIABLE] = true;
    }
}
