// The six counts of a header, their limits, and where the tables stand that they give the lengths of.
ghost use Rattle.std.specs.Prelude.{◌≡◌};
ghost use Rattle.laws.specs.Bounded.{Reads};
ghost use Rattle.pack.specs.Counts.{none, in_limits, definitions_at, expressions_at, roots_at, values_at, lists_at, size_of};

#[derive(Clone, Copy)]
pub struct Counts {
    pub types: u32,
    pub definitions: u32,
    pub expressions: u32,
    pub roots: u32,
    pub values: u32,
    pub words: u32,
}

impl Counts {
    pub const MAX_TYPES: u32 = 2048;

    pub const MAX_DEFINITIONS: u32 = 512;

    pub const MAX_EXPRESSIONS: u32 = 4096;

    pub const MAX_ROOTS: u32 = 256;

    pub const MAX_VALUES: u32 = 1024;

    pub const MAX_WORDS: u32 = 8184;

    // Those of a pack with nothing in it.
    pub fn empty() -> Self
        ensures { result ≡ none }
    {
        Counts {
            types: 0,
            definitions: 0,
            expressions: 0,
            roots: 0,
            values: 0,
            words: 0,
        }
    }

    // Whether each count is within its limit.
    #[tactic(auto, unfolding(crate::specs::Counts::in_limits))]
    pub fn in_limits(self) -> bool
        ensures { result ≡ in_limits self }
    {
        let rows = self.types <= Counts::MAX_TYPES && self.definitions <= Counts::MAX_DEFINITIONS;
        let trees = self.expressions <= Counts::MAX_EXPRESSIONS && self.roots <= Counts::MAX_ROOTS;
        let lists = self.values <= Counts::MAX_VALUES && self.words <= Counts::MAX_WORDS;
        rows && trees && lists
    }
}

pub fn definitions_at(c: Counts) -> usize
    ensures { Reads result (definitions_at c) 34359738368 }
{
    16 + 4 * (c.types as usize)
}

pub fn expressions_at(c: Counts) -> usize
    ensures { Reads result (expressions_at c) 68719476736 }
{
    definitions_at(c) + 4 * (c.definitions as usize)
}

pub fn roots_at(c: Counts) -> usize
    ensures { Reads result (roots_at c) 137438953472 }
{
    expressions_at(c) + 8 * (c.expressions as usize)
}

pub fn values_at(c: Counts) -> usize
    ensures { Reads result (values_at c) 274877906944 }
{
    roots_at(c) + 8 * (c.roots as usize)
}

pub fn lists_at(c: Counts) -> usize
    ensures { Reads result (lists_at c) 549755813888 }
{
    values_at(c) + 4 * (c.values as usize)
}

pub fn size_of(c: Counts) -> usize
    ensures { Reads result (size_of c) 1099511627776 }
{
    lists_at(c) + 2 * (c.words as usize)
}
