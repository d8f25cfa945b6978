// How many cases were run, and how many differ from what is wanted.
ghost use Rattle.std.specs.Prelude.{◌≡◌, ◌+◌, ◌-◌, ◌^◌, ◌++◌, min, if◌then◌else◌, Some, codes, decimal};

use std::fmt;

// Nothing that is counted here comes near the largest number, at which the counts stay.
#[derive(Clone, Copy)]
pub struct Tally {
    pub cases: u64,
    pub differ: u64,
}

impl Tally {
    pub fn none() -> Tally
        ensures cases { result.cases ≡ 0 }
        ensures differ { result.differ ≡ 0 }
    {
        Tally {
            cases: 0,
            differ: 0,
        }
    }

    pub fn one_case(&mut self)
        ensures cases { self.new.cases ≡ min (self.old.cases + 1) (2 ^ 64 - 1) }
        ensures differ { self.new.differ ≡ self.old.differ }
    {
        self.cases = self.cases.saturating_add(1);
    }

    pub fn one_differs(&mut self)
        ensures cases { self.new.cases ≡ self.old.cases }
        ensures differ { self.new.differ ≡ min (self.old.differ + 1) (2 ^ 64 - 1) }
    {
        self.differ = self.differ.saturating_add(1);
    }

    // One case more, which is as wanted or is not.
    pub fn count(&mut self, ok: bool)
        ensures cases { self.new.cases ≡ min (self.old.cases + 1) (2 ^ 64 - 1) }
        ensures differ { self.new.differ ≡ (if ok then self.old.differ else min (self.old.differ + 1) (2 ^ 64 - 1)) }
    {
        self.one_case();
        if !ok {
            self.one_differs();
        }
    }

    pub fn plus(self, other: Tally) -> Tally
        ensures cases { result.cases ≡ min (self.cases + other.cases) (2 ^ 64 - 1) }
        ensures differ { result.differ ≡ min (self.differ + other.differ) (2 ^ 64 - 1) }
    {
        Tally {
            cases: self.cases.saturating_add(other.cases),
            differ: self.differ.saturating_add(other.differ),
        }
    }
}

impl fmt::Display for Tally {
    ghost output = { λ t. Some (decimal t.cases ++ (codes " cases, " ++ (decimal t.differ ++ codes " differ"))) };

    fn fmt<W: fmt::Write>(&self, f: &mut fmt::Formatter<W>) -> fmt::Result {
        let cases = self.cases;
        let differ = self.differ;
        write!(f, "{cases} cases, {differ} differ")
    }
}
