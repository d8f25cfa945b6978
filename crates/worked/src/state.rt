// How far the text has been run: what the words so far said.
ghost use Rattle.std.specs.Prelude.{◌≡◌, [], false, true, min, ◌+◌, ◌-◌, ◌^◌};
ghost use Rattle.worked.specs.declared.state.Next.TheVariants.{Name};

use crate::asks::{AREA, Asks};
use stdio::{Buffer, Tally};

// A byte more than the longest pack that a case may have, which is a byte longer than the longest that can be read.
pub const ROOM: usize = 65538;

// What the next word is.
#[derive(Clone, Copy)]
pub enum Next {
    // A word that no other asked for.
    Any,
    // The name of a group.
    Name,
    Number(Wanted),
}

// What the number that comes next is.
#[derive(Clone, Copy)]
pub enum Wanted {
    // How many bytes of the result area are lent.
    Room,
    // The root that is asked for.
    Root,
    // The three numbers that are wanted of what is asked, with those that were read.
    Number(Asks),
    Place(Asks, u64),
    Detail(Asks, u64, u64),
}

#[derive(Drop)]
pub struct Run<'a> {
    // The line of the text that is being run.
    pub line: u64,
    pub next: Next,
    // The group's name, once there is one.
    pub name: Option<&'a [u8]>,
    // The sums of this group, and of those before it.
    pub sums: Tally,
    pub all: Tally,
    // The bytes of the case's pack so far, and of what the result area has to begin with; whether they are now the area's.
    pub pack: Buffer<ROOM>,
    pub listing: Buffer<AREA>,
    pub in_area: bool,
    // How many bytes of the area are lent.
    pub room: usize,
    // Whether anything was asked of the case.
    pub asked: bool,
}

impl<'a> Run<'a> {
    pub fn begun() -> Self {
        Run {
            line: 0,
            next: Next::Any,
            name: None,
            sums: Tally::none(),
            all: Tally::none(),
            pack: Buffer::empty(),
            listing: Buffer::empty(),
            in_area: false,
            room: AREA,
            asked: true,
        }
    }

    // A case of which nothing is known.
    pub fn new_case(&mut self)
        ensures bytes { (self.new.pack ≡ []) × (self.new.listing ≡ []) }
        ensures area { (self.new.in_area ≡ false) × (self.new.room ≡ 16400) }
        ensures asked { self.new.asked ≡ false }
        ensures rest { (self.new.line ≡ self.old.line) × (self.new.next ≡ self.old.next) × (self.new.name ≡ self.old.name) × (self.new.sums ≡ self.old.sums) × (self.new.all ≡ self.old.all) }
    {
        self.pack.clear();
        self.listing.clear();
        self.in_area = false;
        self.room = AREA;
        self.asked = false;
    }

    // A group whose name comes next.
    pub fn new_group(&mut self)
        ensures begins { (self.new.sums.cases ≡ 0) × (self.new.sums.differ ≡ 0) }
        ensures cases { self.new.all.cases ≡ min (self.old.all.cases + self.old.sums.cases) (2 ^ 64 - 1) }
        ensures differ { self.new.all.differ ≡ min (self.old.all.differ + self.old.sums.differ) (2 ^ 64 - 1) }
        ensures asks { (self.new.asked ≡ true) × (self.new.next ≡ Name) }
        ensures rest { (self.new.line ≡ self.old.line) × (self.new.name ≡ self.old.name) × (self.new.pack ≡ self.old.pack) × (self.new.listing ≡ self.old.listing) × (self.new.in_area ≡ self.old.in_area) × (self.new.room ≡ self.old.room) }
    {
        self.all = self.all.plus(self.sums);
        self.sums = Tally::none();
        self.asked = true;
        self.next = Next::Name;
    }
}
