// Where Tarjan's search is.
ghost use Rattle.tarjan.specs.Search.{Blank, Pops, Popped};

use crate::listing::Listing;
use crate::stack::Stack;

// `index` has the number of each value's discovery, from 1 on, or 0 where it is not discovered, as in the definition.
#[derive(Drop)]
pub struct Search {
    pub index: [u16; Listing::CAPACITY],
    pub discovered: u32,
    pub stack: Stack,
    pub listing: Listing,
}

impl Search {
    pub fn empty() -> Self
        ensures { Blank result }
    {
        Self {
            index: [0; Listing::CAPACITY],
            discovered: 0,
            stack: Stack::empty(),
            listing: Listing::empty(),
        }
    }

    // The values from the stack's top up to `end` are a component: they leave the stack and are listed.
    pub(crate) fn pop(&mut self, end: usize)
        requires { Pops self.old end }
        ensures { Popped self.old end self.new }
    {
        self.listing.take(self.stack.above(end));
        self.stack.top = end;
    }
}
