// Tarjan's search: `strongly_connect`, and what it follows.
ghost use Rattle.std.specs.Prelude.{◌≡◌, ℕ, ◌≤◌, ◌<◌};
ghost use Rattle.laws.specs.Lists.{count, In};
ghost use Rattle.pack.specs.Named.{items_of};
ghost use Rattle.components.specs.Found.{index as number};
ghost use Rattle.components.specs.Tarjan.{State, follow as followOf, follow_all};
ghost use Rattle.tarjan.specs.Values.{InRange};
ghost use Rattle.tarjan.specs.Search.{Holds, Gives, Stands, Leads, visit, Sorted};

use crate::search::Search;
use crate::values::list_of;
use pack::{Counts, list_item, list_len};

impl Search {
    // Follows one reference, to w: a value not yet discovered is visited, and one on the stack is looked at.
    // Each answers the lowest index met, here and in `low`.
    #[cycle(connect)]
    fn follow(&mut self, pack: &[u8], c: Counts, w: u32, low: u32) -> u32
        requires { (w < c.values) × Stands pack.now c self.old }
        ensures grows { self.old.discovered ≤ self.new.discovered }
        ensures gives { Leads pack.now c self.old self.new result (λ s. followOf (visit pack.now c) w s low (number w s.found)) }
    {
        let index = u32::from(self.index[w as usize]);
        if index == 0 {
            low.min(self.strongly_connect(pack, c, w))
        } else if self.stack.contains(w) {
            low.min(index)
        } else {
            low
        }
    }

    // Follows the references in the list at word s.
    #[cycle(connect)]
    fn follow_all(&mut self, pack: &[u8], c: Counts, s: u32, mut low: u32) -> u32
        requires { ((w : ℕ) → In w (items_of pack.now c s) → w < c.values) × Stands pack.now c self.old }
        ensures grows { self.old.discovered ≤ self.new.discovered }
        ensures gives { Leads pack.now c self.old self.new result (λ t. follow_all (visit pack.now c) (items_of pack.now c s) t low) }
    {
        for k in 0..list_len(pack, c, s) {
            let w = list_item(pack, c, s, k);
            low = self.follow(pack, c, w, low);
        }
        low
    }

    // Visits v, which is not yet discovered.
    #[cycle(connect)]
    fn strongly_connect(&mut self, pack: &[u8], c: Counts, v: u32) -> u32
        requires { (v < c.values) × ((s : State) × Holds pack.now c self.old s × (count v s.found ≡ 0)) }
        ensures grows { self.old.discovered ≤ self.new.discovered }
        ensures gives { (s : State) → Holds pack.now c self.old s → count v s.found ≡ 0 → Gives pack.now c self.new result (visit pack.now c v s) }
    {
        let end = self.stack.top;
        self.discovered += 1;
        let index = self.discovered;
        self.index[v as usize] = index as u16;
        self.stack.push(v);
        let s = list_of(pack, c, v);
        let low = self.follow_all(pack, c, s, index);
        if low == index {
            self.pop(end);
        }
        low
    }
}

// Visits every value, from the smallest on: the listing, and the size of each value's component.
pub fn tarjan(pack: &[u8], c: Counts) -> Search
    requires { InRange pack.now c }
    ensures { Sorted pack.now c result.listing }
{
    let mut search = Search::empty();
    let mut low = 0;
    for v in 0..c.values {
        low = search.follow(pack, c, v, low);
    }
    search
}
