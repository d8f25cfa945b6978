// The stack of the search. It grows downward: its top stands at `top`, and it ends where the array does.
ghost use Rattle.std.specs.Prelude.{◌≡◌, ◌-◌, ◌<◌, ◌≤◌, length, drop, replicate};
ghost use Rattle.components.specs.Answers.{has};
ghost use Rattle.tarjan.specs.Values.{capacity};
ghost use Rattle.tarjan.specs.Search.{pushed, above};

#[derive(Drop)]
pub struct Stack {
    pub values: [u16; Stack::CAPACITY],
    pub top: usize,
}

impl Stack {
    pub const CAPACITY: usize = 1024;

    pub fn empty() -> Self
        ensures values { result.values ≡ replicate capacity 0 }
        ensures top { result.top ≡ capacity }
    {
        Self {
            values: [0; Self::CAPACITY],
            top: Self::CAPACITY,
        }
    }

    pub fn push(&mut self, v: u32)
        requires { (0 < self.old.top) × (self.old.top ≤ capacity) × (length self.old.values ≡ capacity) × (v < capacity) }
        ensures { self.new ≡ pushed v self.old }
    {
        self.top -= 1;
        self.values[self.top] = v as u16;
    }

    // The values from the top up to `end`.
    pub fn above(&self, end: usize) -> &[u16]
        requires { (self.now.top ≤ end) × (end ≤ length self.now.values) }
        ensures { result.now ≡ above self.now end }
    {
        let values: &[u16] = &self.values;
        &values[self.top..end]
    }

    // Whether w is on the stack. The Rust searches the stack for it.
    pub fn contains(&self, w: u32) -> bool
        requires { length self.now.values ≡ capacity }
        ensures { result ≡ has w (drop self.now.top self.now.values) }
    {
        for i in self.top..Self::CAPACITY {
            if u32::from(self.values[i]) == w {
                return true;
            }
        }
        false
    }
}
