// What the items of a list name, and where items start.
ghost use Rattle.std.specs.Prelude.{◌≡◌, ◌+◌, ◌*◌, ◌<◌};
ghost use Rattle.trees.specs.Hops.{stride, line as line_of};

#[derive(Clone, Copy)]
pub enum Kids {
    // Each item a child.
    Items,
    // Of each pair the second word.
    Seconds,
    // Of each arm its guard, if it has one, and its body.
    Arms,
}

impl Kids {
    // Where the hops of a kind of items begin.
    pub fn line(self) -> usize
        ensures { result ≡ line_of self }
    {
        match self {
            Kids::Items => 0,
            Kids::Seconds => 8192,
            Kids::Arms => 16384,
        }
    }

    // The word where item k starts, if item 0 starts at word j.
    pub fn item_start(self, j: usize, k: u32) -> usize
        requires { j < 4294967298 }
        ensures { result ≡ j + stride self * k }
    {
        let n = k as usize;
        match self {
            Kids::Items => j + n,
            Kids::Seconds => j + 2 * n,
            Kids::Arms => j + 4 * n,
        }
    }
}
