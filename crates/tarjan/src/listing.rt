// What the search finds: the values in the order in which they are listed, and the size of each one's component.
ghost use Rattle.std.specs.Prelude.{◌≡◌, ◌<◌, replicate, get_or};
ghost use Rattle.tarjan.specs.Values.{capacity};
ghost use Rattle.tarjan.specs.Search.{Takes, Taken};

// The first `length` of `values` are listed.
#[derive(Drop)]
pub struct Listing {
    pub values: [u16; Listing::CAPACITY],
    pub length: usize,
    pub sizes: [u16; Listing::CAPACITY],
}

impl Listing {
    pub const CAPACITY: usize = 1024;

    pub fn empty() -> Self
        ensures values { result.values ≡ replicate capacity 0 }
        ensures length { result.length ≡ 0 }
        ensures sizes { result.sizes ≡ replicate capacity 0 }
    {
        Self {
            values: [0; Self::CAPACITY],
            length: 0,
            sizes: [0; Self::CAPACITY],
        }
    }

    // The members of a component are listed, and each gets its size.
    pub(crate) fn take(&mut self, members: &[u16])
        requires { Takes members.now self.old }
        ensures { Taken members.now self.old self.new }
    {
        let size = members.len() as u16;
        for v in members {
            self.values[self.length] = *v;
            self.length += 1;
            self.sizes[*v as usize] = size;
        }
    }

    // The value that is listed after d others.
    pub fn value_at(&self, d: u32) -> u32
        requires { d < capacity }
        ensures { result ≡ get_or self.now.values d 0 }
    {
        u32::from(self.values[d as usize])
    }

    // How many members the component of v has.
    pub fn size_of(&self, v: u32) -> u32
        requires { v < capacity }
        ensures { result ≡ get_or self.now.sizes v 0 }
    {
        u32::from(self.sizes[v as usize])
    }
}
