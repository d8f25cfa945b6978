// Rows in chains, by the bucket of a row's key: a search follows one chain, from its head along the links.
ghost use Rattle.std.specs.Prelude.{◌≡◌, ◌+◌, ◌<◌, ◌≤◌, replicate, set};
ghost use Rattle.laws.specs.Bounded.{Reads};
ghost use Rattle.structure.specs.Structure.{rows};
ghost use Rattle.structure.specs.Table.{has_key, Hit};
ghost use Rattle.structure.specs.Buckets.{buckets, bucket_of, head_at, Chained};

use crate::table::{TypeTable, linked};

#[tactic(auto, unfolding(crate::specs::Buckets::bucket_of))]
pub fn bucket_of(x: u32) -> u32
    ensures { Reads result (bucket_of x) buckets }
{
    x % (TypeTable::BUCKETS as u32)
}

// The keys of rows, and the chains of rows whose keys share a bucket. A head and a link hold one more than a row, or 0.
#[derive(Drop)]
pub struct Chains {
    pub keys: [u32; TypeTable::CAPACITY],
    pub heads: [u16; TypeTable::BUCKETS],
    pub nexts: [u16; TypeTable::CAPACITY],
}

impl Chains {
    pub fn empty() -> Self
        ensures { (result.keys ≡ replicate rows 0) × Chained result 0 }
    {
        Self {
            keys: [0u32; TypeTable::CAPACITY],
            heads: [0u16; TypeTable::BUCKETS],
            nexts: [0u16; TypeTable::CAPACITY],
        }
    }

    // The link to the first row of the chain that a key belongs to.
    #[tactic(auto, using(laws::proofs::Bounded::get_in))]
    fn head_of(&self, key: u32) -> u16
        ensures { result ≡ head_at self.now.heads (bucket_of key) }
    {
        let b = bucket_of(key);
        self.heads[b as usize]
    }

    // Row i with that key, put in front of the chain that the key belongs to.
    pub fn put(&mut self, i: u32, key: u32)
        requires { (i < rows) × Chained self.old i }
        ensures { (self.new.keys ≡ set self.old.keys i key) × Chained self.new (i + 1) }
    {
        let next = self.head_of(key);
        let bucket = bucket_of(key);
        self.keys[i as usize] = key;
        self.nexts[i as usize] = next;
        self.heads[bucket as usize] = (i + 1) as u16;
    }

    // A row before i with that key: the one met first on the key's chain, whose head is given.
    pub fn row_from(&self, i: u32, key: u32, head: u16) -> Option<u32>
        requires { (i ≤ rows) × Chained self.now i × (head ≡ head_at self.now.heads (bucket_of key)) }
        ensures { Hit (has_key self.now.keys key) i result }
    {
        let mut link = head;
        while let Some(row) = linked(link) {
            if self.keys[row as usize] == key {
                return Some(row);
            }
            link = self.nexts[row as usize];
        }
        None
    }

    // A row before i with that key.
    pub fn row_with(&self, i: u32, key: u32) -> Option<u32>
        requires { (i ≤ rows) × Chained self.now i }
        ensures { Hit (has_key self.now.keys key) i result }
    {
        self.row_from(i, key, self.head_of(key))
    }
}
