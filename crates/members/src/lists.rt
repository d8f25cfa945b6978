// Lists of pairs, looked up by the name that comes first. All look-ups stand behind `find_pair`.
ghost use Rattle.std.specs.Prelude.{◌≡◌, ◌<◌};
ghost use Rattle.laws.specs.Bounded.{Reads};
ghost use Rattle.names.specs.Index.{Indexed};
ghost use Rattle.members.specs.Lookup.{name_at, is_member, member_of};

use names::{NameIndex, find_pair};
use pack::{Counts, list_item, list_len};

// The name of pair k.
pub fn name_at(pack: &[u8], c: Counts, list: u32, k: u32) -> u32
    requires { k < 65536 }
    ensures { Reads result (name_at pack.now c list k) 65536 }
{
    list_item(pack, c, list, 2 * k)
}

// Whether a pair has that name.
#[tactic(auto, unfolding(crate::specs::Lookup::is_member))]
pub fn is_member(
    pack: &[u8],
    c: Counts,
    names: &[u16; NameIndex::CAPACITY],
    list: u32,
    name: u32,
) -> bool
    requires { Indexed pack.now c names.now }
    ensures { result ≡ is_member pack.now c list name }
{
    let n = list_len(pack, c, list);
    find_pair(pack, c, names, list, name) < n
}

// The word that stands beside the name: a type, or the start of a variant's list of field types.
#[tactic(auto, using(crate::proofs::Finding::member_high), unfolding(crate::specs::Lookup::member_of))]
pub fn member_of(
    pack: &[u8],
    c: Counts,
    names: &[u16; NameIndex::CAPACITY],
    list: u32,
    name: u32,
) -> u32
    requires { Indexed pack.now c names.now }
    ensures { result ≡ member_of pack.now c list name }
{
    let n = list_len(pack, c, list);
    let k = find_pair(pack, c, names, list, name);
    list_item(pack, c, list, 2 * k + 1)
}
