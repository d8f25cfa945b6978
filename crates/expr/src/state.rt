// What the functions of the rules are lent, as two structs: what stays the same while a root is checked, and what they change.
ghost use Rattle.names.specs.Index.{Indexed};
ghost use Rattle.expr.specs.Ready.{Coded, Marked};

use names::NameIndex;
use pack::Counts;
use slots::Slots;
use structure::TypeTable;
use unionfind::UnionFind;
use words::Notes;

// The pack with its counts, its names in order, its types numbered by structure and marked where they hold a variable, and the code of the
// root's return type.
#[derive(Clone, Copy)]
pub struct Env<'a> {
    pub pack: &'a [u8],
    pub counts: Counts,
    pub names: &'a [u16; NameIndex::CAPACITY],
    pub same: &'a [u32; TypeTable::CAPACITY],
    pub marks: &'a [u32; TypeTable::CAPACITY],
    pub ret: u32,
    ghost returns: { Coded 0 ret },
    ghost marked: { Marked pack.now counts same.now marks.now },
    ghost indexed: { Indexed pack.now counts names.now },
}

// The cells of the variables, the slots, and what is noted of each node.
#[derive(Drop)]
pub struct State<'a> {
    pub cells: &'a mut [u32; UnionFind::CAPACITY],
    pub slots: &'a mut [u32; Slots::CAPACITY],
    pub notes: &'a mut [u32; Notes::CAPACITY],
}
