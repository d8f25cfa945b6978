// A match: what its examinee is, what is wrong with an arm, and which variants no arm covers.
ghost use Rattle.std.specs.Prelude.{◌≡◌, false, ◌<◌};
ghost use Rattle.pack.specs.Lists.{list_len};
ghost use Rattle.names.specs.Index.{Indexed};
ghost use Rattle.members.specs.Places.{any};
ghost use Rattle.arms.specs.Free.{arm_has, is_free};
ghost use Rattle.arms.specs.Match.{wild, subject_for, subject_of, payload_fault, arm_fault, missing_variants};

use crate::answer::Subject;
use laws::Fault;
use members::{any_marked, name_at, named};
use names::{NameIndex, find_pair, next_item};
use pack::{Counts, DefinitionKind, DefinitionRow, definition_row, list_item, list_len};
use structure::TypeTable;

// What stands for a variant's name in an arm of `_`.
const WILD: u32 = 16383;

#[tactic(auto, unfolding(crate::specs::Match::subject_for, laws::specs::Choice::pick))]
fn subject_for(row: DefinitionRow) -> Subject
    ensures { result ≡ subject_for row }
{
    if row.kind == DefinitionKind::Enum as u32 {
        if row.parameters == 0 {
            Subject::Enum(row.list)
        } else {
            Subject::Generic
        }
    } else {
        Subject::Other
    }
}

#[tactic(auto, unfolding(crate::specs::Match::subject_of))]
pub fn examined(pack: &[u8], c: Counts, x: u32) -> Subject
    ensures { result ≡ subject_of pack.now c x }
{
    match named(pack, x) {
        None => Subject::Other,
        Some(definition) => subject_for(definition_row(pack, c, definition)),
    }
}

// 27 to 29 and 35: the list of the variant's field types, and the arm's slot list+1 or 0.
#[tactic(auto, unfolding(crate::specs::Match::payload_fault, laws::specs::Choice::pick))]
fn payload_fault(
    pack: &[u8],
    c: Counts,
    marks: &[u32; TypeTable::CAPACITY],
    fields: u32,
    payload: u32,
) -> Option<Fault>
    ensures { result ≡ payload_fault pack.now c marks.now fields payload }
{
    let n = list_len(pack, c, fields);
    if payload == 0 {
        if n == 0 {
            None
        } else {
            Some(Fault::PayloadMissing)
        }
    } else if n == 0 {
        Some(Fault::PayloadGiven)
    } else if list_len(pack, c, payload - 1) != n {
        Some(Fault::PayloadLength)
    } else if any_marked(pack, c, marks, fields) {
        Some(Fault::HoldsVariable)
    } else {
        None
    }
}

// The first fault of an arm's pattern, if it has one.
#[tactic(auto, unfolding(crate::specs::Match::arm_fault, members::specs::Lookup::is_member, members::specs::Lookup::member_of, laws::specs::Choice::pick))]
pub fn arm_fault(
    pack: &[u8],
    c: Counts,
    names: &[u16; NameIndex::CAPACITY],
    marks: &[u32; TypeTable::CAPACITY],
    list: u32,
    name: u32,
    payload: u32,
) -> Option<Fault>
    requires { Indexed pack.now c names.now }
    ensures { result ≡ arm_fault pack.now c marks.now list name payload }
{
    if name == WILD {
        None
    } else {
        let n = list_len(pack, c, list);
        let k = find_pair(pack, c, names, list, name);
        if k < n {
            let fields = list_item(pack, c, list, 2 * k + 1);
            payload_fault(pack, c, marks, fields, payload)
        } else {
            Some(Fault::NoSuchVariant)
        }
    }
}

// Whether item 2k of the arms is the name of one that has no guard.
#[tactic(auto, unfolding(crate::specs::Free::is_free))]
fn is_free(pack: &[u8], c: Counts, arms: u32, k: u32) -> bool
    requires { k < 131072 }
    ensures { result ≡ is_free pack.now c arms k }
{
    let guard = list_item(pack, c, arms, 2 * k + 2);
    k % 2 == 0 && guard == 0
}

// Whether an arm without a guard has that name, or that of `_`.
fn has_free(
    pack: &[u8],
    c: Counts,
    names: &[u16; NameIndex::CAPACITY],
    arms: u32,
    name: u32,
) -> bool
    requires { Indexed pack.now c names.now }
    ensures { result ≡ any (arm_has pack.now c arms name) (list_len pack.now c arms) }
{
    let n = 2 * list_len(pack, c, arms);
    let mut k = next_item(pack, c, names, arms, 0, n, name);
    while k < n {
        if is_free(pack, c, arms, k) {
            return true;
        }
        k = next_item(pack, c, names, arms, k + 1, n, name);
    }
    false
}

// How many variants no arm has, where none is of `_` without a guard.
fn count_missing(
    pack: &[u8],
    c: Counts,
    names: &[u16; NameIndex::CAPACITY],
    list: u32,
    arms: u32,
) -> u32
    requires { Indexed pack.now c names.now × (any (arm_has pack.now c arms wild) (list_len pack.now c arms) ≡ false) }
    ensures { result ≡ missing_variants pack.now c list arms }
{
    (0..list_len(pack, c, list))
        .filter(|k| !has_free(pack, c, names, arms, name_at(pack, c, list, *k)))
        .count() as u32
}

// How many variants no arm covers.
pub fn missing_variants(
    pack: &[u8],
    c: Counts,
    names: &[u16; NameIndex::CAPACITY],
    list: u32,
    arms: u32,
) -> u32
    requires { Indexed pack.now c names.now }
    ensures { result ≡ missing_variants pack.now c list arms }
{
    if has_free(pack, c, names, arms, WILD) {
        0
    } else {
        count_missing(pack, c, names, list, arms)
    }
}
