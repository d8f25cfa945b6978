// Asking a pack.
use crate::answers::{Answer, numbers_of};
use entries::{rulepack_order, rulepack_root, rulepack_types};
use formed::formed;

// The bytes of the result area: more than the 4 for each expression that the largest root takes.
pub const AREA: usize = 16400;

// What the area holds before. No value's number has it as its first byte.
pub const FILL: u8 = 165;

// What place and detail are before: no answer has them.
const OLD_PLACE: u32 = u32::MAX;

const OLD_DETAIL: u64 = u64::MAX;

// What is asked of a pack. `replay` asks the three entries alone; a crate that both stand on would be longer than what they share.
#[derive(Clone, Copy)]
pub enum Asks {
    Formed,
    Types,
    Root(u64),
    Order,
}

impl Asks {
    // Whether the entry writes to the result area.
    pub fn writes(self) -> bool {
        matches!(self, Asks::Root(_) | Asks::Order)
    }
}

fn answer_of(number: u32, place: u32, detail: u64) -> Answer {
    Answer {
        number: number as u64,
        place: place as u64,
        detail: detail,
    }
}

fn types_of(pack: &[u8]) -> Answer {
    let mut place = OLD_PLACE;
    let mut detail = OLD_DETAIL;
    let number = rulepack_types(pack, &mut place, &mut detail);
    answer_of(number, place, detail)
}

fn root_of(pack: &[u8], root: u64, area: &mut [u8]) -> Answer {
    let mut place = OLD_PLACE;
    let mut detail = OLD_DETAIL;
    let number = rulepack_root(pack, root, area, &mut place, &mut detail);
    answer_of(number, place, detail)
}

fn order_of(pack: &[u8], area: &mut [u8]) -> Answer {
    let mut place = OLD_PLACE;
    let mut detail = OLD_DETAIL;
    let number = rulepack_order(pack, area, &mut place, &mut detail);
    answer_of(number, place, detail)
}

// What is answered, and written to the part of the result area that is lent.
pub(crate) fn answer(asks: Asks, pack: &[u8], area: &mut [u8]) -> Answer {
    match asks {
        Asks::Formed => numbers_of(formed(pack)),
        Asks::Types => types_of(pack),
        Asks::Root(root) => root_of(pack, root, area),
        Asks::Order => order_of(pack, area),
    }
}
