// Asking an entry, and holding its answer and the area to what was recorded.
use crate::cases::{Answer, Asks, Case};
use entries::{rulepack_order, rulepack_root, rulepack_types};

// The bytes of the longest result area that a case has.
const AREA: usize = 16384;

// What the area holds before.
const FILL: u8 = 165;

// What an entry answers, and writes to the area. Place and detail hold other numbers before.
fn answer(asks: Asks, pack: &[u8], area: &mut [u8]) -> Answer {
    let mut place = u32::MAX;
    let mut detail = u64::MAX;
    let number = match asks {
        Asks::Types => rulepack_types(pack, &mut place, &mut detail),
        Asks::Root(root) => rulepack_root(pack, root, area, &mut place, &mut detail),
        Asks::Order => rulepack_order(pack, area, &mut place, &mut detail),
    };
    Answer {
        number,
        place,
        detail,
    }
}

// The recorded bytes of the area, two at each place.
fn fill(writes: &[u8], area: &mut [u8; AREA]) {
    let (pairs, _) = area.as_chunks_mut::<2>();
    for write in writes.as_chunks::<4>().0 {
        let [high, low, first, second] = *write;
        if let Some(pair) = pairs.get_mut(u16::from_be_bytes([high, low]) as usize) {
            *pair = [first, second];
        }
    }
}

// Whether answer and area are as recorded.
pub(crate) fn is_recorded(case: &Case<'_>) -> bool {
    let mut wanted = [FILL; AREA];
    fill(case.writes, &mut wanted);
    let mut area = [FILL; AREA];
    match area.get_mut(..case.room) {
        None => false,
        Some(lent) => answer(case.asks, case.pack, lent) == case.answer && area == wanted,
    }
}
