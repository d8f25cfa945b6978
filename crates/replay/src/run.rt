// Running the cases, and counting them.
use crate::asks::is_recorded;
use crate::cases::first_case;
use crate::digits::decode;
use crate::lines::{differs, sums};
use std::io;
use stdio::{Buffer, Tally};

// More than the bytes of all cases.
const ROOM: usize = 262144;

// The cases one after the other.
fn run_in(rt: &impl Print, bytes: &[u8]) -> io::Result<()> {
    let mut tally = Tally::none();
    let mut rest = bytes;
    while !rest.is_empty() {
        let Some((case, after)) = first_case(rest) else {
            return println!(rt; "the last case is cut");
        };
        let ok = is_recorded(&case);
        tally.count(ok);
        if !ok {
            differs(rt, tally.cases)?;
        }
        rest = after;
    }
    sums(rt, tally)
}

pub(crate) fn run_all(rt: &impl Print, text: &[u8]) -> io::Result<()> {
    let mut bytes = Buffer::<ROOM>::empty();
    decode(text, &mut bytes);
    run_in(rt, bytes.bytes())
}
