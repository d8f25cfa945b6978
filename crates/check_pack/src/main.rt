// Checks the rule pack on standard input, and prints a line for each part that passes:
//
//     types ok
//     roots N
//     order V V ..
//
// A refusal prints `refused NUMBER PLACE DETAIL`, and nothing comes after it.
#![tactic(auto)]

mod lines;
mod whole;

use crate::lines::say_verdict;
use crate::whole::{AREA, check_whole};
use std::io;
use stdio::read_full;

// A byte more than the longest pack has, so that a longer input is seen to be longer: it is refused as 2, 3 or 4.
const ROOM: usize = 65537;

fn main(rt: HostRuntime) -> io::Result<()> {
    let mut room = [0u8; ROOM];
    let n = read_full(&mut rt.stdin(), &mut room)?;
    let mut area = [0u8; AREA];
    let verdict = check_whole(&room[..n], &mut area);
    say_verdict(&rt, verdict, &area)
}
