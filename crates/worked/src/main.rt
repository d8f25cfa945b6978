// Runs the cases of its standard input, and says where an answer is not the one that document 01 gives.
//
// The cases are text: words with blanks or line ends between them, and comments from `#` to the end of a line.
//
//     group NAME        the cases from here on are counted under this name
//     case              a new case, whose pack has no bytes yet
//     HEX               an even number of the digits 0 to 9 and A to F: these bytes come next in the pack
//     N*HEX             the same bytes, N times
//     N*HEX+STEP        at most 16 bytes and as many of a step: N times, each time by the step more, as one number
//     room N            the first N bytes of the result area are lent to the entry, and not all of it
//     area              the bytes from here to the next case are not the pack's: the result area has to begin with them
//     formed N P D      `formed` refuses the pack with number N, place P and detail D; 0 0 0: the pack is well-formed
//     types N P D       the types entry answers so; 0 0 0 is a report
//     root R N P D      the root entry answers so for root R
//     order N P D       the order entry answers so
//
// After `root` and `order` the result area holds the bytes of `area`, if there are any, and past them what it held before.
//
// It writes a line for each group, and a last one with the sums. An answer that differs, and a word that is none of
// these, has a line of its own before them, with its line in the text.
#![tactic(auto)]

mod answers;
mod asks;
mod build;
mod lines;
mod run;
mod state;

use crate::lines::too_long;
use crate::run::run_all;
use std::io;
use std::io::Read;
use stdio::read_full;

// More than the text of the cases takes.
const MAX_TEXT: usize = 262144;

// Reads the text into that room, and runs its cases.
fn run_input(rt: &impl Print, input: &mut impl Read, text: &mut [u8; MAX_TEXT]) -> io::Result<()> {
    let n = read_full(input, text)?;
    if n < MAX_TEXT {
        run_all(rt, &text[..n])
    } else {
        too_long(rt)
    }
}

fn main(rt: HostRuntime) -> io::Result<()> {
    let mut text = [0u8; MAX_TEXT];
    run_input(&rt, &mut rt.stdin(), &mut text)
}
