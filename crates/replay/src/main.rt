// Runs recorded answers of the Rust that document 01 follows, and says which of ours differ. host/README.md says how they were recorded.
//
// The standard input has the cases as hexadecimal digits, with comments from `#` to the end of a line. A case is, in bytes:
//
//     entry 1 (0 types, 1 root, 2 order), root 1, number 1, place 2, detail 6: what was asked and answered
//     room 2: the bytes of the result area
//     length 2, then as many bytes: the pack
//     count 2, then as many times 4: a place in the area, in units of 2 bytes, and the 2 bytes that stand there after it
//
// All else of the area has to stay as it was. A line is written for each case that differs, and a last one with the sums.
#![tactic(auto)]

mod asks;
mod cases;
mod digits;
mod lines;
mod run;

use crate::run::run_all;
use std::io;
use std::io::Read;
use stdio::read_full;

// More than the digits take.
const MAX_TEXT: usize = 524288;

// Reads the text into that room, and runs its cases.
fn run_input(rt: &impl Print, input: &mut impl Read, text: &mut [u8; MAX_TEXT]) -> io::Result<()> {
    let n = read_full(input, text)?;
    if n < MAX_TEXT {
        run_all(rt, &text[..n])
    } else {
        println!(rt; "the text is too long")
    }
}

fn main(rt: HostRuntime) -> io::Result<()> {
    let mut text = [0u8; MAX_TEXT];
    run_input(&rt, &mut rt.stdin(), &mut text)
}
