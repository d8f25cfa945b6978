// What the program writes: each piece of a line by a write of its own.
use crate::answers::Answer;
use std::io;
use stdio::Tally;

fn say_number(rt: &impl Print, n: u64) -> io::Result<()> {
    print!(rt; "{n}")
}

fn say_answer(rt: &impl Print, a: Answer) -> io::Result<()> {
    say_number(rt, a.number)?;
    rt.write_all(b" ")?;
    say_number(rt, a.place)?;
    rt.write_all(b" ")?;
    say_number(rt, a.detail)
}

fn say_line(rt: &impl Print, line: u64) -> io::Result<()> {
    rt.write_all(b"line ")?;
    say_number(rt, line)
}

pub(crate) fn differs(rt: &impl Print, line: u64, wanted: Answer, came: Answer) -> io::Result<()> {
    say_line(rt, line)?;
    rt.write_all(b": wanted ")?;
    say_answer(rt, wanted)?;
    rt.write_all(b", came ")?;
    say_answer(rt, came)?;
    rt.write_all(b"\n")
}

pub(crate) fn area_differs(rt: &impl Print, line: u64) -> io::Result<()> {
    say_line(rt, line)?;
    rt.write_all(b": the result area differs\n")
}

pub(crate) fn not_understood(rt: &impl Print, line: u64) -> io::Result<()> {
    say_line(rt, line)?;
    rt.write_all(b": not understood\n")
}

pub(crate) fn nothing_asked(rt: &impl Print, line: u64) -> io::Result<()> {
    say_line(rt, line)?;
    rt.write_all(b": the case before asks nothing\n")
}

pub(crate) fn sums(rt: &impl Print, tally: Tally) -> io::Result<()> {
    say_number(rt, tally.cases)?;
    rt.write_all(b" cases, ")?;
    say_number(rt, tally.differ)?;
    rt.write_all(b" differ\n")
}

pub(crate) fn group_sums(rt: &impl Print, name: &[u8], tally: Tally) -> io::Result<()> {
    rt.write_all(name)?;
    rt.write_all(b": ")?;
    sums(rt, tally)
}

pub(crate) fn too_long(rt: &impl Print) -> io::Result<()> {
    rt.write_all(b"the text is too long\n")
}
