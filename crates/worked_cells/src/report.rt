// What the program writes, each piece of a line by a write of its own: where a write fails, all pieces before it are out.
use std::io;
use stdio::Tally;

pub(crate) fn sums(rt: &impl Print, tally: Tally) -> io::Result<()> {
    print!(rt; "{}", tally.cases)?;
    print!(rt; " cases, ")?;
    print!(rt; "{}", tally.differ)?;
    println!(rt; " differ")
}

// The line of a group, and the sums with it.
pub(crate) fn group(rt: &impl Print, name: &str, tally: Tally, all: Tally) -> io::Result<Tally> {
    print!(rt; "{name}")?;
    print!(rt; ": ")?;
    sums(rt, tally)?;
    Ok(all.plus(tally))
}
