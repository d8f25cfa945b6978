// Lines of more than one piece, each piece by a write of its own: where a write fails, all pieces before it are out.
use std::io;
use stdio::Tally;

pub(crate) fn differs(rt: &impl Print, case: u64) -> io::Result<()> {
    print!(rt; "case ")?;
    print!(rt; "{case}")?;
    println!(rt; " differs")
}

pub(crate) fn sums(rt: &impl Print, tally: Tally) -> io::Result<()> {
    print!(rt; "{}", tally.cases)?;
    print!(rt; " cases, ")?;
    print!(rt; "{}", tally.differ)?;
    println!(rt; " differ")
}
