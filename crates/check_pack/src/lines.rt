// The lines that the program prints, each piece of a line by a write of its own: where a write fails, all pieces before it are out.
use crate::whole::Verdict;
use laws::Refusal;
use pack::Counts;
use std::io;

fn say_types(rt: &impl Print) -> io::Result<()> {
    println!(rt; "types ok")
}

fn say_roots(rt: &impl Print, c: Counts) -> io::Result<()> {
    print!(rt; "roots ")?;
    print!(rt; "{}", c.roots)?;
    println!(rt; "")
}

fn say_refusal(rt: &impl Print, r: Refusal) -> io::Result<()> {
    print!(rt; "refused ")?;
    print!(rt; "{}", r.fault.number())?;
    print!(rt; " ")?;
    print!(rt; "{}", r.place)?;
    print!(rt; " ")?;
    print!(rt; "{}", r.detail)?;
    println!(rt; "")
}

// The numbers of the values, which the area has in two bytes each.
fn say_order(rt: &impl Print, c: Counts, area: &[u8]) -> io::Result<()> {
    print!(rt; "order")?;
    for pair in area.as_chunks::<2>().0.iter().take(c.values as usize) {
        print!(rt; " ")?;
        print!(rt; "{}", u16::from_be_bytes(*pair))?;
    }
    println!(rt; "")
}

pub(crate) fn say_verdict(rt: &impl Print, verdict: Verdict, area: &[u8]) -> io::Result<()> {
    match verdict {
        Verdict::NoTypes(r) => say_refusal(rt, r),
        Verdict::NoRoot(r) => {
            say_types(rt)?;
            say_refusal(rt, r)
        }
        Verdict::NoOrder(c, r) => {
            say_types(rt)?;
            say_roots(rt, c)?;
            say_refusal(rt, r)
        }
        Verdict::Passed(c) => {
            say_types(rt)?;
            say_roots(rt, c)?;
            say_order(rt, c, area)
        }
    }
}
