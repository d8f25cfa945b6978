// Runs cases of union-find and unify, and says how many answers are not the ones that document 01 gives.
// It writes a line for each group as soon as that has run, and a last one with the sums.
#![tactic(auto)]

mod answers;
mod chain;
mod pairs;
mod refusals;
mod report;
mod sides;
mod tables;
mod vars;
mod wants;

use crate::chain::chain;
use crate::refusals::{full, loops, own, unknown};
use crate::report::{group, sums};
use crate::tables::{kinds, links, numbers, selves};
use std::io;
use stdio::Tally;

fn main(rt: HostRuntime) -> io::Result<()> {
    let mut all = Tally::none();
    all = group(&rt, "chain", chain(), all)?;
    all = group(&rt, "full", full(), all)?;
    all = group(&rt, "unknown", unknown(), all)?;
    all = group(&rt, "loops", loops(), all)?;
    all = group(&rt, "own", own(), all)?;
    all = group(&rt, "kinds", kinds(), all)?;
    all = group(&rt, "numbers", numbers(), all)?;
    all = group(&rt, "selves", selves(), all)?;
    all = group(&rt, "links", links(), all)?;
    sums(&rt, all)
}
