// Union-find run from a script, so that a host can compare it with another: for tests alone, no rule calls it.
#![tactic(auto)]

mod operations;
mod replay;

pub use replay::cells_replay;
