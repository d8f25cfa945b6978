// The report of a root: the words of its nodes, met one after the other as its tree has them, so that a report costs what its root has.
#![tactic(auto)]

mod kids;
mod tree;

pub use tree::write_root;
