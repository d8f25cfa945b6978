// What 12, 15 and 13 ask of expressions: how often each is named, where it stands and how deep, noted in one walk over all rows.
#![tactic(auto)]

mod hops;
mod kids;
mod node_test;
mod notes;
mod trees;

pub use node_test::NodeTest;
pub use notes::Notes;
