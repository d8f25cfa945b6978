// Expressions: module 4 of document 01.
#![tactic(auto)]

mod answer;
mod notes;
mod payload;
mod root;
mod rules;
mod state;
mod types;

pub use root::check_root;
