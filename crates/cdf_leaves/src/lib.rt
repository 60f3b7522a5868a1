//! A leaf added to the index of a variable: its block is placed, and its entry put into the node where it belongs.
#![tactic(auto)]

mod adding;
mod making;
mod putting;
mod tail;
mod widening;

pub use adding::add_leaf;
