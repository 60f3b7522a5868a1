//! Scripts that are generated from a number, for trials.
#![tactic(auto)]

mod line;
mod script;
#[cfg(test)]
mod tests;

pub use script::{MOST_LINES, script_of};
