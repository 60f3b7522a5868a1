//! Worked examples of what is read and written as text: lines of a script, words as values, and replies; and of packed bytes.
#![tactic(auto)]

pub mod lines;
pub mod packing;
pub mod texts;
pub mod values;
