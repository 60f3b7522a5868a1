//! What the bytes of a file mean: fields, the rules of a well-formed file, and the data set that it holds.
#![tactic(auto)]

pub mod fields;
pub mod flags;
pub mod laws;
