//! What the blocks of a variable have from a record on is cut out, where the index is known to have no empty node: then only its end is read.
#![tactic(auto)]

mod last_entry;
mod trimming;

pub use last_entry::{LastEntry, find_last_entry};
pub use trimming::trim_past;
