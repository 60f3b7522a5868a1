//! Writes the compact image of a data set: each record behind the one before, and nothing unused.
#![tactic(auto)]

mod appending;
mod attributes;
mod blocks;
mod bodies;
mod index;
pub mod laws;
mod lists;
mod opening;
mod progress;
mod taking;
mod variables;
mod writer;

pub use appending::WriteStop;
pub use writer::Writer;
