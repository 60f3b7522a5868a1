//! An index made anew: nodes of 64 entries, level by level.
#![tactic(auto)]

pub mod laws;
mod pyramid;
mod reindexing;

pub use pyramid::{NODE_ENTRIES, NODE_SIZE};
pub use reindexing::reindex;
