//! The blocks of packed variables: one is found with the entry that names it, and given other plain bytes, or those of some of its records, packed where that makes its record shorter.
#![tactic(auto)]

mod blocks;
mod bodies;
mod laws;
mod overwriting;
mod placing;
mod reading;
mod shortening;
mod sites;
mod storing;

pub use blocks::write_block;
pub use bodies::block_body;
pub use placing::{Part, Site};
pub use reading::{block_size, read_plain};
pub use shortening::shorten_block;
pub use sites::{SitedLeaf, find_site};
