//! Records cut out of packed variables: a block of which some records go is given the plain bytes of the others first, packed or not.
#![tactic(auto)]

mod past;

pub use past::{cut_packed_past, find_split};
