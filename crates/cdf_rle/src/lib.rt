//! Run lengths of zeros, in which the records of a compressed variable are kept: a byte 0 and a count n stand for n + 1 zeros, every other byte for itself.
#![tactic(auto)]

pub mod laws;
mod packing;
mod reading;
mod stretches;

pub use packing::encode;
pub use reading::{RleError, decode_into};
