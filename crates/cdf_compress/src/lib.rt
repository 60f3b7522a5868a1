//! Packing of a variable without records turned on and off: `set_compression`.
#![tactic(auto)]

mod compressing;
mod emptying;
mod repacking;

pub use compressing::set_compression;
