//! Packed blocks: the plain bytes of one, the packing of plain bytes where that makes their record shorter, and the writing of packed bytes.
#![tactic(auto)]

mod packing;
#[cfg(test)]
mod tests;
mod unpacking;
mod writing;

pub use packing::pack_block;
pub use unpacking::{read_packed, read_unpacked, unpack};
pub use writing::write_packed;
