//! The head of a data set.

use crate::Nums;

/// Which index moves fastest through the values of a record: the last one in row majority, the first one in column majority.
#[derive(Clone, Copy, Debug, PartialEq, Eq)]
pub enum Majority {
    Row,
    Column,
}

/// The head of a data set, as `info` shows it.
#[derive(Drop)]
pub struct Head {
    pub version: i32,
    pub release: i32,
    pub increment: i32,
    /// The code of the encoding.
    pub encoding: u32,
    pub majority: Majority,
    /// Whether a checksum is in use.
    pub md5: bool,
    /// The sizes of the dimensions that the r variables share.
    pub rdims: Nums,
    /// The number of attributes, r variables and z variables.
    pub attrs: u32,
    pub rvars: u32,
    pub zvars: u32,
}
