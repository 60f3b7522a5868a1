//! What the records of an image take.

/// The bytes of an image, and what its records take of them: used ones, those of the unused list, and unused ones that are on no list.
#[derive(Clone, Copy, Debug, PartialEq, Eq)]
pub struct Space {
    /// The bytes of the image, the 8 before its first record among them.
    pub eof: u64,
    /// The bytes of the records that are used.
    pub used: u64,
    /// The number of records on the unused list, and their bytes.
    pub listed: u64,
    pub listed_bytes: u64,
    /// The number of unused records that are on no list, and their bytes.
    pub unlisted: u64,
    pub unlisted_bytes: u64,
}
