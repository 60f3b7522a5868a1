//! The chains of a file.

/// A chain of records, by what leads to it: the attributes and the variables of the file, and the entries of an attribute whose
/// descriptor stands at a place.
#[derive(Clone, Copy, Debug, PartialEq, Eq)]
pub enum Chain {
    Attrs,
    RVars,
    ZVars,
    GrEntries { adr: u64 },
    ZEntries { adr: u64 },
}
