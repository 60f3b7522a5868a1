//! The parts of the content of a data set, as they are shown.

use crate::{Bytes, DataType, EntryKind, Head, Kind, Nums, Scope, Sparse, Varys};

/// A part of the content of a data set, as it is shown one after the other. All bytes are in network order.
#[derive(Drop)]
pub enum Event {
    Head {
        head: Head,
    },
    Attr {
        num: u32,
        name: Bytes,
        scope: Scope,
    },
    /// An entry of the attribute shown last.
    Entry {
        kind: EntryKind,
        num: u32,
        t: DataType,
        elems: u32,
        bytes: Bytes,
    },
    Var {
        kind: Kind,
        num: u32,
        name: Bytes,
        t: DataType,
        /// The number of elements of a value.
        elems: u32,
        /// Whether records vary.
        vary: bool,
        dims: Nums,
        varys: Varys,
        sparse: Sparse,
        rle: bool,
        blocking: i32,
        /// The greatest record number, -1 without records.
        max_rec: i32,
        has_pad: bool,
        /// The bytes of a value, if there is a pad value.
        pad: Bytes,
    },
    /// A stored record of the variable shown last.
    Rec {
        num: u32,
        t: DataType,
        elems: u32,
        bytes: Bytes,
    },
    /// How many attributes, variables and records were shown.
    End {
        attrs: u32,
        vars: u32,
        recs: u64,
    },
}
