//! The commands of a script.

use crate::{Bytes, DataType, EntryKind, Majority, Nums, Scope, Sparse, Varys, Words};

/// A command of a script. Names, values and texts are bytes.
#[derive(Drop)]
pub enum Command {
    /// The head of the data set.
    Info,
    /// The attributes, r variables and z variables, by number.
    List,
    /// A new last attribute.
    Attr {
        name: Bytes,
        scope: Scope,
    },
    /// Another name for an attribute.
    RenameAttr {
        from: Bytes,
        to: Bytes,
    },
    /// An attribute goes, with its entries.
    DelAttr {
        name: Bytes,
    },
    /// An entry of an attribute is made or replaced.
    PutEntry {
        attr: Bytes,
        kind: EntryKind,
        num: u32,
        t: DataType,
        words: Words,
    },
    /// The type, the number of elements and the values of an entry.
    GetEntry {
        attr: Bytes,
        kind: EntryKind,
        num: u32,
    },
    /// An entry goes.
    DelEntry {
        attr: Bytes,
        kind: EntryKind,
        num: u32,
    },
    /// The code of the encoding, the majority, and the dimensions that the r variables share.
    Setup {
        encoding: u32,
        majority: Majority,
        dims: Nums,
    },
    /// A new last r variable.
    RVar {
        name: Bytes,
        t: DataType,
        elems: u32,
        vary: bool,
        varys: Varys,
    },
    /// A new last z variable, with dimensions of its own.
    ZVar {
        name: Bytes,
        t: DataType,
        elems: u32,
        vary: bool,
        dims: Nums,
        varys: Varys,
    },
    /// Another name for a variable.
    RenameVar {
        from: Bytes,
        to: Bytes,
    },
    /// A variable goes, with its records and entries.
    DelVar {
        name: Bytes,
    },
    /// The pad value of a variable.
    SetPad {
        var: Bytes,
        words: Words,
    },
    /// How a variable's missing records are read.
    SetSparse {
        var: Bytes,
        rule: Sparse,
    },
    /// Whether the records of a variable are packed as run lengths of zeros.
    SetCompress {
        var: Bytes,
        rle: bool,
    },
    /// How many records a new block of a variable has.
    SetBlocking {
        var: Bytes,
        n: u32,
    },
    /// A record is written.
    PutRec {
        var: Bytes,
        rec: u32,
        words: Words,
    },
    /// A record is read.
    GetRec {
        var: Bytes,
        rec: u32,
    },
    /// The records from the first to the last number go.
    DelRecs {
        var: Bytes,
        first: u32,
        last: u32,
    },
    /// One value of a record is written.
    PutVal {
        var: Bytes,
        rec: u32,
        index: Nums,
        words: Words,
    },
    /// One value of a record is read.
    GetVal {
        var: Bytes,
        rec: u32,
        index: Nums,
    },
    /// The index of a variable's records is made anew.
    Reindex {
        var: Bytes,
    },
    /// Whether the file ends with a checksum.
    Checksum {
        md5: bool,
    },
    /// The whole content.
    Dump,
    /// What the taps of a name make of the content: a tap is shown the content part by part, and makes a text of it.
    Report {
        tap: Bytes,
    },
}
