//! What a command answers, and why it is refused.

use crate::{Bytes, DataType, Head, Items};

/// What a command answers that is done.
#[derive(Drop)]
pub enum Reply {
    /// Nothing but that it is done.
    Plain,
    /// What `info` shows.
    Head {
        head: Head,
    },
    /// What `list` shows.
    Listing {
        items: Items,
    },
    /// An entry of an attribute: its value in network order.
    Entry {
        t: DataType,
        elems: u32,
        bytes: Bytes,
    },
    /// Values of a variable in network order, each of so many elements.
    Values {
        t: DataType,
        elems: u32,
        bytes: Bytes,
    },
}

/// The one fault of a line that is no command, and at which byte of the line it stands.
#[derive(Clone, Copy, Debug, PartialEq, Eq)]
pub enum LineError {
    /// The line has more than 16,777,216 bytes.
    TooLong { at: u64 },
    /// A quoted word that is not closed, a quote within a bare word, a byte directly after a closing quote, or an escape that is not known.
    BadQuote { at: u64 },
    /// `\x` without two hexadecimal digits.
    BadHex { at: u64 },
    /// A word that is none of those that can stand there.
    UnknownWord { at: u64 },
    /// A word more is wanted.
    MissingWord { at: u64 },
    /// There is a word too many.
    ExtraWord { at: u64 },
    /// A word that is no number, or a list of numbers that has one that is none.
    BadNumber { at: u64 },
}

/// Why a command is refused. The number of a reason is its place here, counted from 1.
#[derive(Clone, Copy, Debug, PartialEq, Eq)]
pub enum Reason {
    BadLine { fault: LineError },
    NoSuchAttr,
    NoSuchVar,
    NoSuchTap,
    BadName,
    NameTaken,
    WrongScope,
    NoSuchEntry,
    NumberOutOfRange,
    BadShape,
    WrongCount { found: u64, wanted: u64 },
    BadValue { at: u64 },
    IndexOutOfRange,
    RecordOutOfRange,
    InUse,
    TooLarge,
}

/// What a line comes to that asks for something.
#[derive(Drop)]
pub enum Outcome {
    Done { reply: Reply },
    Refused { reason: Reason },
}
