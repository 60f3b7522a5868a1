//! Where a walk over the events of a data set stands.

use crate::Kind;

/// Which event comes next. Records are told by their numbers, so that none before has to be counted.
#[derive(Clone, Copy, Debug, PartialEq, Eq)]
pub enum Spot {
    /// The head.
    Head,
    /// An attribute, if there is one of this number.
    Attr { num: u32 },
    /// Of an attribute the entry of `g` behind so many.
    OwnEntry { num: u32, at: u32 },
    /// Of an attribute the entry of `z` behind so many.
    ZEntry { num: u32, at: u32 },
    /// A variable, if there is one of this number.
    Var { kind: Kind, num: u32 },
    /// Of a variable the first record from a number on.
    Rec { kind: Kind, num: u32, from: u32 },
    /// The counts.
    End,
    /// No event.
    Behind,
}
