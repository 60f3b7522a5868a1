//! The kinds of attributes, entries, variables and missing records.

/// What an attribute describes: the file, or each variable by itself. An assumed scope counts as the one that it names.
#[derive(Clone, Copy, Debug, PartialEq, Eq)]
pub enum Scope {
    Global,
    Variable,
    GlobalAssumed,
    VariableAssumed,
}

/// The kind of a variable: an r variable shares its dimensions with all others of its kind, a z variable has its own.
#[derive(Clone, Copy, Debug, PartialEq, Eq)]
pub enum Kind {
    R,
    Z,
}

/// What an entry of an attribute belongs to: the file, an r variable or a z variable.
#[derive(Clone, Copy, Debug, PartialEq, Eq)]
pub enum EntryKind {
    G,
    R,
    Z,
}

/// How a record is read that a variable lacks up to its greatest number: as the pad value, without a rule too, or as the stored record before.
#[derive(Clone, Copy, Debug, PartialEq, Eq)]
pub enum Sparse {
    NoRule,
    Pad,
    Previous,
}
