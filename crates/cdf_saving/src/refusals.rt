//! The lines of a script that were refused.

ghost use Rattle.std.specs.Prelude.{◌≡◌, ◌||◌, is_some, false};
ghost use Rattle.cdf_saving.specs.Refusing.{was_refused};

use cdf_model::Reason;

/// What a refused line looks like, where that tells more than the reason.
#[derive(Clone, Copy, Debug, PartialEq, Eq)]
pub enum LineMark {
    /// The line ends in a carriage return.
    CarriageReturn,
    /// The line begins with the mark of a text in UTF-8.
    ByteOrderMark,
    /// The line begins with the mark of a text in UTF-16.
    Utf16,
    /// The line asks for a command that there is not yet.
    NotYet,
}

/// Which of the conditions that a reason stands for a line does not meet.
#[derive(Clone, Copy, Debug, PartialEq, Eq)]
pub enum Condition {
    /// A value has at least one element.
    SomeElements,
    /// A value whose type is not CHAR or UCHAR has one element, and not so many.
    OneElement(u32),
    /// There are at most 10 dimensions, and not so many.
    FewDimensions(u64),
    /// Each dimension has a size from 1 to 2,147,483,647; the one of this number, counted from 0, has this size.
    DimensionSize { number: u64, size: u32 },
    /// VARYS has a letter for each dimension.
    Letters { letters: u64, dimensions: u64 },
    /// A record has at most 67,108,864 bytes.
    RecordSize,
    /// An encoding has this number.
    Encoding(u32),
    /// A number of 31 bits; this one is larger.
    Signed(u32),
    /// The number of an entry of the file is at most 2,147,483,646.
    EntryNumber(u32),
    /// An r variable has this number.
    RVariable(u32),
    /// A z variable has this number.
    ZVariable(u32),
    /// The file has no attribute and no variable.
    EmptyFile,
}

/// What a line is refused for, where that tells more than the reason.
#[derive(Clone, Copy, Debug, PartialEq, Eq)]
pub struct BrokenCondition {
    pub condition: Condition,
    /// The word of the line that is meant, if it is one; the name of the command is word 1.
    pub word: Option<u8>,
}

/// A line that was refused.
#[derive(Clone, Copy, Debug, PartialEq, Eq)]
pub struct RefusedLine {
    /// Counted from 1.
    pub number: u64,
    pub reason: Reason,
    pub broken: Option<BrokenCondition>,
    pub mark: Option<LineMark>,
}

/// The lines that were refused.
#[derive(Clone, Copy, Debug, PartialEq, Eq)]
pub struct Refusals {
    /// How many lines were answered; a blank line is not.
    pub answered: u64,
    /// How many of them were refused.
    pub refused: u64,
    /// The first line that was refused.
    pub first: Option<RefusedLine>,
}

impl Refusals {
    /// No line was answered.
    pub fn none() -> Refusals
        ensures { was_refused result ≡ false }
    {
        Refusals {
            answered: 0,
            refused: 0,
            first: None,
        }
    }

    /// A line was answered, and refused or not.
    pub fn count(&mut self, refused: Option<RefusedLine>)
        ensures { was_refused self.new ≡ (was_refused self.old || is_some refused) }
    {
        self.answered = self.answered.saturating_add(1);
        if refused.is_some() {
            self.refused = self.refused.saturating_add(1);
        }
        self.first = self.first.or(refused);
    }

    /// Further lines were answered.
    pub fn join(&mut self, more: Refusals)
        ensures { was_refused self.new ≡ (was_refused self.old || was_refused more) }
    {
        self.answered = self.answered.saturating_add(more.answered);
        self.refused = self.refused.saturating_add(more.refused);
        self.first = self.first.or(more.first);
    }

    /// Whether a line was refused.
    pub fn any(&self) -> bool
        ensures { result ≡ was_refused self.now }
    {
        self.refused != 0
    }
}
