//! The statuses of a run, and their numbers.

ghost use Rattle.std.specs.Prelude.{◌≡◌, IsTrue, IsFalse};
ghost use Rattle.cdf_saving.specs.Refusing.{was_refused};
ghost use Rattle.cdf_saving.specs.Statuses.{IsDone, number_of, status_of, status_of_area};

use crate::refusals::Refusals;
use cdf_area::AreaError;

/// How a run ended.
#[derive(Clone, Copy, Debug, PartialEq, Eq)]
pub enum Status {
    /// Everything succeeded, and no line was refused.
    Done,
    /// Everything succeeded, and at least one line was refused.
    SomeRefused,
    /// The words break the rules of the command line.
    Usage,
    /// There is no file of the name.
    NoFile,
    /// The file breaks a rule.
    Rejected,
    /// The store failed as it was read.
    StoreReadFault,
    /// The store failed as it was written.
    StoreWriteFault,
    /// The sink failed.
    OutputFault,
    /// Memory was refused.
    NoMemory,
    /// The source failed.
    ScriptFault,
    /// The script has too many bytes.
    ScriptTooLong,
    /// The log of the file is open, and is no journal of it.
    BadJournal,
}

impl Status {
    /// The exit status of the program.
    pub fn number(self) -> u8
        ensures { result ≡ number_of self }
    {
        match self {
            Status::Done => 0,
            Status::SomeRefused => 1,
            Status::Usage => 2,
            Status::NoFile => 3,
            Status::Rejected => 4,
            Status::StoreReadFault => 5,
            Status::StoreWriteFault => 6,
            Status::OutputFault => 7,
            Status::NoMemory => 8,
            Status::ScriptFault => 9,
            Status::ScriptTooLong => 10,
            Status::BadJournal => 14,
        }
    }

    /// Whether everything succeeded.
    pub fn is_done(self) -> bool
        ensures yes { IsTrue result → IsDone self }
        ensures no { IsFalse result → IsDone self → ⊥ }
    {
        matches!(self, Status::Done | Status::SomeRefused)
    }
}

/// The status of a script that was run to its end.
pub fn end_status(refusals: Refusals) -> Status
    ensures { result ≡ status_of (was_refused refusals) }
{
    if refusals.any() {
        Status::SomeRefused
    } else {
        Status::Done
    }
}

/// The status of a run whose area failed, or that had no memory.
pub fn area_status(error: AreaError) -> Status
    ensures { result ≡ status_of_area error }
{
    match error {
        AreaError::Fault => Status::StoreReadFault,
        AreaError::NoMemory => Status::NoMemory,
    }
}
