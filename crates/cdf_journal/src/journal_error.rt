//! Why no file was opened with its log.

use cdf_store::{AttachError, Failed};
use std::alloc::AllocError;

/// Why no file was opened with its log.
#[derive(Clone, Copy, Debug, PartialEq, Eq)]
pub enum JournalError {
    /// There is no file of the name.
    NoFile,
    /// The log is open, and is no journal of the file.
    BadLog,
    /// The disk failed, and counted it.
    Fault,
    /// There is no memory for the file or for its log.
    NoMemory,
}

impl From<AllocError> for JournalError {
    ghost use Rattle.std.specs.Prelude.{◌≡◌};
    ghost use Rattle.cdf_journal.specs.declared.journal_error.JournalError.TheVariants.{NoMemory};

    ghost from_gives = { λ _ e. e ≡ NoMemory };

    fn from(_: AllocError) -> Self {
        JournalError::NoMemory
    }
}

impl From<Failed> for JournalError {
    ghost use Rattle.std.specs.Prelude.{◌≡◌};
    ghost use Rattle.cdf_journal.specs.declared.journal_error.JournalError.TheVariants.{Fault};

    ghost from_gives = { λ _ e. e ≡ Fault };

    fn from(_: Failed) -> Self {
        JournalError::Fault
    }
}

impl From<AttachError> for JournalError {
    ghost use Rattle.cdf_journal.specs.Opening.{GivesError};

    ghost from_gives = { GivesError };

    fn from(error: AttachError) -> Self {
        match error {
            AttachError::Failed => JournalError::Fault,
            AttachError::NoMemory => JournalError::NoMemory,
        }
    }
}
