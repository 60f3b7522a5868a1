//! How often calls on real files failed, and why the last did.

ghost use Rattle.std.specs.Prelude.{◌≡◌, ◌≤◌, IfOk, IsSome, IsTrue, IsFalse, Ok, Some};
ghost use Rattle.cdf_base.specs.Causes.{HasCauseOf, Rose};
ghost use Rattle.cdf_store.specs.Attaching.{is_failed};

use super::open_error::OpenError;
use crate::{AttachError, Failed, FileFailure};

/// How often calls failed, and why the last call failed that did.
#[derive(Drop)]
pub struct Faults {
    /// How often attaching failed.
    pub reads: u64,
    /// How often writing, cutting and storing failed.
    pub writes: u64,
    pub last: Option<FileFailure>,
}

impl Faults {
    /// Counts the fault of an attaching that failed, and keeps its reason. Want of memory is none.
    pub fn of_attaching<T>(&mut self, opened: Result<T, OpenError>) -> Result<T, AttachError>
        ensures same { IfOk result (λ found. opened ≡ Ok found) }
        ensures cause { HasCauseOf AttachError.Failed self.old.reads self.new.reads result }
        ensures why { IsTrue (is_failed result) → IsSome self.new.last }
        ensures kept { IsFalse (is_failed result) → self.new.last ≡ self.old.last }
        ensures writes { self.new.writes ≡ self.old.writes }
    {
        match opened {
            Ok(found) => Ok(found),
            Err(OpenError::NoMemory) => Err(AttachError::NoMemory),
            Err(OpenError::Failed(failure)) => {
                self.reads = self.reads.saturating_add(1);
                self.last = Some(failure);
                Err(AttachError::Failed)
            }
        }
    }

    /// Counts a write, a cut or a storing that failed, and keeps its reason.
    pub fn of_writing(&mut self, failure: FileFailure) -> Failed
        ensures later { self.old.writes ≤ self.new.writes }
        ensures rose { Rose self.old.writes self.new.writes }
        ensures why { self.new.last ≡ Some failure }
        ensures reads { self.new.reads ≡ self.old.reads }
    {
        self.writes = self.writes.saturating_add(1);
        self.last = Some(failure);
        Failed
    }
}
