//! Why a file was not attached.

ghost use Rattle.std.specs.Prelude.{◌≡◌, ◌≢◌};

use crate::{FileFailure, SystemError};
use std::alloc::AllocError;
use std::io::ErrorKind;

/// Why a file was not attached.
#[derive(Clone, Copy, Debug, PartialEq, Eq)]
pub enum OpenError {
    /// A call on the file failed.
    Failed(FileFailure),
    /// There is no memory for the file.
    NoMemory,
}

impl From<AllocError> for OpenError {
    ghost use Rattle.cdf_store.specs.declared.file_store.open_error.OpenError.TheVariants.{NoMemory};

    ghost from_gives = { λ _ e. e ≡ NoMemory };

    fn from(_: AllocError) -> Self {
        OpenError::NoMemory
    }
}

impl From<FileFailure> for OpenError {
    ghost use Rattle.cdf_store.specs.declared.file_store.open_error.OpenError.TheVariants.{Failed};

    ghost from_gives = { λ failure e. e ≡ Failed failure };

    fn from(failure: FileFailure) -> Self {
        OpenError::Failed(failure)
    }
}

/// Why a file was not attached, by the error of the system.
pub fn open_error(error: SystemError) -> OpenError
    ensures memory { error.kind ≡ ErrorKind.OutOfMemory → result ≡ OpenError.NoMemory }
    ensures fault { error.kind ≢ ErrorKind.OutOfMemory → result ≡ OpenError.Failed (FileFailure.System error) }
{
    match error.kind {
        ErrorKind::OutOfMemory => OpenError::NoMemory,
        _ => OpenError::Failed(FileFailure::System(error)),
    }
}
