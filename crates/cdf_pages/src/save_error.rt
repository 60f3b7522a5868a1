//! How saving an area goes wrong.

ghost use Rattle.std.specs.Prelude.{◌≡◌};

use std::alloc::AllocError;

/// Why a save failed.
#[derive(Clone, Copy, Debug, PartialEq, Eq)]
pub enum SaveError {
    /// The store failed. Where `kept` is true the file has its old bytes.
    Failed { kept: bool },
    /// There was no memory for the writes. Nothing was written.
    NoMemory,
}

impl From<AllocError> for SaveError {
    ghost use Rattle.cdf_pages.specs.declared.save_error.SaveError.TheVariants.{NoMemory};

    ghost from_gives = { λ _ e. e ≡ NoMemory };

    fn from(_: AllocError) -> Self {
        SaveError::NoMemory
    }
}
