//! Why a dump or a report stopped.

ghost use Rattle.std.specs.Prelude.{◌≡◌};

use cdf_area::AreaError;
use cdf_store::Failed;
use std::alloc::AllocError;

/// Why a dump or a report stopped.
#[derive(Clone, Copy, Debug, PartialEq, Eq)]
pub enum WalkError {
    /// The sink failed.
    SinkFault,
    /// What stands beneath the area failed.
    Fault,
    /// There was no memory left.
    NoMemory,
}

impl From<AreaError> for WalkError {
    ghost use Rattle.cdf_walk.specs.Errors.{walk_error};

    ghost from_gives = { λ error e. e ≡ walk_error error };

    fn from(error: AreaError) -> Self {
        match error {
            AreaError::Fault => WalkError::Fault,
            AreaError::NoMemory => WalkError::NoMemory,
        }
    }
}

impl From<AllocError> for WalkError {
    ghost use Rattle.cdf_walk.specs.declared.error.WalkError.TheVariants.{NoMemory};

    ghost from_gives = { λ _ e. e ≡ NoMemory };

    fn from(_: AllocError) -> Self {
        WalkError::NoMemory
    }
}

impl From<Failed> for WalkError {
    ghost use Rattle.cdf_walk.specs.declared.error.WalkError.TheVariants.{SinkFault};

    ghost from_gives = { λ _ e. e ≡ SinkFault };

    fn from(_: Failed) -> Self {
        WalkError::SinkFault
    }
}
