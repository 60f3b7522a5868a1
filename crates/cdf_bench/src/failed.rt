//! Why a case could not be measured.

use cdf_area::AreaError;
use cdf_convert::ConvertError;
use cdf_rle::RleError;
use cdf_session::AdoptError;
use std::alloc::{AllocError, AllocFailed};
use std::io;

/// Why a case was not done.
#[derive(Debug, Drop)]
pub enum Failed {
    /// The words of the command line name no case.
    Words,
    /// There was no memory left.
    NoMemory,
    /// A file, an output or the clock failed.
    Outside,
    /// The file breaks a rule, or its compact image is too large.
    File,
    /// What was packed does not fill the bytes that it was packed from.
    Packed,
}

impl From<AllocError> for Failed {
    fn from(_: AllocError) -> Self {
        Failed::NoMemory
    }
}

impl<T: Drop> From<AllocFailed<T>> for Failed {
    fn from(_: AllocFailed<T>) -> Self {
        Failed::NoMemory
    }
}

impl From<io::Error> for Failed {
    fn from(_: io::Error) -> Self {
        Failed::Outside
    }
}

impl From<AreaError> for Failed {
    fn from(error: AreaError) -> Self {
        match error {
            AreaError::Fault => Failed::Outside,
            AreaError::NoMemory => Failed::NoMemory,
        }
    }
}

impl From<ConvertError> for Failed {
    fn from(error: ConvertError) -> Self {
        match error {
            ConvertError::SourceFault | ConvertError::TargetFault => Failed::Outside,
            ConvertError::TooLarge { .. } => Failed::File,
            ConvertError::NoMemory => Failed::NoMemory,
        }
    }
}

impl From<AdoptError> for Failed {
    fn from(error: AdoptError) -> Self {
        match error {
            AdoptError::Rejected { .. } => Failed::File,
            AdoptError::Failed { error } => Failed::from(error),
        }
    }
}

impl From<RleError> for Failed {
    fn from(_: RleError) -> Self {
        Failed::Packed
    }
}
