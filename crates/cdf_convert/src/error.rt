//! Why a file was not written.

ghost use Rattle.std.specs.Prelude.{◌≡◌};

use cdf_area::AreaError;
use cdf_writer::WriteStop;

/// Why a file was not written.
#[derive(Clone, Copy, Debug, PartialEq, Eq)]
pub enum ConvertError {
    /// What stands beneath the file that is read failed.
    SourceFault,
    /// What stands beneath the file that is written failed.
    TargetFault,
    /// The next record, of `need` bytes, does not fit behind the `eof` bytes that were written.
    TooLarge { eof: u64, need: u64 },
    /// There was no memory left.
    NoMemory,
}

impl From<AreaError> for ConvertError {
    ghost use Rattle.cdf_convert.specs.Errors.{read_error};

    ghost from_gives = { λ error e. e ≡ read_error error };

    /// An error of the file that is read.
    fn from(error: AreaError) -> Self {
        match error {
            AreaError::Fault => ConvertError::SourceFault,
            AreaError::NoMemory => ConvertError::NoMemory,
        }
    }
}

impl From<WriteStop> for ConvertError {
    ghost use Rattle.cdf_convert.specs.Errors.{write_error};

    ghost from_gives = { λ stop e. e ≡ write_error stop };

    /// An error of the file that is written.
    fn from(stop: WriteStop) -> Self {
        match stop {
            WriteStop::TooLarge { eof, need } => ConvertError::TooLarge { eof, need },
            WriteStop::Fault => ConvertError::TargetFault,
            WriteStop::NoMemory => ConvertError::NoMemory,
        }
    }
}
