//! Why a line is no command.

use cdf_model::LineError;
use std::alloc::AllocError;

/// Why a line was not read.
#[derive(Clone, Copy, Debug, PartialEq, Eq)]
pub enum ParseError {
    Bad { fault: LineError },
    NoMemory,
}

impl From<AllocError> for ParseError {
    ghost use Rattle.std.specs.Prelude.{◌≡◌};
    ghost use Rattle.cdf_script.specs.declared.fault.ParseError.TheVariants.{NoMemory};

    ghost from_gives = { λ e r. r ≡ NoMemory };

    fn from(_: AllocError) -> Self {
        ParseError::NoMemory
    }
}

impl From<LineError> for ParseError {
    ghost use Rattle.std.specs.Prelude.{◌≡◌};
    ghost use Rattle.cdf_script.specs.declared.fault.ParseError.TheVariants.{Bad};

    ghost from_gives = { λ fault r. r ≡ Bad fault };

    fn from(fault: LineError) -> Self {
        ParseError::Bad { fault }
    }
}
