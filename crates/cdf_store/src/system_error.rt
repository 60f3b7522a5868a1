//! Why the system refused a call.

ghost use Rattle.std.specs.Prelude.{◌≡◌, None};
ghost use Rattle.std_io.specs.IoError.{error_kind, raw_os_error};

use std::io::{Error, ErrorKind};

/// Why the system refused a call: its kind, and the number that the system has for it, where the system told one.
#[derive(Clone, Copy, Debug, PartialEq, Eq)]
pub struct SystemError {
    pub kind: ErrorKind,
    pub number: Option<i32>,
}

impl SystemError {
    /// What an error tells.
    pub fn of(error: &Error) -> Self
        ensures kind { result.kind ≡ error_kind error.now }
        ensures number { result.number ≡ raw_os_error error.now }
    {
        SystemError {
            kind: error.kind(),
            number: error.raw_os_error(),
        }
    }

    /// An error of this kind, for which the system told no number.
    pub fn unnumbered(kind: ErrorKind) -> Self
        ensures kind { result.kind ≡ kind }
        ensures number { result.number ≡ None }
    {
        SystemError { kind, number: None }
    }
}
