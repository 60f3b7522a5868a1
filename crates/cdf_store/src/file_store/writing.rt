//! Writing bytes of a file.

ghost use Rattle.std.specs.Prelude.{◌≡◌, ◌↔◌, ◌<◌, ◌≤◌, length, take, IfOk, IsSome};
ghost use Rattle.std.specs.Io.{WritesAtMost};
ghost use Rattle.std.specs.Io.KnownBytes.{Appends, WriteAppends};
ghost use Rattle.std.specs.Io.Seek.{MovesTo};

use crate::{FileFailure, SystemError};
use std::io::{ErrorKind, Seek, SeekFrom, Write};

/// How many bytes were written, and why no more were.
#[derive(Clone, Copy)]
pub struct Written {
    pub count: usize,
    pub failure: Option<FileFailure>,
}

/// Goes to a place of a file.
pub fn go_to<F: Seek>(file: &mut F, place: u64) -> Result<(), FileFailure>
    ensures { MovesTo (F.stream_position file.old) (F.stream_position file.new) place result }
{
    match file.seek(SeekFrom::Start(place)) {
        Ok(_) => Ok(()),
        Err(error) => Err(FileFailure::System(SystemError::of(&error))),
    }
}

/// Writes once, and again after an interruption. A write that takes none of the bytes has failed.
pub fn write_more<F: Write>(file: &mut F, bytes: &[u8]) -> Result<usize, SystemError>
    ensures bound { WritesAtMost result bytes.now }
    ensures some { IfOk result (λ count. 0 < count) }
    ensures bytes { WriteAppends (F.contents file.old) (F.contents file.new) result bytes.now }
{
    for _ in 0..u64::MAX {
        match file.write(bytes) {
            Ok(0) => return Err(SystemError::unnumbered(ErrorKind::WriteZero)),
            Ok(count) => return Ok(count),
            Err(error) if error.kind() == ErrorKind::Interrupted => {}
            Err(error) => return Err(SystemError::of(&error)),
        }
    }
    Err(SystemError::unnumbered(ErrorKind::Interrupted))
}

/// Writes bytes where the file stands, until one write fails.
pub fn write_some<F: Write>(file: &mut F, bytes: &[u8]) -> Written
    ensures bound { result.count ≤ length bytes.now }
    ensures short { IsSome result.failure ↔ (result.count < length bytes.now) }
    ensures bytes { Appends (F.contents file.old) (F.contents file.new) (take result.count bytes.now) }
{
    let mut count = 0;
    while count < bytes.len() {
        match write_more(file, &bytes[count..]) {
            Ok(more) => count += more,
            Err(error) => {
                return Written {
                    count,
                    failure: Some(FileFailure::System(error)),
                };
            }
        }
    }
    Written {
        count,
        failure: None,
    }
}
