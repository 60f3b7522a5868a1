//! Reading a file whole.

ghost use Rattle.std.specs.Prelude.{◌≡◌, ◌+◌, ◌++◌, take, OnOk, IfSome};
ghost use Rattle.std.specs.Io.{ReadsAtMost};
ghost use Rattle.std.specs.Io.KnownBytes.{ReadConsumes};
ghost use Rattle.cdf_model.specs.Limits.{image_limit};

use super::open_error::{OpenError, open_error};
use super::writing::go_to;
use crate::pieces::{PIECE, Pieces};
use crate::{FileFailure, SystemError};
use cdf_model::limits::IMAGE_LIMIT;
use std::io::{ErrorKind, Read, Seek};

/// How many bytes of a file are read: those of an image of the most bytes, a checksum behind it, and one more, by which a file
/// shows that it is longer.
pub const READ_LIMIT: u64 = IMAGE_LIMIT + 17;

/// Reads once, and again after an interruption.
pub fn read_some<F: Read>(file: &mut F, out: &mut [u8]) -> Result<usize, SystemError>
    ensures bound { ReadsAtMost result out.new }
    ensures bytes { ReadConsumes (F.remaining file.old) (F.remaining file.new) result out.new }
{
    for _ in 0..u64::MAX {
        match file.read(out) {
            Ok(count) => return Ok(count),
            Err(error) if error.kind() == ErrorKind::Interrupted => {}
            Err(error) => return Err(SystemError::of(&error)),
        }
    }
    Err(SystemError::unnumbered(ErrorKind::Interrupted))
}

/// Reads once from a place of a file on, and again after an interruption.
pub fn read_from<F: Read + Seek>(
    file: &mut F,
    place: u64,
    out: &mut [u8],
) -> Result<usize, FileFailure>
    ensures { ReadsAtMost result out.new }
{
    go_to(file, place)?;
    match read_some(file, out) {
        Ok(count) => Ok(count),
        Err(error) => Err(FileFailure::System(error)),
    }
}

/// Appends all that a file has left, or its first bytes up to the limit.
pub fn read_whole<F: Read>(file: &mut F, pieces: &mut Pieces) -> Result<(), OpenError>
    ensures { OnOk result (IfSome (F.remaining file.old) (λ left. pieces.new.bytes ≡ pieces.old.bytes ++ take (image_limit + 17) left)) }
{
    let mut piece = [0; PIECE as usize];
    let mut room = READ_LIMIT;
    while room > 0 {
        let part = &mut piece[..room.min(PIECE) as usize];
        let count = match read_some(file, part) {
            Ok(0) => return Ok(()),
            Ok(count) => count,
            Err(error) => return Err(open_error(error)),
        };
        pieces.push(&part[..count])?;
        room -= count as u64;
    }
    Ok(())
}
