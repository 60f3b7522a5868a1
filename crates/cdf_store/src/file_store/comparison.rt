//! Whether another program changed the attached file.

ghost use Rattle.std.specs.Prelude.{◌≡◌, IfOk, IfSome};

use super::stamp::Stamp;
use crate::SystemError;
use std::fs;
use std::fs::OpenFile;
use std::io::ErrorKind;
use std::rt::Files;

/// What came of comparing the attached file with how it stood when it was attached.
#[derive(Clone, Copy, PartialEq, Eq)]
pub enum Comparison {
    NotYet,
    Same,
    Changed,
}

/// How a file stands now. `None` where its name leads to another file or to none, as far as the system tells.
pub fn stamp_now<R: Files>(
    rt: &R,
    name: &str,
    file: &R::File,
    then: &Stamp,
) -> Result<Option<Stamp>, SystemError> {
    match fs::metadata(rt, name) {
        Ok(named) if then.is_same_file(&Stamp::of(&named)) => {}
        Ok(_) => return Ok(None),
        Err(error) => match error.kind() {
            ErrorKind::Unsupported => {}
            ErrorKind::NotFound | ErrorKind::NotADirectory => return Ok(None),
            _ => return Err(SystemError::of(&error)),
        },
    }
    match file.metadata() {
        Ok(metadata) => Ok(Some(Stamp::of(&metadata))),
        Err(error) => Err(SystemError::of(&error)),
    }
}

/// How a file stands now, where that is as it stood then. `None` where it was changed, or its name no longer leads to it.
pub fn stands_as_before<R: Files>(
    rt: &R,
    name: &str,
    file: &R::File,
    then: &Stamp,
) -> Result<Option<Stamp>, SystemError>
    ensures { IfOk result (λ found. IfSome found (λ now. now ≡ then.now)) }
{
    match stamp_now(rt, name, file, then)? {
        Some(now) if then.is_unchanged(&now) => Ok(Some(now)),
        _ => Ok(None),
    }
}
