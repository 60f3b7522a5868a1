//! Opening a regular file by its name.

ghost use Rattle.std.specs.Prelude.{◌≡◌, ◌↔◌, IsTrue, IsFalse, IsSome, IfOk};

use super::folder::folder_behind;
use super::kind::check_regular;
use super::open_error::{OpenError, open_error};
use crate::SystemError;
use std::alloc::Global;
use std::fs;
use std::fs::OpenOptions;
use std::io::ErrorKind;
use std::rt::Files;

/// A file that was opened for reading.
#[derive(Drop)]
pub struct Opened<F> {
    pub file: F,
    /// Why the file could not be opened for writing too, where it could not.
    pub refusal: Option<SystemError>,
    /// The folder that holds the file, where the file was made.
    pub made_in: Option<String>,
}

/// Whether there is no file, where one could not be opened for reading and writing. Else it may be one that is only read.
fn is_absent(kind: ErrorKind, make: bool) -> bool
    ensures { IsTrue result ↔ ((kind ≡ ErrorKind.NotFound) × IsFalse make) }
{
    kind == ErrorKind::NotFound && !make
}

/// Opens a regular file for reading and, where that is allowed, for writing. An absent file is made where it is to be.
pub fn open_regular<R: Files>(
    rt: &R,
    alloc: Global,
    name: &str,
    make: bool,
) -> Result<Option<Opened<R::File>>, OpenError>
    ensures made { IsTrue make → IfOk result (λ found. IsSome found) }
{
    match fs::metadata(rt, name) {
        Ok(metadata) => {
            check_regular(&metadata)?;
            open_present(rt, name, make)
        }
        Err(error) if is_absent(error.kind(), make) => Ok(None),
        Err(error) if error.kind() == ErrorKind::NotFound => {
            Ok(Some(make_absent(rt, alloc, name)?))
        }
        Err(error) => Err(open_error(SystemError::of(&error))),
    }
}

/// Opens a file that was there when it was asked for.
fn open_present<R: Files>(
    rt: &R,
    name: &str,
    make: bool,
) -> Result<Option<Opened<R::File>>, OpenError>
    ensures made { IsTrue make → IfOk result (λ found. IsSome found) }
{
    let refusal = match OpenOptions::new().read(true).write(true).open(rt, name) {
        Ok(file) => {
            return Ok(Some(Opened {
                file,
                refusal: None,
                made_in: None,
            }));
        }
        Err(error) if is_absent(error.kind(), make) => return Ok(None),
        Err(error) => SystemError::of(&error),
    };
    match fs::open(rt, name) {
        Ok(file) => Ok(Some(Opened {
            file,
            refusal: Some(refusal),
            made_in: None,
        })),
        Err(error) => Err(open_error(SystemError::of(&error))),
    }
}

/// Makes a file of a name that leads to none.
fn make_absent<R: Files>(rt: &R, alloc: Global, name: &str) -> Result<Opened<R::File>, OpenError> {
    let mut how = OpenOptions::new();
    how.read(true).write(true).create(true);
    match how.open(rt, name) {
        Ok(file) => Ok(Opened {
            file,
            refusal: None,
            made_in: Some(folder_behind(rt, alloc, name)?),
        }),
        Err(error) => Err(open_error(SystemError::of(&error))),
    }
}
