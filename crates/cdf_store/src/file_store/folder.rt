//! The folder that holds a file.

ghost use Rattle.std.specs.Prelude.{◌≡◌, ◌↔◌, ◌⊎◌, IsTrue};
ghost use Rattle.cdf_store.specs.Folder.{folder_in};

use crate::{FileFailure, SystemError};
use std::alloc::{AllocError, Global};
use std::fs;
use std::fs::OpenFile;
use std::io::ErrorKind;
use std::path::Path;
use std::rt::Files;

/// The folder that holds a name.
fn folder_of(name: &str) -> &str
    ensures { result.now ≡ folder_in name.now }
{
    match Path::new(name).parent() {
        Some(folder) if !folder.as_str().is_empty() => folder.as_str(),
        _ => ".",
    }
}

/// The folder that holds the file to which a name leads, where the system tells it, and else the one that holds the name.
pub fn folder_behind<R: Files>(rt: &R, alloc: Global, name: &str) -> Result<String, AllocError> {
    match rt.canonicalize(alloc, name) {
        Ok(path) => String::from_str(alloc, folder_of(path.as_str())),
        Err(_) => String::from_str(alloc, folder_of(name)),
    }
}

/// Whether a system has no storing of a folder, and stores its names by itself.
fn is_needless(kind: ErrorKind) -> bool
    ensures { IsTrue result ↔ ((kind ≡ ErrorKind.InvalidInput) ⊎ (kind ≡ ErrorKind.Unsupported)) }
{
    kind == ErrorKind::InvalidInput || kind == ErrorKind::Unsupported
}

/// Has a folder stored, so that the names in it outlast the machine's next stop.
pub fn store_folder<R: Files>(rt: &R, folder: &str) -> Result<(), FileFailure> {
    let opened = match fs::open(rt, folder) {
        Ok(opened) => opened,
        Err(error) => return Err(FileFailure::System(SystemError::of(&error))),
    };
    match opened.sync_all() {
        Err(error) if !is_needless(error.kind()) => {
            Err(FileFailure::System(SystemError::of(&error)))
        }
        _ => Ok(()),
    }
}
