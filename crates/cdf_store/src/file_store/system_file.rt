//! The attached file as the system has it: when it is written, cut and stored.

ghost use Rattle.std.specs.Prelude.{◌≡◌, ◌<◌, ◌≤◌, ◌≤ℤ◌, ◌↔◌, length, min, pos, IfOk, IsOk, IsSomeAnd, None};
ghost use Rattle.cdf_store.specs.Untouched.{IsWritable, MayBeWritten};

use super::comparison::{Comparison, stamp_now, stands_as_before};
use super::folder::store_folder;
use super::kind::check_regular;
use super::locks::{Lockable, lock_alone};
use super::open_error::{OpenError, open_error};
use super::opening::Opened;
use super::reading::READ_LIMIT;
use super::stamp::Stamp;
use super::writing::{Written, go_to, write_some};
use crate::{FileFailure, SystemError};
use std::alloc::Global;
use std::fs::OpenFile;
use std::io::ErrorKind;
use std::os::fd::{AsRawFd, RawFd};
use std::rt::Files;

/// The attached file as the system has it.
#[derive(Drop)]
pub struct SystemFile<F> {
    pub name: String,
    pub file: F,
    /// Why the file could not be opened for writing, where it could not.
    pub refusal: Option<SystemError>,
    /// How the file stood before its first byte was read.
    pub stamp: Stamp,
    /// How the file stood behind the last byte that was read of it, where it was read whole and found to stand as before.
    pub read_until: Option<Stamp>,
    /// Whether another program was found to have the file locked for itself alone while it was read.
    pub is_locked: bool,
    pub comparison: Comparison,
    /// The folder that holds the file, where attaching made the file.
    pub made_in: Option<String>,
}

/// Refuses a file in the place of a standard stream, which the program reads or writes besides.
fn check_place(place: RawFd) -> Result<(), FileFailure>
    ensures { IsOk result ↔ (pos 3 ≤ℤ place) }
{
    if place < 3 {
        Err(FileFailure::StandardStream)
    } else {
        Ok(())
    }
}

/// An opened file as the system has it, where it is a regular one.
pub fn regular_file<F: OpenFile + AsRawFd + Drop>(
    alloc: Global,
    name: &str,
    opened: Opened<F>,
) -> Result<SystemFile<F>, OpenError>
    ensures file { IfOk result (λ system. system.file ≡ opened.file) }
    ensures refusal { IfOk result (λ system. system.refusal ≡ opened.refusal) }
    ensures unread { IfOk result (λ system. system.read_until ≡ None) }
{
    let Opened {
        file,
        refusal,
        made_in,
    } = opened;
    check_place(file.as_raw_fd())?;
    let metadata = match file.metadata() {
        Ok(metadata) => metadata,
        Err(error) => return Err(open_error(SystemError::of(&error))),
    };
    check_regular(&metadata)?;
    Ok(SystemFile {
        name: String::from_str(alloc, name)?,
        file,
        refusal,
        stamp: Stamp::of(&metadata),
        read_until: None,
        is_locked: false,
        comparison: Comparison::NotYet,
        made_in,
    })
}

/// Refuses a file that could not be opened for writing, and a file that was found to be changed.
fn check_writable<F>(file: &SystemFile<F>) -> Result<(), FileFailure>
    ensures { IsOk result ↔ IsWritable file.now }
{
    if let Some(error) = file.refusal {
        return Err(FileFailure::NotWritable(error));
    }
    if file.comparison == Comparison::Changed {
        return Err(FileFailure::Changed);
    }
    Ok(())
}

/// Refuses a file that is not to be written. Before the first write and cut the file is locked for this program alone, where the lock
/// is to be had, and compared with how it stood.
fn check_unchanged<R: Files>(rt: &R, file: &mut SystemFile<R::File>) -> Result<(), FileFailure>
where
    R::File: Lockable,
    ensures ready { IsOk result → MayBeWritten file.new }
    ensures refused { IsOk result → IsWritable file.old }
    ensures once { MayBeWritten file.old → IsOk result × (file.new ≡ file.old) }
{
    check_writable(file)?;
    if file.comparison == Comparison::Same {
        return Ok(());
    }
    lock_alone(&file.file);
    match stands_as_before(rt, &file.name, &file.file, &file.stamp) {
        Ok(Some(_)) => {
            file.comparison = Comparison::Same;
            Ok(())
        }
        Ok(None) => {
            file.comparison = Comparison::Changed;
            Err(FileFailure::Changed)
        }
        Err(error) => Err(FileFailure::System(error)),
    }
}

/// Writes bytes from a place on, where the file may be written. The first write or cut locks the file for this program alone, until it
/// is closed. It goes on without the lock where another program has one, or the system gives none.
pub fn write_from<R: Files>(
    rt: &R,
    file: &mut SystemFile<R::File>,
    place: u64,
    bytes: &[u8],
) -> Written
where
    R::File: Lockable,
    ensures bound { result.count ≤ length bytes.now }
    ensures whole { result.failure ≡ None → result.count ≡ length bytes.now }
    ensures refused { 0 < result.count → IsWritable file.old }
{
    let ready = match check_unchanged(rt, file) {
        Ok(()) => go_to(&mut file.file, place),
        Err(failure) => Err(failure),
    };
    match ready {
        Ok(()) => write_some(&mut file.file, bytes),
        Err(failure) => Written {
            count: 0,
            failure: Some(failure),
        },
    }
}

/// Cuts a file of this length to `n` bytes. Where it has just these, the system is not called. The first write or cut locks the file,
/// as `write_from` says.
pub fn cut_to<R: Files>(
    rt: &R,
    file: &mut SystemFile<R::File>,
    length: u64,
    n: u64,
) -> Result<(), FileFailure>
where
    R::File: Lockable,
    ensures refused { IsOk result → IsWritable file.old }
{
    if n == length {
        return check_writable(file);
    }
    check_unchanged(rt, file)?;
    match file.file.set_len(n) {
        Ok(()) => Ok(()),
        Err(error) => Err(FileFailure::System(SystemError::of(&error))),
    }
}

/// Refuses a file that has not the length that was written, or whose name leads elsewhere, and answers how it stands. Of a length
/// past the limit the limit is compared.
fn check_written<R: Files>(
    rt: &R,
    file: &SystemFile<R::File>,
    length: u64,
) -> Result<Stamp, FileFailure>
    ensures { IfOk result (λ found. min found.length READ_LIMIT ≡ length) }
{
    match stamp_now(rt, &file.name, &file.file, &file.stamp) {
        Ok(Some(now)) if now.length.min(READ_LIMIT) == length => Ok(now),
        Ok(_) => Err(FileFailure::Changed),
        Err(error) => Err(FileFailure::System(error)),
    }
}

/// Has a file stored to which this length was written, and the folder that holds it, where attaching made the file. Behind the
/// system's answer it is compared with what was written, and its stamp of then is answered.
pub fn store_file<R: Files>(
    rt: &R,
    file: &SystemFile<R::File>,
    length: u64,
) -> Result<Stamp, FileFailure>
    ensures refused { IsOk result → IsWritable file.now }
    ensures written { IfOk result (λ found. min found.length READ_LIMIT ≡ length) }
{
    check_writable(file)?;
    if let Err(error) = file.file.sync_all() {
        return Err(FileFailure::System(SystemError::of(&error)));
    }
    if let Some(folder) = &file.made_in {
        store_folder(rt, folder)?;
    }
    check_written(rt, file, length)
}

/// The failure of a call where no file is attached.
const NO_FILE: FileFailure = FileFailure::System(SystemError {
    kind: ErrorKind::NotFound,
    number: None,
});

/// Writes bytes of the attached file from a place on.
pub fn write<R: Files>(
    rt: &R,
    system: &mut Option<SystemFile<R::File>>,
    place: u64,
    bytes: &[u8],
) -> Written
where
    R::File: Lockable,
    ensures bound { result.count ≤ length bytes.now }
    ensures whole { result.failure ≡ None → result.count ≡ length bytes.now }
    ensures refused { 0 < result.count → IsSomeAnd system.old IsWritable }
{
    match system {
        None => Written {
            count: 0,
            failure: Some(NO_FILE),
        },
        Some(file) => write_from(rt, file, place, bytes),
    }
}

/// Cuts the attached file, which has this length, to `n` bytes.
pub fn cut<R: Files>(
    rt: &R,
    system: &mut Option<SystemFile<R::File>>,
    length: u64,
    n: u64,
) -> Result<(), FileFailure>
where
    R::File: Lockable,
    ensures refused { IsOk result → IsSomeAnd system.old IsWritable }
{
    match system {
        None => Err(NO_FILE),
        Some(file) => cut_to(rt, file, length, n),
    }
}

/// Has the attached file stored, which has this length.
pub fn store<R: Files>(
    rt: &R,
    system: &Option<SystemFile<R::File>>,
    length: u64,
) -> Result<Stamp, FileFailure>
    ensures refused { IsOk result → IsSomeAnd system.now IsWritable }
    ensures written { IfOk result (λ found. min found.length READ_LIMIT ≡ length) }
{
    match system {
        None => Err(NO_FILE),
        Some(file) => store_file(rt, file, length),
    }
}
