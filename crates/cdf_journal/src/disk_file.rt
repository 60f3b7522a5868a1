//! A part of a disk as a file of the system.

ghost use Rattle.std.specs.Prelude.{◌≡◌, ◌≤◌, ◌+◌, length, max, min, IfOk, IsSome, IsTrue, OnErr, OnOk};
ghost use Rattle.std.specs.Io.{ReadsAtMost};
ghost use Rattle.cdf_journal.specs.Crashes.{ReadsSome};
ghost use Rattle.cdf_journal.specs.FileDisk.{length_in};

use cdf_store::{
    FileFailure, Lockable, OpenError, READ_LIMIT, SystemError, SystemFile, check_regular, cut_to,
    open_regular, read_from, regular_file, store_file, write_from,
};
use std::alloc::Global;
use std::fs;
use std::io::{ErrorKind, Read, Seek};
use std::os::fd::AsRawFd;
use std::rt::Files;

/// A part as the system has it, and how long it is.
#[derive(Drop)]
pub struct DiskFile<F> {
    pub system: SystemFile<F>,
    pub length: u64,
    /// Whether it may have bytes that the system has not stored.
    pub is_pending: bool,
}

/// The failure of a call where no file is attached.
const NO_FILE: FileFailure = FileFailure::System(SystemError {
    kind: ErrorKind::NotFound,
    number: None,
});

/// What is appended to the name of a file for its log.
const LOG_ENDING: &str = ".journal";

/// A part that was just opened. Who had it before may have left bytes that are not stored.
fn opened<F>(system: SystemFile<F>) -> DiskFile<F>
    ensures length { result.length ≡ min system.stamp.length READ_LIMIT }
    ensures pending { IsTrue result.is_pending }
{
    let length = system.stamp.length.min(READ_LIMIT);
    DiskFile {
        system,
        length,
        is_pending: true,
    }
}

/// Refuses what is there under a name and is no regular file, or is a link.
fn check_no_link<R: Files>(rt: &R, name: &str) -> Result<(), OpenError> {
    match fs::symlink_metadata(rt, name) {
        Ok(metadata) => Ok(check_regular(&metadata)?),
        Err(_) => Ok(()),
    }
}

/// Opens the log of a file, which is made where it is absent.
fn open_log<R: Files>(rt: &R, alloc: Global, name: &str) -> Result<DiskFile<R::File>, OpenError>
where
    R::File: AsRawFd,
{
    let mut log_name = String::from_str(alloc, name)?;
    log_name.push_str(LOG_ENDING)?;
    check_no_link(rt, &log_name)?;
    match open_regular(rt, alloc, &log_name, true)? {
        None => Err(OpenError::Failed(NO_FILE)),
        Some(log) => Ok(opened(regular_file(alloc, &log_name, log)?)),
    }
}

/// Opens a file, which is made where it is to be, and its log.
pub fn open_parts<R: Files>(
    rt: &R,
    alloc: Global,
    name: &str,
    make: bool,
) -> Result<Option<(DiskFile<R::File>, DiskFile<R::File>)>, OpenError>
where
    R::File: AsRawFd,
    ensures made { IsTrue make → IfOk result (λ found. IsSome found) }
{
    match open_regular(rt, alloc, name, make)? {
        None => Ok(None),
        Some(main) => {
            let main = opened(regular_file(alloc, name, main)?);
            let log = open_log(rt, alloc, name)?;
            Ok(Some((main, log)))
        }
    }
}

/// Reads once from a place of a file as the system has it.
fn read_system<F: Read + Seek>(
    system: &mut SystemFile<F>,
    place: u64,
    out: &mut [u8],
) -> Result<usize, FileFailure>
    ensures { ReadsAtMost result out.new }
{
    read_from(&mut system.file, place, out)
}

/// Reads bytes of a file of so many bytes from a place on, and answers how many. Where the file has fewer by now, that is a failure.
fn read_within<F: Read + Seek>(
    system: &mut SystemFile<F>,
    size: u64,
    place: u64,
    out: &mut [u8],
) -> Result<usize, FileFailure>
    ensures { IfOk result (ReadsSome size place (length out.new)) }
{
    if place >= size || out.is_empty() {
        return Ok(0);
    }
    let room = (out.len() as u64).min(size - place) as usize;
    match read_system(system, place, &mut out[..room]) {
        Ok(0) => Err(FileFailure::System(SystemError::unnumbered(ErrorKind::UnexpectedEof))),
        other => other,
    }
}

/// Reads bytes of a part that is there.
fn read_held<F: Read + Seek>(
    file: &mut DiskFile<F>,
    place: u64,
    out: &mut [u8],
) -> Result<usize, FileFailure>
    ensures some { IfOk result (ReadsSome file.old.length place (length out.new)) }
    ensures length { file.new.length ≡ file.old.length }
{
    let size = file.length;
    read_within(&mut file.system, size, place, out)
}

/// Reads bytes of a part from a place on, and answers how many.
pub fn read_file<F: Read + Seek>(
    file: &mut Option<DiskFile<F>>,
    place: u64,
    out: &mut [u8],
) -> Result<usize, FileFailure>
    ensures some { IfOk result (ReadsSome (length_in file.old) place (length out.new)) }
    ensures no_shorter { length_in file.old ≤ length_in file.new }
    ensures no_longer { length_in file.new ≤ length_in file.old }
{
    let Some(file) = file else {
        return Err(NO_FILE);
    };
    read_held(file, place, out)
}

/// Writes bytes of a part from a place on.
pub fn write_file<R: Files>(
    rt: &R,
    file: &mut Option<DiskFile<R::File>>,
    place: u64,
    bytes: &[u8],
) -> Result<(), FileFailure>
where
    R::File: Lockable,
    ensures longer { OnOk result (length_in file.new ≡ max (length_in file.old) (place + length bytes.now)) }
    ensures no_shorter { length_in file.old ≤ length_in file.new }
    ensures no_longer { length_in file.new ≤ max (length_in file.old) (place + length bytes.now) }
{
    let Some(file) = file else {
        return Err(NO_FILE);
    };
    if place.checked_add(bytes.len() as u64).is_none() {
        return Err(FileFailure::System(SystemError::unnumbered(ErrorKind::FileTooLarge)));
    }
    file.is_pending = true;
    let written = write_from(rt, &mut file.system, place, bytes);
    file.length = file.length.max(place + written.count as u64);
    match written.failure {
        None => Ok(()),
        Some(failure) => Err(failure),
    }
}

/// Cuts a part.
pub fn cut_file<R: Files>(
    rt: &R,
    file: &mut Option<DiskFile<R::File>>,
    n: u64,
) -> Result<(), FileFailure>
where
    R::File: Lockable,
    ensures shorter { OnOk result (length_in file.new ≡ n) }
    ensures kept { OnErr result (length_in file.new ≡ length_in file.old) }
{
    let Some(file) = file else {
        return Err(NO_FILE);
    };
    file.is_pending = true;
    cut_to(rt, &mut file.system, file.length, n)?;
    file.length = n;
    Ok(())
}

/// Has a part stored, where it may have bytes that are not.
pub fn sync_file<R: Files>(rt: &R, file: &mut Option<DiskFile<R::File>>) -> Result<(), FileFailure>
    ensures { length_in file.new ≡ length_in file.old }
{
    let Some(file) = file else {
        return Err(NO_FILE);
    };
    if file.is_pending {
        store_file(rt, &file.system, file.length)?;
        file.is_pending = false;
    }
    Ok(())
}
