//! The attached file as it stands in memory: its name and its bytes.

ghost use Rattle.std.specs.Prelude.{◌≡◌, ◌+◌, take, string_bytes, IsTrue, IsFalse, IsSome, IfOk, IfSome, None, Some};
ghost use Rattle.cdf_model.specs.Limits.{image_limit};

use super::comparison::stands_as_before;
use super::locks::{Lockable, Locks, is_locked};
use super::open_error::{OpenError, open_error};
use super::opening::{Opened, open_regular};
use super::reading::{READ_LIMIT, read_whole};
use super::stamp::Stamp;
use super::streams::check_streams;
use super::system_file::{SystemFile, regular_file};
use crate::FileFailure;
use crate::pieces::Pieces;
use std::alloc::{AllocError, Global};
use std::io::Read;
use std::os::fd::AsRawFd;
use std::rt::Files;

/// The attached file as it stands in memory: its name and its bytes.
#[derive(Drop)]
pub struct HeldFile {
    pub name: String,
    pub pieces: Pieces,
}

/// Asks for the memory of a file of this length at once, up to the limit, and gives it back. Pieces alone would be given until the
/// system has none.
fn check_room(alloc: Global, length: u64) -> Result<(), AllocError> {
    let room: Vec<u8> = Vec::with_capacity(alloc, length.min(READ_LIMIT) as usize)?;
    drop(room);
    Ok(())
}

/// How often a file is read, where each time it is changed or locked in the meantime.
const READINGS: u32 = 3;

/// Reads a file whole, up to the limit.
fn read_held<F: Read>(
    alloc: Global,
    name: &str,
    system: &mut SystemFile<F>,
) -> Result<HeldFile, OpenError>
    ensures name { IfOk result (λ held. string_bytes held.name ≡ name.now) }
    ensures bytes { IfOk result (λ held. IfSome (F.remaining system.old.file)
        (λ left. held.pieces.bytes ≡ take (image_limit + 17) left)) }
    ensures stamp { system.new.stamp ≡ system.old.stamp }
{
    check_room(alloc, system.stamp.length)?;
    let mut pieces = Pieces::new(alloc);
    read_whole(&mut system.file, &mut pieces)?;
    Ok(HeldFile {
        name: String::from_str(alloc, name)?,
        pieces,
    })
}

/// How a file stands behind the last byte that was read of it, where it stands as before the first one and was not found locked.
fn stamp_behind<R: Files>(rt: &R, system: &SystemFile<R::File>) -> Result<Option<Stamp>, OpenError>
    ensures still { IfOk result (λ found. IfSome found (λ now. now ≡ system.now.stamp)) }
    ensures locked { IsTrue system.now.is_locked → IfOk result (λ found. found ≡ None) }
{
    if system.is_locked {
        return Ok(None);
    }
    match stands_as_before(rt, &system.name, &system.file, &system.stamp) {
        Ok(found) => Ok(found),
        Err(error) => Err(open_error(error)),
    }
}

/// Reads an opened file whole, up to the limit, where it is a regular file and no standard stream, and compares it behind the last
/// byte with how it stood before the first one. Where locks are heeded, another program's lock is asked for before the first byte and
/// behind the last one. A file that it has locked for itself alone may be one that it is saving, and counts as changed.
pub fn hold<R: Files>(
    rt: &R,
    alloc: Global,
    name: &str,
    opened: Opened<R::File>,
    locks: Locks,
) -> Result<(HeldFile, SystemFile<R::File>), OpenError>
where
    R::File: AsRawFd + Lockable,
    ensures name { IfOk result (λ read. string_bytes read.0.name ≡ name.now) }
    ensures bytes { IfOk result (λ read. IfSome (R.File.remaining opened.file)
        (λ left. read.0.pieces.bytes ≡ take (image_limit + 17) left)) }
    ensures still { IfOk result (λ read. IfSome read.1.read_until (λ now. now ≡ read.1.stamp)) }
    ensures locked { IfOk result (λ read. IsTrue read.1.is_locked → read.1.read_until ≡ None) }
    ensures ignored { locks ≡ Locks.Ignored → IfOk result (λ read. IsFalse read.1.is_locked) }
{
    let mut system = regular_file(alloc, name, opened)?;
    check_streams(rt, &system.stamp)?;
    let was_locked = is_locked(&system.file, locks);
    let held = read_held(alloc, name, &mut system)?;
    system.is_locked = was_locked || is_locked(&system.file, locks);
    system.read_until = stamp_behind(rt, &system)?;
    Ok((held, system))
}

/// Why a file has to be read anew, by whether another program had it locked.
fn disturbance_of(is_locked: bool) -> FileFailure
    ensures locked { IsTrue is_locked → result ≡ FileFailure.Locked }
    ensures changed { IsFalse is_locked → result ≡ FileFailure.ChangedWhileRead }
{
    if is_locked {
        FileFailure::Locked
    } else {
        FileFailure::ChangedWhileRead
    }
}

/// Opens a regular file and reads it whole, up to the limit. Where it is changed in the meantime, or locks are heeded and another
/// program has locked it for itself alone, it is opened and read anew, up to three times in all. An absent file is made by the first
/// opening alone.
pub fn attach_file<R: Files>(
    rt: &R,
    alloc: Global,
    name: &str,
    make: bool,
    locks: Locks,
) -> Result<Option<(HeldFile, SystemFile<R::File>)>, OpenError>
where
    R::File: AsRawFd + Lockable,
    ensures made { IsTrue make → IfOk result (λ found. IsSome found) }
    ensures name { IfOk result (λ found. IfSome found (λ read. string_bytes read.0.name ≡ name.now)) }
    ensures still { IfOk result (λ found. IfSome found (λ read. read.1.read_until ≡ Some read.1.stamp)) }
    ensures free { IfOk result (λ found. IfSome found (λ read. IsFalse read.1.is_locked)) }
{
    let mut made_in = None;
    let mut disturbance = FileFailure::ChangedWhileRead;
    for turn in 0..READINGS {
        let is_first = turn == 0;
        match open_regular(rt, alloc, name, make && is_first)? {
            None if make => {}
            None => return Ok(None),
            Some(opened) => {
                let (held, mut system) = hold(rt, alloc, name, opened, locks)?;
                if is_first {
                    made_in = system.made_in.take();
                }
                if system.read_until.is_some() {
                    system.made_in = made_in;
                    return Ok(Some((held, system)));
                }
                disturbance = disturbance_of(system.is_locked);
            }
        }
    }
    Err(OpenError::Failed(disturbance))
}
