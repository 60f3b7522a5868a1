//! The files of the system as a store.

ghost use Rattle.std.specs.Prelude.{◌≡◌, ◌≤◌, ◌||◌, true, refl, IsFalse, None};
ghost use Rattle.std.proofs.Common.{inr};
ghost use Rattle.cdf_store.specs.Disk.{Disk};
ghost use Rattle.cdf_store.specs.HeldFile.{bytes_in, name_in, room_in, same_is_some};
ghost use Rattle.cdf_store.specs.Unstored.{nothing};

mod comparison;
mod faults;
mod folder;
mod held_file;
mod kind;
mod locks;
mod open_error;
mod opening;
mod reading;
mod stamp;
mod streams;
mod system_file;
mod writing;

use crate::{AttachError, Failed, FileFailure, Store, Unstored};
use faults::Faults;
use held_file::{HeldFile, attach_file};
pub use kind::check_regular;
pub use locks::{Lockable, Locks};
pub use open_error::OpenError;
pub use opening::{Opened, open_regular};
pub use reading::{READ_LIMIT, read_from};
use std::alloc::{AllocError, Global};
use std::os::fd::AsRawFd;
use std::rt::Files;
pub use system_file::{SystemFile, cut_to, regular_file, store_file, write_from};
pub use writing::Written;

/// The real files, of which only regular ones are attached. Two reads of a file are not known to agree, so an attached file is read
/// whole, up to the limit of an image and 17 bytes, and its bytes are kept. Reads are served from them, and each write and cut is
/// made in the file and in them. A file that cannot be opened for writing is attached all the same, and writes and cuts of it fail.
/// So do those of a file that another program changed after it was attached.
///
/// The first write or cut locks the file for this program alone, where the lock is to be had at once, until the store is dropped. Where
/// it is not, the file is written all the same. A store that heeds locks attaches no file that another program has locked so. Locks
/// are advisory, and some file systems have none.
///
/// The bytes are kept in pieces of 65,536. A page that covers all that a piece has becomes that piece, and is not copied.
#[derive(Drop)]
pub struct FileStore<R: Files> {
    rt: R,
    alloc: Global,
    locks: Locks,
    held: Option<HeldFile>,
    system: Option<SystemFile<R::File>>,
    writes: u64,
    end: u64,
    faults: Faults,
    synced: bool,
    unstored: Unstored,
    /// Whether a write or a cut was made in the file.
    is_written: bool,
    ghost has_room: { end ≤ room_in held },
}

impl<R: Files> FileStore<R>
where
    R::File: AsRawFd + Lockable,
{
    ghost use Rattle.cdf_store.specs.FileStore.{failure_of, is_written_of, locks_of};

    /// The files that the runtime reaches, of which none is attached. Locks of other programs are ignored.
    pub fn new(rt: R, alloc: Global) -> Self
        ensures disk { ⟦<FileStore<R> as Store>⟧.disk result
            ≡ record { held = None; name = None; files = None; only = None; touched = None; under = tt } }
        ensures read { ⟦<FileStore<R> as Store>⟧.read_faults result ≡ 0 }
        ensures write { ⟦<FileStore<R> as Store>⟧.write_faults result ≡ 0 }
        ensures unstored { ⟦<FileStore<R> as Store>⟧.unstored result ≡ nothing }
        ensures failure { failure_of result ≡ None }
        ensures unwritten { IsFalse (is_written_of result) }
        ensures locks { locks_of result ≡ Locks.Ignored }
    {
        FileStore::with_locks(rt, alloc, Locks::Ignored)
    }

    /// The files that the runtime reaches, of which none is attached. Where locks are heeded, attaching asks for them before the first
    /// byte of a file is read and behind the last one. A file that another program has locked for itself alone is read anew, as one that
    /// was changed in the meantime, and after the third time attaching fails.
    pub fn with_locks(rt: R, alloc: Global, locks: Locks) -> Self
        ensures disk { ⟦<FileStore<R> as Store>⟧.disk result
            ≡ record { held = None; name = None; files = None; only = None; touched = None; under = tt } }
        ensures read { ⟦<FileStore<R> as Store>⟧.read_faults result ≡ 0 }
        ensures write { ⟦<FileStore<R> as Store>⟧.write_faults result ≡ 0 }
        ensures unstored { ⟦<FileStore<R> as Store>⟧.unstored result ≡ nothing }
        ensures failure { failure_of result ≡ None }
        ensures unwritten { IsFalse (is_written_of result) }
        ensures locks { locks_of result ≡ locks }
    {
        FileStore {
            rt,
            alloc,
            locks,
            held: None,
            system: None,
            writes: 0,
            end: 0,
            faults: Faults {
                reads: 0,
                writes: 0,
                last: None,
            },
            synced: false,
            unstored: Unstored::nothing(),
            is_written: false,
        }
    }

    /// Why the last call failed that did.
    pub fn failure(&self) -> Option<FileFailure>
        ensures { result ≡ failure_of self.now }
    {
        self.faults.last
    }

    /// Whether a write or a cut was made in the file.
    pub fn is_written(&self) -> bool
        ensures { result ≡ is_written_of self.now }
    {
        self.is_written
    }
}

impl<R: Files> Store for FileStore<R>
where
    R::File: AsRawFd + Lockable,
{
    ghost use Rattle.cdf_store.specs.FileStore.{TellsWhy};

    ghost Under = { Unit {0} };

    ghost disk = { λ s. record {
      held = bytes_in s.held;
      name = name_in s.held;
      files = None;
      only = None;
      touched = None;
      under = tt;
    } };

    ghost taken = { λ _. None };

    ghost spare = { λ s. record { writes = s.writes; end = s.end } };

    ghost read_faults = { λ s. s.faults.reads };

    ghost write_faults = { λ s. s.faults.writes };

    ghost synced = { λ s. s.synced };

    ghost unstored = { λ s. s.unstored };

    ghost lends = { true };

    ghost also = { TellsWhy };

    ghost whole = { λ s. record { named = same_is_some s.held; distinct = tt; listed = tt } };

    ghost untold = { λ _. inr refl };

    fn attach(&mut self, name: &str, make: bool) -> Result<Option<u64>, AttachError> {
        let opened = attach_file(&self.rt, self.alloc, name, make, self.locks);
        match self.faults.of_attaching(opened) {
            Ok(Some((held, system))) => {
                let length = held.pieces.len();
                self.held = Some(held);
                self.system = Some(system);
                Ok(Some(length))
            }
            Ok(None) => Ok(None),
            Err(error) => Err(error),
        }
    }

    fn reserve(&mut self, writes: u64, end: u64) -> Result<(), AllocError> {
        if let Some(held) = &mut self.held {
            held.pieces.reserve(end)?;
        }
        self.writes = writes;
        self.end = end;
        Ok(())
    }

    fn size(&self) -> u64 {
        match &self.held {
            None => 0,
            Some(held) => held.pieces.len(),
        }
    }

    fn read_at(&mut self, place: u64, out: &mut [u8]) -> Result<usize, Failed> {
        match &self.held {
            None => Ok(0),
            Some(held) => Ok(held.pieces.copy_from(place, out)),
        }
    }

    fn lend(&self, place: u64, count: usize) -> Option<&[u8]> {
        match &self.held {
            None => Some(&[]),
            Some(held) => Some(held.pieces.part(place, count)),
        }
    }

    fn write_at(&mut self, place: u64, bytes: &[u8]) -> Result<(), Failed> {
        self.synced = false;
        let size = self.size();
        let written = system_file::write(&self.rt, &mut self.system, place, bytes);
        self.writes -= 1;
        let Some(failure) = written.failure else {
            self.unstored.write(size, place, bytes.len() as u64);
            self.is_written = is_either(self.is_written, bytes.len() > 0);
            if let Some(held) = &mut self.held {
                held.pieces.put_in(place, bytes);
            }
            return Ok(());
        };
        let failed = self.faults.of_writing(failure);
        if written.count == 0 {
            return Err(failed);
        }
        self.unstored.write(size, place, written.count as u64);
        self.is_written = true;
        if let Some(held) = &mut self.held {
            held.pieces.put_in(place, &bytes[..written.count]);
        }
        Err(failed)
    }

    fn write_page(&mut self, place: u64, mut page: Vec<u8>, count: usize) -> Result<(), Vec<u8>> {
        self.synced = false;
        let size = self.size();
        let front = &page[..count];
        let written = system_file::write(&self.rt, &mut self.system, place, front);
        self.writes -= 1;
        let Some(failure) = written.failure else {
            self.unstored.write(size, place, count as u64);
            self.is_written = is_either(self.is_written, count > 0);
            if let Some(held) = &mut self.held {
                page.truncate(count);
                held.pieces.put_page(place, page);
            }
            return Ok(());
        };
        self.faults.of_writing(failure);
        if written.count == 0 {
            return Err(page);
        }
        self.unstored.write(size, place, written.count as u64);
        self.is_written = true;
        if let Some(held) = &mut self.held {
            held.pieces.put_in(place, &front[..written.count]);
        }
        Err(page)
    }

    fn set_len(&mut self, n: u64) -> Result<(), Failed> {
        self.synced = false;
        let length = self.size();
        if let Err(failure) = system_file::cut(&self.rt, &mut self.system, length, n) {
            return Err(self.faults.of_writing(failure));
        }
        self.unstored.cut(length, n);
        if let Some(held) = &mut self.held {
            held.pieces.truncate(n);
        }
        self.writes -= 1;
        self.is_written = is_either(self.is_written, n < length);
        Ok(())
    }

    fn sync(&mut self) -> Result<(), Failed> {
        self.synced = false;
        if let Err(failure) = system_file::store(&self.rt, &self.system, self.size()) {
            return Err(self.faults.of_writing(failure));
        }
        self.synced = true;
        self.unstored = Unstored::nothing();
        Ok(())
    }

    fn unstored(&self) -> Unstored {
        self.unstored
    }
}

/// Whether either holds.
fn is_either(first: bool, second: bool) -> bool
    ensures { result ≡ (first || second) }
{
    first || second
}
