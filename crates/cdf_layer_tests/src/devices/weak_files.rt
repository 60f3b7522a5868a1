//! Devices that are interrupted, and fail in mid-stream.

use super::meddler::Meddler;
use cdf_store::{FileFailure, Lockable, SystemError};
use std::alloc::Allocator;
use std::fs::{File, Metadata, OpenFile, OpenOptions, TryLockError};
use std::io::{Error, ErrorKind, Read, Result, Seek, SeekFrom, Write};
use std::os::fd::{AsRawFd, RawFd};
use std::result;
use std::rt::Files;

/// A stream whose first call is interrupted, and whose third call fails.
#[derive(Drop)]
pub struct Stutter<'a> {
    rest: &'a [u8],
    calls: u64,
}

impl<'a> Stutter<'a> {
    pub fn new(rest: &'a [u8]) -> Self {
        Stutter { rest, calls: 0 }
    }

    fn call(&mut self) -> Result<()> {
        self.calls = self.calls.saturating_add(1);
        match self.calls {
            1 => Err(Error::from(ErrorKind::Interrupted)),
            3 => Err(Error::from(ErrorKind::TimedOut)),
            _ => Ok(()),
        }
    }
}

impl Read for Stutter<'_> {
    fn read(&mut self, buf: &mut [u8]) -> Result<usize> {
        self.call()?;
        self.rest.read(buf)
    }
}

impl Write for Stutter<'_> {
    fn write(&mut self, buf: &[u8]) -> Result<usize> {
        self.call()?;
        Ok(buf.len())
    }

    fn flush(&mut self) -> Result<()> {
        Ok(())
    }
}

/// What fails of a file, by an input or output error.
#[derive(Clone, Copy, PartialEq, Eq)]
pub enum Fault {
    None,
    /// Each cut.
    Cut,
    /// To tell how it stands, once a byte of it was read.
    StampWhenRead,
    /// To tell how it stands, once a byte of it was written.
    StampWhenWritten,
    /// Each storing of it.
    Sync,
    /// Each storing of a folder.
    FolderSync,
    /// Each locking of it, and each letting go.
    Lock,
    /// To lock it beside others, once a byte of it was read, since another program has locked it by then.
    LockWhenRead,
}

impl Fault {
    /// Fails where this is the fault and its time has come.
    fn check(self, fault: Fault, is_due: bool) -> Result<()> {
        if is_due && self == fault {
            Err(Error::from_raw_os_error(INPUT_OUTPUT_ERROR))
        } else {
            Ok(())
        }
    }
}

/// The system's number of an input or output error.
const INPUT_OUTPUT_ERROR: i32 = 5;

/// The failure of a fault.
pub const BROKEN: FileFailure = FileFailure::System(SystemError {
    kind: ErrorKind::Uncategorized,
    number: Some(INPUT_OUTPUT_ERROR),
});

/// The failure of a link that leads to itself.
pub const LOOPED: FileFailure = FileFailure::System(SystemError {
    kind: ErrorKind::FilesystemLoop,
    number: Some(40),
});

/// How a file is weak.
#[derive(Clone, Copy)]
pub struct Weakness {
    /// How many bytes the file takes in all, or `None` where it cannot be opened for writing.
    pub takes: Option<usize>,
    /// How many bytes the file gives before its reads fail.
    pub gives: usize,
    /// The most bytes of a call.
    pub most: usize,
    /// Whether the file cannot be opened at all.
    pub is_locked: bool,
    pub fault: Fault,
    /// What another program does each time that the file was opened and a part of it was read.
    pub meddler: Option<Meddler>,
    /// The name of a standard stream, and that of the file which it is.
    pub stream: Option<(&'static str, &'static str)>,
    /// The place that the file says it has, where not its own.
    pub place: Option<RawFd>,
}

/// A file that gives and takes two bytes at once, and is sound besides.
pub const SLOW: Weakness = Weakness {
    takes: Some(1 << 20),
    gives: 1 << 20,
    most: 2,
    is_locked: false,
    fault: Fault::None,
    meddler: None,
    stream: None,
    place: None,
};

/// A runtime whose files are weak.
#[derive(Drop)]
pub struct WeakFiles {
    pub rt: HostRuntime,
    pub weakness: Weakness,
}

/// A weak file, whose every other call is interrupted.
#[derive(Drop)]
pub struct WeakFile {
    rt: HostRuntime,
    file: File,
    is_folder: bool,
    is_meddled: bool,
    weakness: Weakness,
    takes: usize,
    gives: usize,
    interrupts: bool,
}

impl WeakFile {
    fn call(&mut self) -> Result<()> {
        self.interrupts = !self.interrupts;
        if self.interrupts {
            Err(Error::from(ErrorKind::Interrupted))
        } else {
            Ok(())
        }
    }

    fn meddle(&mut self) -> Result<()> {
        match self.weakness.meddler {
            Some(meddler) if !self.is_meddled => {
                self.is_meddled = true;
                meddler.meddle(self.rt)
            }
            _ => Ok(()),
        }
    }
}

impl Read for WeakFile {
    fn read(&mut self, buf: &mut [u8]) -> Result<usize> {
        self.call()?;
        let most = buf.len().min(self.gives).min(self.weakness.most);
        if most == 0 {
            return Err(Error::from(ErrorKind::TimedOut));
        }
        let count = self.file.read(&mut buf[..most])?;
        self.gives -= count;
        self.meddle()?;
        Ok(count)
    }
}

impl Write for WeakFile {
    fn write(&mut self, buf: &[u8]) -> Result<usize> {
        self.call()?;
        let most = buf.len().min(self.takes).min(self.weakness.most);
        if most == 0 {
            return Err(Error::from(ErrorKind::StorageFull));
        }
        let count = self.file.write(&buf[..most])?;
        self.takes -= count;
        Ok(count)
    }

    fn flush(&mut self) -> Result<()> {
        Ok(())
    }
}

impl AsRawFd for WeakFile {
    fn as_raw_fd(&self) -> RawFd {
        match self.weakness.place {
            None => self.file.as_raw_fd(),
            Some(place) => place,
        }
    }
}

impl Seek for WeakFile {
    fn seek(&mut self, to: SeekFrom) -> Result<u64> {
        self.file.seek(to)
    }
}

impl Lockable for WeakFile {
    fn try_lock(&self) -> result::Result<(), TryLockError> {
        match self.weakness.fault.check(Fault::Lock, true) {
            Ok(()) => self.file.try_lock(),
            Err(error) => Err(TryLockError::Error(error)),
        }
    }

    fn try_lock_shared(&self) -> result::Result<(), TryLockError> {
        let fault = self.weakness.fault;
        if fault == Fault::LockWhenRead && self.gives < self.weakness.gives {
            return Err(TryLockError::WouldBlock);
        }
        match fault.check(Fault::Lock, true) {
            Ok(()) => self.file.try_lock_shared(),
            Err(error) => Err(TryLockError::Error(error)),
        }
    }

    fn unlock(&self) -> Result<()> {
        self.weakness.fault.check(Fault::Lock, true)?;
        self.file.unlock()
    }
}

impl OpenFile for WeakFile {
    fn metadata(&self) -> Result<Metadata> {
        let fault = self.weakness.fault;
        fault.check(Fault::StampWhenRead, self.gives < self.weakness.gives)?;
        let is_written = Some(self.takes) != self.weakness.takes;
        fault.check(Fault::StampWhenWritten, is_written)?;
        self.file.metadata()
    }

    fn set_len(&self, size: u64) -> Result<()> {
        self.weakness.fault.check(Fault::Cut, true)?;
        self.file.set_len(size)
    }

    fn sync_all(&self) -> Result<()> {
        let fault = self.weakness.fault;
        fault.check(Fault::Sync, !self.is_folder)?;
        fault.check(Fault::FolderSync, self.is_folder)?;
        self.file.sync_all()
    }

    fn sync_data(&self) -> Result<()> {
        self.file.sync_data()
    }
}

impl Files for WeakFiles {
    type File = WeakFile;

    type Dir = <HostRuntime as Files>::Dir;

    fn open_file(&self, how: &OpenOptions, path: &str) -> Result<WeakFile> {
        let weakness = self.weakness;
        if weakness.is_locked || how.asks_write() && weakness.takes.is_none() {
            return Err(Error::from(ErrorKind::PermissionDenied));
        }
        let file = self.rt.open_file(how, path)?;
        Ok(WeakFile {
            rt: self.rt,
            is_folder: file.metadata()?.is_dir(),
            is_meddled: false,
            file,
            weakness,
            takes: weakness.takes.unwrap_or(0),
            gives: weakness.gives,
            interrupts: false,
        })
    }

    fn open_dir(&self, path: &str) -> Result<Self::Dir> {
        self.rt.open_dir(path)
    }

    fn metadata(&self, path: &str) -> Result<Metadata> {
        match self.weakness.stream {
            Some((stream, name)) if stream == path => self.rt.metadata(name),
            _ => self.rt.metadata(path),
        }
    }

    fn symlink_metadata(&self, path: &str) -> Result<Metadata> {
        self.rt.symlink_metadata(path)
    }

    fn copy(&self, from: &str, to: &str) -> Result<u64> {
        self.rt.copy(from, to)
    }

    fn rename(&self, from: &str, to: &str) -> Result<()> {
        self.rt.rename(from, to)
    }

    fn remove_file(&self, path: &str) -> Result<()> {
        self.rt.remove_file(path)
    }

    fn create_dir(&self, path: &str) -> Result<()> {
        self.rt.create_dir(path)
    }

    fn remove_dir(&self, path: &str) -> Result<()> {
        self.rt.remove_dir(path)
    }

    fn remove_dir_all<B: Allocator>(&self, alloc: B, path: &str) -> Result<()> {
        self.rt.remove_dir_all(alloc, path)
    }
}
