//! The files of the system as a disk.

ghost use Rattle.std.specs.Prelude.{◌≡◌, ◌≤◌, length, false, IfOk, None, Some};
ghost use Rattle.cdf_base.specs.Causes.{Rose};
ghost use Rattle.cdf_journal.specs.Crashes.{ReadsSome};
ghost use Rattle.cdf_journal.specs.FileDisk.{length_in, size_in};

use crate::disk_file::{DiskFile, cut_file, open_parts, read_file, sync_file, write_file};
use crate::{Disk, Part};
use cdf_store::{AttachError, Failed, FileFailure, Lockable, OpenError};
use std::alloc::Global;
use std::io::{Read, Seek};
use std::os::fd::AsRawFd;
use std::rt::Files;

/// The real files: a file, and beside it its log, the one whose name has `.journal` appended. Both are regular ones, and the log is no
/// link. A file that is longer than the limit of an image and 17 bytes counts as one of that length. A file that another program
/// changed after it was attached is not written. The first write or cut of each locks it, as that of a `FileStore` does; locks of other
/// programs are ignored.
///
/// It tells nothing of what a crash leaves: that a file that was stored outlasts it is the system's promise.
#[derive(Drop)]
pub struct FileDisk<R: Files> {
    rt: R,
    alloc: Global,
    main: Option<DiskFile<R::File>>,
    log: Option<DiskFile<R::File>>,
    faults: u64,
    last: Option<FileFailure>,
}

/// Counts a fault, and keeps its reason.
fn count_fault(faults: &mut u64, last: &mut Option<FileFailure>, failure: FileFailure) -> Failed
    ensures later { faults.old ≤ faults.new }
    ensures rose { Rose faults.old faults.new }
    ensures why { last.new ≡ Some failure }
{
    *faults = faults.saturating_add(1);
    *last = Some(failure);
    Failed
}

/// Reads bytes of a part from a place on, and answers how many.
fn read_either<F: Read + Seek>(
    part: Part,
    main: &mut Option<DiskFile<F>>,
    log: &mut Option<DiskFile<F>>,
    place: u64,
    out: &mut [u8],
) -> Result<usize, FileFailure>
    ensures some { IfOk result (ReadsSome (size_in part (length_in main.old) (length_in log.old)) place (length out.new)) }
    ensures main { length_in main.new ≡ length_in main.old }
    ensures log { length_in log.new ≡ length_in log.old }
{
    match part {
        Part::Main => read_file(main, place, out),
        Part::Log => read_file(log, place, out),
    }
}

impl<R: Files> FileDisk<R>
where
    R::File: AsRawFd + Lockable,
{
    /// The files that the runtime reaches, of which none is attached.
    pub fn new(rt: R, alloc: Global) -> Self
        ensures faults { ⟦<FileDisk<R> as Disk>⟧.faults result ≡ 0 }
        ensures seen { ⟦<FileDisk<R> as Disk>⟧.seen result ≡ None }
    {
        FileDisk {
            rt,
            alloc,
            main: None,
            log: None,
            faults: 0,
            last: None,
        }
    }

    /// Why the last call failed that did.
    pub fn failure(&self) -> Option<FileFailure>
        ensures { result ≡ self.now.last }
    {
        self.last
    }
}

impl<R: Files> Disk for FileDisk<R>
where
    R::File: AsRawFd + Lockable,
{
    ghost seen = { λ _. None };

    ghost there = { λ _ _. false };

    ghost size = { λ d part. size_in part (length_in d.main) (length_in d.log) };

    ghost may_leave = { λ _ _. Unit {0} };

    ghost moment = { λ _. 0 };

    ghost left_since = { λ _ _ _. Unit {0} };

    ghost faults = { λ d. d.faults };

    ghost counts_now = { λ disk t c le now. tt };

    ghost only_now = { λ disk c left. tt };

    ghost sized = { λ disk part. tt };

    fn attach(&mut self, name: &str, make: bool) -> Result<Option<u64>, AttachError> {
        match open_parts(&self.rt, self.alloc, name, make) {
            Ok(Some((main, log))) => {
                let length = main.length;
                self.main = Some(main);
                self.log = Some(log);
                Ok(Some(length))
            }
            Ok(None) => Ok(None),
            Err(OpenError::NoMemory) => Err(AttachError::NoMemory),
            Err(OpenError::Failed(failure)) => {
                count_fault(&mut self.faults, &mut self.last, failure);
                Err(AttachError::Failed)
            }
        }
    }

    fn len(&self, part: Part) -> u64 {
        let file = match part {
            Part::Main => &self.main,
            Part::Log => &self.log,
        };
        match file {
            None => 0,
            Some(file) => file.length,
        }
    }

    fn read_at(&mut self, part: Part, place: u64, out: &mut [u8]) -> Result<usize, Failed> {
        match read_either(part, &mut self.main, &mut self.log, place, out) {
            Ok(count) => Ok(count),
            Err(failure) => Err(count_fault(&mut self.faults, &mut self.last, failure)),
        }
    }

    fn write_at(&mut self, part: Part, place: u64, bytes: &[u8]) -> Result<(), Failed> {
        let written = match part {
            Part::Main => write_file(&self.rt, &mut self.main, place, bytes),
            Part::Log => write_file(&self.rt, &mut self.log, place, bytes),
        };
        match written {
            Ok(()) => Ok(()),
            Err(failure) => Err(count_fault(&mut self.faults, &mut self.last, failure)),
        }
    }

    fn cut(&mut self, part: Part, n: u64) -> Result<(), Failed> {
        let cut = match part {
            Part::Main => cut_file(&self.rt, &mut self.main, n),
            Part::Log => cut_file(&self.rt, &mut self.log, n),
        };
        match cut {
            Ok(()) => Ok(()),
            Err(failure) => Err(count_fault(&mut self.faults, &mut self.last, failure)),
        }
    }

    fn sync(&mut self) -> Result<(), Failed> {
        let main = sync_file(&self.rt, &mut self.main);
        let log = sync_file(&self.rt, &mut self.log);
        match main.and(log) {
            Ok(()) => Ok(()),
            Err(failure) => Err(count_fault(&mut self.faults, &mut self.last, failure)),
        }
    }
}
