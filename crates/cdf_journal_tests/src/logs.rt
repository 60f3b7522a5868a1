//! Logs that are found where a file is opened.

use crate::saving::{LONGER, NAME, OLD, bytes_of, disk_failing, found_next, opened_next, save};
use cdf_journal::{JournalError, JournalRefusal, JournalStore, Part};
use cdf_mem_disk::MemDisk;
use std::alloc::Global;
use std::test::Fail;

/// A log that says what makes the old file longer, and is open.
fn open_log(alloc: Global) -> Result<Vec<u8>, Fail> {
    let saved = save(alloc, disk_failing(alloc, b"", 0)?, LONGER)?;
    let mut log = bytes_of(alloc, &saved.disk, Part::Log)?;
    match log.first_mut() {
        None => Err(Fail::new("the log is empty")),
        Some(gate) => {
            *gate = 1;
            Ok(log)
        }
    }
}

#[test]
fn a_crash_as_a_file_is_mended_leaves_it_to_be_mended(rt: HostRuntime) -> Result<(), Fail> {
    let alloc = rt.alloc();
    let log = open_log(alloc)?;
    let calls = opened_next(alloc, disk_failing(alloc, &log, 0)?)?.calls();
    for call in 1..calls.saturating_add(1) {
        for keep in 0..6 {
            let disk = disk_failing(alloc, &log, call)?;
            match JournalStore::open(alloc, disk, NAME, false) {
                Ok(_) => return Err(Fail::new("a call did not fail")),
                Err(JournalRefusal { mut disk, why }) => {
                    assert_eq!(rt; why, JournalError::Fault);
                    disk.crash(keep)?;
                    let file = found_next(alloc, disk)?;
                    assert_eq!(rt; file.as_slice(), LONGER, "call {call}, {keep} kept");
                }
            }
        }
    }
    Ok(())
}

#[test]
fn a_short_log_says_nothing(rt: HostRuntime) -> Result<(), Fail> {
    let alloc = rt.alloc();
    let disk = opened_next(alloc, disk_failing(alloc, &[1, 0, 0, 0, 0, 0, 0, 0], 0)?)?;
    assert_eq!(rt; bytes_of(alloc, &disk, Part::Main)?.as_slice(), OLD);
    assert_eq!(rt;
        bytes_of(alloc, &disk, Part::Log)?.as_slice(),
        [0; 8].as_slice()
    );
    Ok(())
}

#[test]
fn an_open_log_that_is_no_journal_is_refused(rt: HostRuntime) -> Result<(), Fail> {
    let alloc = rt.alloc();
    // a new length of 5, and one member, which is not there
    let mut log = [0; 24];
    log[0] = 1;
    log[15] = 5;
    log[23] = 1;
    match JournalStore::open(alloc, disk_failing(alloc, &log, 0)?, NAME, false) {
        Ok(_) => Err(Fail::new("a log was taken for a journal")),
        Err(JournalRefusal { disk, why }) => {
            assert_eq!(rt; why, JournalError::BadLog);
            assert_eq!(rt; bytes_of(alloc, &disk, Part::Main)?.as_slice(), OLD);
            assert_eq!(rt;
                bytes_of(alloc, &disk, Part::Log)?.as_slice(),
                log.as_slice()
            );
            Ok(())
        }
    }
}

#[test]
fn an_absent_file_is_made_where_it_is_to_be(rt: HostRuntime) -> Result<(), Fail> {
    let alloc = rt.alloc();
    let disk = MemDisk::new(alloc, 8, 64)?;
    assert!(rt; disk.part(Part::Main).is_none());
    match JournalStore::open(alloc, disk, NAME, false) {
        Ok(_) => Err(Fail::new("a file was found that is not there")),
        Err(JournalRefusal { disk, why }) => {
            assert_eq!(rt; why, JournalError::NoFile);
            match JournalStore::open(alloc, disk, NAME, true) {
                Ok(store) => {
                    let disk = store.into_disk();
                    assert_eq!(rt; bytes_of(alloc, &disk, Part::Main)?.len(), 0);
                    assert_eq!(rt; bytes_of(alloc, &disk, Part::Log)?.len(), 8);
                    Ok(())
                }
                Err(_) => Err(Fail::new("the file was not made")),
            }
        }
    }
}
