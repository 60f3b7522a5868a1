//! Files and logs that are not opened.

use crate::runs::{bytes_of, disk_failing, made_file, run_over};
use cdf_journal::Part;
use cdf_mem_disk::MemDisk;
use std::test::Fail;

#[test]
fn a_log_that_is_no_journal_is_refused(rt: HostRuntime) -> Result<(), Fail> {
    let alloc = rt.alloc();
    let file = made_file(alloc)?;
    // a new length of 5, and one member, which is not there
    let mut log = [0; 24];
    log[0] = 1;
    log[15] = 5;
    log[23] = 1;
    let ran = run_over(alloc, disk_failing(alloc, &file, &log, 0)?, "", b"info\n")?;
    assert_eq!(rt; ran.status, 14);
    assert_eq!(rt; ran.text.as_slice(), b"bad journal\n".as_slice());
    assert_eq!(rt; bytes_of(alloc, &ran.disk, Part::Main)?, file);
    assert_eq!(rt;
        bytes_of(alloc, &ran.disk, Part::Log)?.as_slice(),
        log.as_slice()
    );
    Ok(())
}

#[test]
fn a_short_log_says_nothing(rt: HostRuntime) -> Result<(), Fail> {
    let alloc = rt.alloc();
    let file = made_file(alloc)?;
    let log = [1, 0, 0, 0, 0, 0, 0, 0];
    let ran = run_over(alloc, disk_failing(alloc, &file, &log, 0)?, "", b"")?;
    assert_eq!(rt; ran.status, 0);
    assert_eq!(rt; bytes_of(alloc, &ran.disk, Part::Main)?, file);
    Ok(())
}

#[test]
fn an_absent_file_is_not_made(rt: HostRuntime) -> Result<(), Fail> {
    let alloc = rt.alloc();
    let ran = run_over(alloc, MemDisk::new(alloc, 8, 64)?, "", b"info\n")?;
    assert_eq!(rt; ran.status, 3);
    assert_eq!(rt; ran.text.as_slice(), b"no file\n".as_slice());
    assert!(rt; ran.disk.part(Part::Main).is_none());
    Ok(())
}
