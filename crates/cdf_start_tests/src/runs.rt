//! A run over a disk in memory, and the file that is found next.

use cdf_journal::Part;
use cdf_mem_disk::MemDisk;
use cdf_start::start;
use cdf_store::{MemSink, MemSource, MemStore};
use std::alloc::Global;
use std::test::Fail;

const NAME: &str = "a.cdf";

/// What came of a run.
#[derive(Drop)]
pub struct Ran {
    pub status: u8,
    pub text: Vec<u8>,
    pub disk: MemDisk,
}

/// A disk with this file and this log, on which the call of a number fails.
pub fn disk_failing(alloc: Global, file: &[u8], log: &[u8], call: u64) -> Result<MemDisk, Fail> {
    let mut disk = MemDisk::new(alloc, 256, 65_536)?;
    disk.put_file(NAME, file, log)?;
    disk.fail_at(call)?;
    Ok(disk)
}

/// Runs a script over the file of a disk and its log, with a flag or none.
pub fn run_over(alloc: Global, disk: MemDisk, flag: &str, script: &[u8]) -> Result<Ran, Fail> {
    let mut words = Vec::new(alloc);
    words.push(String::from_str(alloc, "--journal")?)?;
    if !flag.is_empty() {
        words.push(String::from_str(alloc, flag)?)?;
    }
    words.push(String::from_str(alloc, NAME)?)?;
    let mut source = MemSource::new(alloc, Vec::from_slice(alloc, script)?, 65_536);
    let mut sink = MemSink::new(alloc, 1000)?;
    let started = start(
        alloc,
        &words,
        MemStore::new(alloc),
        disk,
        &mut source,
        &mut sink,
        &mut Vec::new(alloc),
    );
    Ok(Ran {
        status: started.status.number(),
        text: Vec::from_slice(alloc, sink.written())?,
        disk: started.disk,
    })
}

/// The bytes of a part of a disk.
pub fn bytes_of(alloc: Global, disk: &MemDisk, part: Part) -> Result<Vec<u8>, Fail> {
    match disk.part(part) {
        None => Err(Fail::new("there is no file")),
        Some(bytes) => Ok(Vec::from_slice(alloc, bytes)?),
    }
}

/// The bytes of the file of a disk, as it is found when it is opened next.
pub fn found_next(alloc: Global, disk: MemDisk) -> Result<Vec<u8>, Fail> {
    let ran = run_over(alloc, disk, "", b"")?;
    if ran.status != 0 {
        return Err(Fail::new("the file was not opened"));
    }
    bytes_of(alloc, &ran.disk, Part::Main)
}

/// A file that a run made.
pub fn made_file(alloc: Global) -> Result<Vec<u8>, Fail> {
    let disk = MemDisk::new(alloc, 64, 4096)?;
    let ran = run_over(alloc, disk, "--new", b"attr Project global\n")?;
    if ran.status != 0 {
        return Err(Fail::new("no file was made"));
    }
    bytes_of(alloc, &ran.disk, Part::Main)
}
