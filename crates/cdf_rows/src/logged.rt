//! A row is run through a log, over a disk in memory that stops after a number of calls.

use crate::row::Row;
use anyhow::Result;
use cdf_journal::Part;
use cdf_mem_disk::MemDisk;
use cdf_start::start;
use cdf_store::{MemSink, MemSource, MemStore};
use cdf_tap::{NeedsVarType, Tally, Tap};
use std::alloc::Global;

/// For how many calls, and for how many bytes of writes, a disk has room from the start.
const CALLS: u64 = 64;

const BYTES: u64 = 65_536;

/// The most bytes that a read of the script gives, and that the output takes.
const PIECE: u64 = 65_536;

const ROOM: usize = 1_000_000;

/// What came of a run through a log.
#[derive(Drop)]
pub struct Logged {
    pub status: usize,
    pub text: Vec<u8>,
    pub disk: MemDisk,
}

impl Logged {
    /// The file that is left.
    pub fn file(&self) -> Option<&[u8]> {
        self.disk.part(Part::Main)
    }
}

/// A disk with the file of a row, if there is one, on which the call of a number fails.
pub fn disk_failing(alloc: Global, row: &Row, file: Option<&[u8]>, call: u64) -> Result<MemDisk> {
    let mut disk = MemDisk::new(alloc, CALLS, BYTES)?;
    if let Some(bytes) = file {
        disk.put_file(row.name.as_str(), bytes, b"")?;
    }
    disk.fail_at(call)?;
    Ok(disk)
}

/// Runs a script over a disk, as these words ask for behind the one that asks for a log.
fn run_words(alloc: Global, words: Vec<String>, script: &[u8], disk: MemDisk) -> Result<Logged> {
    let mut source = MemSource::new(alloc, Vec::from_slice(alloc, script)?, PIECE as usize);
    let mut sink = MemSink::new(alloc, ROOM)?;
    let mut taps: Vec<Box<dyn Tap>> = Vec::new(alloc);
    taps.push(Box::new(alloc, Tally::new(alloc)?)?)?;
    taps.push(Box::new(alloc, NeedsVarType::new(alloc)?)?)?;
    let started = start(
        alloc,
        &words,
        MemStore::new(alloc),
        disk,
        &mut source,
        &mut sink,
        &mut taps,
    );
    Ok(Logged {
        status: started.status.number() as usize,
        text: Vec::from_slice(alloc, sink.written())?,
        disk: started.disk,
    })
}

/// Runs a row through a log.
pub fn run_logged(alloc: Global, row: &Row, disk: MemDisk) -> Result<Logged> {
    let mut words = Vec::new(alloc);
    words.push(String::from_str(alloc, "--journal")?)?;
    for word in &row.words {
        words.push(String::from_str(alloc, word.as_str())?)?;
    }
    run_words(alloc, words, &row.script, disk)
}

/// The file of a row as it is found when it is opened next; none where it is absent or empty, as an attaching may have made it.
pub fn found_next(alloc: Global, row: &Row, disk: MemDisk) -> Result<Option<Vec<u8>>> {
    let mut words = Vec::new(alloc);
    for word in ["--journal", "--no-save", "--", row.name.as_str()] {
        words.push(String::from_str(alloc, word)?)?;
    }
    let ran = run_words(alloc, words, b"", disk)?;
    match ran.file() {
        None => Ok(None),
        Some(bytes) if bytes.is_empty() => Ok(None),
        Some(bytes) => Ok(Some(Vec::from_slice(alloc, bytes)?)),
    }
}
