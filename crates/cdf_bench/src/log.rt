//! How many bytes a saving through a log writes.

ghost use Rattle.std.specs.Prelude.{◌≡◌};

use crate::failed::Failed;
use cdf_journal::Part;
use cdf_mem_disk::MemDisk;
use cdf_start::start;
use cdf_store::{MemSink, MemSource, MemStore, Store};
use cdf_tool::run as run_plain;
use std::alloc::Global;
use std::rt::Runtime;

/// The name of the file.
const NAME: &str = "file";

/// How many bytes a record has, which is as many as a page.
const RECORD: usize = 65_536;

/// The most bytes of output, and of a piece of the script.
const PIECE: usize = 65_536;

fn words_of(alloc: Global, words: &[&str]) -> Result<Vec<String>, Failed> {
    let mut all = Vec::new(alloc);
    for word in words {
        all.push(String::from_str(alloc, word)?)?;
    }
    Ok(all)
}

/// A file of one variable with so many records, each of pad values.
fn made_file(alloc: Global, records: usize) -> Result<Vec<u8>, Failed> {
    let last = records.saturating_sub(1);
    let script = format!(in alloc; "zvar B UINT1 1 vary {RECORD} T\nput-val B {last} 0 1\n")?;
    let mut source = MemSource::new(alloc, Vec::from_slice(alloc, script.as_bytes())?, PIECE);
    let mut sink = MemSink::new(alloc, PIECE)?;
    let words = words_of(alloc, &["--new", NAME])?;
    let ended = run_plain(
        alloc,
        &words,
        MemStore::new(alloc),
        &mut source,
        &mut sink,
        &mut Vec::new(alloc),
    );
    match ended.store.file(NAME) {
        Some(bytes) if ended.status.is_done() => Ok(Vec::from_slice(alloc, bytes)?),
        _ => Err(Failed::Outside),
    }
}

/// Lines that put so many values, each into another record.
fn puts(alloc: Global, records: usize, count: usize) -> Result<String, Failed> {
    let mut script = String::new(alloc);
    let apart = records.checked_div(count).unwrap_or(1).max(1);
    let mut record = 0usize;
    for _ in 0..count {
        let line = format!(in alloc; "put-val B {record} 7 5\n")?;
        script.push_str(line.as_str())?;
        record = record.saturating_add(apart);
    }
    Ok(script)
}

/// Puts so many values into a file of so many bytes, and prints how many bytes the disk was given until they were saved.
pub fn run(rt: &(impl Runtime + AllocGlobal), count: usize, size: usize) -> Result<(), Failed> {
    let alloc = rt.alloc();
    let records = size / RECORD;
    let mut disk = MemDisk::new(alloc, 64, RECORD as u64)?;
    disk.put_file(NAME, &made_file(alloc, records)?, b"")?;
    let script = puts(alloc, records, count)?;
    let mut source = MemSource::new(alloc, Vec::from_slice(alloc, script.as_bytes())?, PIECE);
    let mut sink = MemSink::new(alloc, PIECE)?;
    let words = words_of(alloc, &["--journal", NAME])?;
    let started = start(
        alloc,
        &words,
        MemStore::new(alloc),
        disk,
        &mut source,
        &mut sink,
        &mut Vec::new(alloc),
    );
    if started.status.number() != 0 || started.disk.part(Part::Main).is_none() {
        return Err(Failed::Outside);
    }
    println!(rt; "{}", started.disk.written())?;
    Ok(())
}
