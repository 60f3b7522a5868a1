//! A run of the program over devices in memory.

use crate::row::Row;
use anyhow::Result;
use cdf_store::{MemSink, MemSource, MemStore};
use cdf_tap::{NeedsVarType, Tally, Tap};
use cdf_tellings::{FileNews, Said, Telling, look};
use cdf_tool::{Ended, Left, run};
use std::alloc::Global;

/// What the store, the script and the output do.
#[derive(Clone, Copy)]
pub struct Devices {
    /// The most bytes that a read of the script gives.
    pub most: usize,
    /// The calls of the store, of the script and of the output that fail, counted from 1; 0 for none.
    pub failing: [u64; 3],
}

impl Devices {
    /// No call fails.
    pub fn sound(most: usize) -> Devices {
        Devices {
            most,
            failing: [0; 3],
        }
    }

    /// One call of one device fails.
    pub fn failing(most: usize, device: usize, call: u64) -> Devices {
        let mut failing = [0; 3];
        if let Some(failing_call) = failing.get_mut(device) {
            *failing_call = call;
        }
        Devices { most, failing }
    }
}

/// What came of a run.
#[derive(Drop)]
pub struct Ran {
    pub status: usize,
    pub text: Vec<u8>,
    /// What is told of the run.
    pub told: String,
    /// The file of the row that is left.
    pub file: Option<Vec<u8>>,
    /// The file `-` is as it was.
    pub is_other_kept: bool,
    /// How often the store, the script and the output were called.
    pub calls: [u64; 3],
}

/// The most bytes that the output takes.
const ROOM: usize = 1_000_000;

/// What stands in the file `-` beside `a.cdf`.
const OTHER: &[u8] = b"another file";

/// What is told of a run of a row over this file, and nothing where nothing is to be told. The store does not say whether it wrote, so
/// where all bytes are as they were to be it is taken for one that wrote nothing if the file stayed.
fn told_of(
    alloc: Global,
    row: &Row,
    before: Option<&[u8]>,
    ended: &mut Ended<MemStore>,
) -> Result<String> {
    let is_whole = ended.status.is_done() || ended.notes.left == Some(Left::Unsynced);
    let is_same = ended.store.file(row.name.as_str()) == before;
    let nature = match ended.notes.broken {
        Some(broken) => look(&mut ended.store, broken),
        None => None,
    };
    let telling = Telling {
        said: Said::of_words(alloc, &row.words),
        status: ended.status,
        notes: ended.notes,
        news: FileNews {
            failure: None,
            is_unwritten: is_whole && is_same,
            nature,
        },
    };
    if telling.is_due() {
        Ok(format!(in alloc; "{telling}")?)
    } else {
        Ok(String::new(alloc))
    }
}

/// Runs what a row asks for over its file and such devices, with the taps that the program hands in.
pub fn run_row(alloc: Global, row: &Row, before: Option<&[u8]>, devices: &Devices) -> Result<Ran> {
    let mut store = MemStore::new(alloc);
    for call in &row.fails {
        store.fail_at(*call)?;
    }
    store.fail_at(devices.failing[0])?;
    if let Some(bytes) = before {
        store.put_file(row.name.as_str(), bytes)?;
    }
    store.put_file("-", OTHER)?;
    let script = Vec::from_slice(alloc, &row.script)?;
    let mut source = MemSource::new(alloc, script, devices.most.max(1));
    source.fail_at(devices.failing[1])?;
    let mut sink = MemSink::new(alloc, ROOM)?;
    sink.fail_at(devices.failing[2])?;
    let mut taps: Vec<Box<dyn Tap>> = Vec::new(alloc);
    taps.push(Box::new(alloc, Tally::new(alloc)?)?)?;
    taps.push(Box::new(alloc, NeedsVarType::new(alloc)?)?)?;
    let mut ended = run(alloc, &row.words, store, &mut source, &mut sink, &mut taps);
    let calls = [ended.store.calls(), source.calls(), sink.calls()];
    let told = told_of(alloc, row, before, &mut ended)?;
    let store = ended.store;
    let file = match store.file(row.name.as_str()) {
        Some(bytes) => Some(Vec::from_slice(alloc, bytes)?),
        None => None,
    };
    Ok(Ran {
        status: ended.status.number() as usize,
        text: Vec::from_slice(alloc, sink.written())?,
        told,
        file,
        is_other_kept: store.file("-") == Some(OTHER),
        calls,
    })
}
