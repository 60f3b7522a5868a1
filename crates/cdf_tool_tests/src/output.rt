//! An output that fails: how much is written before, and how far the script is read.

use cdf_store::{MemSink, MemSource, MemStore};
use cdf_tool::run;
use std::alloc::Global;
use std::test::Fail;

/// How many bytes of a script are read at a time.
const PIECE: usize = 40_000;

/// The most bytes of replies that are gathered.
const MOST: usize = 65_536;

/// How many attributes the file has that is dumped.
const ATTRIBUTES: usize = 2_000;

/// What came of a run.
#[derive(Drop)]
struct Ran {
    status: u8,
    text: Vec<u8>,
    reads: u64,
    writes: u64,
}

/// Two pieces of lines of 4 bytes, none of which is a command.
fn two_pieces(alloc: Global) -> Result<Vec<u8>, Fail> {
    let mut script = Vec::new(alloc);
    for _ in 0..PIECE / 2 {
        script.extend_from_slice(b"inf\n")?;
    }
    Ok(script)
}

/// Lines that make attributes, and a dump of more than 65,536 bytes behind them.
fn long_dump(alloc: Global) -> Result<Vec<u8>, Fail> {
    let mut script = Vec::new(alloc);
    for number in 0..ATTRIBUTES {
        let line = format!(in alloc; "attr a_long_name_of_an_attribute_{number} global\n")?;
        script.extend_from_slice(line.as_bytes())?;
    }
    script.extend_from_slice(b"dump\n")?;
    Ok(script)
}

/// Runs a script over a new file, where this write of the output fails.
fn run_failing(alloc: Global, script: Vec<u8>, write: u64) -> Result<Ran, Fail> {
    let mut words = Vec::new(alloc);
    for word in ["--new", "--no-save", "a.cdf"] {
        words.push(String::from_str(alloc, word)?)?;
    }
    let mut source = MemSource::new(alloc, script, PIECE);
    let mut sink = MemSink::new(alloc, 1_000_000)?;
    sink.fail_at(write)?;
    let ended = run(
        alloc,
        &words,
        MemStore::new(alloc),
        &mut source,
        &mut sink,
        &mut Vec::new(alloc),
    );
    Ok(Ran {
        status: ended.status.number(),
        text: Vec::from_slice(alloc, sink.written())?,
        reads: source.calls(),
        writes: sink.calls(),
    })
}

#[test]
fn replies_are_written_as_they_come(rt: HostRuntime) -> Result<(), Fail> {
    let alloc = rt.alloc();
    let whole = run_failing(alloc, two_pieces(alloc)?, 0)?;
    assert_eq!(rt; (whole.status, whole.reads), (1, 3));
    let mut written = 0;
    for write in 0..whole.writes {
        let ran = run_failing(alloc, two_pieces(alloc)?, write.saturating_add(1))?;
        assert_eq!(rt; ran.status, 7);
        assert!(rt; whole.text.starts_with(&ran.text), "{write}");
        assert!(rt; ran.text.len() <= MOST.saturating_add(written), "{write}");
        assert!(rt; write == 0 || ran.text.len() > written, "{write}");
        assert_eq!(rt; ran.writes, write.saturating_add(1));
        written = ran.text.len();
    }
    let first = run_failing(alloc, two_pieces(alloc)?, 1)?;
    assert_eq!(rt; (first.text.len(), first.reads), (0, 1));
    Ok(())
}

#[test]
fn a_dump_is_written_in_parts(rt: HostRuntime) -> Result<(), Fail> {
    let alloc = rt.alloc();
    let whole = run_failing(alloc, long_dump(alloc)?, 0)?;
    assert_eq!(rt; whole.status, 0);
    let first = b"2001 ok\nversion ".as_slice();
    let start = whole
        .text
        .windows(first.len())
        .position(|part| part == first)
        .unwrap_or(whole.text.len());
    assert!(rt; whole.text.len().saturating_sub(start) > MOST);

    // the last write is the last line of the reply, and the one before it is of the dump
    for failing in [whole.writes, whole.writes.saturating_sub(1)] {
        let ran = run_failing(alloc, long_dump(alloc)?, failing)?;
        assert_eq!(rt; ran.status, 7);
        assert!(rt; whole.text.starts_with(&ran.text), "{failing}");
        let length = ran.text.len();
        assert!(rt; start < length && length < whole.text.len(), "{failing}");
    }
    Ok(())
}
