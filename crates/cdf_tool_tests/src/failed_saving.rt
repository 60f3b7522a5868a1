//! A store that fails as the image is saved: what is left of the file, and what is told of it.

use cdf_store::{MemSink, MemSource, MemStore};
use cdf_tool::{Left, Notes, run};
use std::alloc::Global;
use std::test::Fail;

/// What came of a run.
#[derive(Drop)]
struct Ran {
    status: u8,
    notes: Notes,
    file: Vec<u8>,
    calls: u64,
}

/// Runs a script over a file of these bytes, or a new one, where these calls of the store fail.
fn run_failing(
    alloc: Global,
    before: Option<&[u8]>,
    script: &[u8],
    failing: &[u64],
) -> Result<Ran, Fail> {
    let mut words = Vec::new(alloc);
    let mut store = MemStore::new(alloc);
    for call in failing {
        store.fail_at(*call)?;
    }
    match before {
        Some(bytes) => store.put_file("a.cdf", bytes)?,
        None => words.push(String::from_str(alloc, "--new")?)?,
    }
    words.push(String::from_str(alloc, "a.cdf")?)?;
    store.put_file("b.cdf", b"another file")?;
    let mut source = MemSource::new(alloc, Vec::from_slice(alloc, script)?, 65_536);
    let mut sink = MemSink::new(alloc, 1000)?;
    let ended = run(
        alloc,
        &words,
        store,
        &mut source,
        &mut sink,
        &mut Vec::new(alloc),
    );
    Ok(Ran {
        status: ended.status.number(),
        notes: ended.notes,
        file: Vec::from_slice(alloc, ended.store.file("a.cdf").unwrap_or(&[]))?,
        calls: ended.store.calls(),
    })
}

/// A script that makes a file longer, and changes bytes that it has.
const GROWS: &[u8] = b"attr Project global\n";

/// A script that changes bytes of a file that has an attribute, and makes it no longer.
const RENAMES: &[u8] = b"rename-attr Project Mission\n";

#[test]
fn a_file_that_cannot_grow_keeps_its_bytes(rt: HostRuntime) -> Result<(), Fail> {
    let alloc = rt.alloc();
    let old = run_failing(alloc, None, b"", &[])?;
    assert_eq!(rt; old.status, 0);
    let sound = run_failing(alloc, Some(&old.file), GROWS, &[])?;
    assert_eq!(rt; (sound.status, sound.notes.left), (0, None));
    assert!(rt; sound.file.len() > old.file.len());

    // the last four calls write past the old end, have that stored, write before it, and have the file stored
    let growth = sound.calls.saturating_sub(3);
    let stored = growth.saturating_add(1);
    let overwrite = growth.saturating_add(2);
    for call in [growth, stored, overwrite] {
        let kept = run_failing(alloc, Some(&old.file), GROWS, &[call])?;
        assert_eq!(rt; (kept.status, kept.notes.left), (6, Some(Left::Old)));
        assert_eq!(rt; kept.file, old.file);

        let cut = call.saturating_add(1);
        let part = run_failing(alloc, Some(&old.file), GROWS, &[call, cut])?;
        assert_eq!(rt; (part.status, part.notes.left), (6, Some(Left::Part)));
        assert_eq!(rt; part.file.get(..old.file.len()), Some(old.file.as_slice()));
    }
    Ok(())
}

#[test]
fn a_file_that_is_not_stored_is_the_new_one(rt: HostRuntime) -> Result<(), Fail> {
    let alloc = rt.alloc();
    let old = run_failing(alloc, None, GROWS, &[])?;
    let sound = run_failing(alloc, Some(&old.file), RENAMES, &[])?;
    assert_eq!(rt; sound.status, 0);

    let overwrite = sound.calls.saturating_sub(1);
    let kept = run_failing(alloc, Some(&old.file), RENAMES, &[overwrite])?;
    assert_eq!(rt; (kept.status, kept.notes.left), (6, Some(Left::Old)));
    assert_eq!(rt; kept.file, old.file);

    let unsynced = run_failing(alloc, Some(&old.file), RENAMES, &[sound.calls])?;
    assert_eq!(rt;
        (unsynced.status, unsynced.notes.left),
        (6, Some(Left::Unsynced))
    );
    assert_eq!(rt; unsynced.file, sound.file);
    Ok(())
}

#[test]
fn a_script_that_changes_nothing_calls_no_write(rt: HostRuntime) -> Result<(), Fail> {
    let alloc = rt.alloc();
    let old = run_failing(alloc, None, b"attr Project global\nchecksum md5\n", &[])?;
    let idle = run_failing(
        alloc,
        Some(&old.file),
        b"list\n\nattr Project global\ninf\n",
        &[],
    )?;
    assert_eq!(rt; idle.status, 1);
    assert_eq!(rt; idle.file, old.file);
    let read = run_failing(alloc, Some(&old.file), b"list\n", &[])?;
    assert_eq!(rt; idle.calls, read.calls);
    let refusals = idle.notes.refusals;
    assert_eq!(rt; (refusals.answered, refusals.refused), (3, 2));
    Ok(())
}

#[test]
fn a_new_file_tells_what_it_took_the_place_of(rt: HostRuntime) -> Result<(), Fail> {
    let alloc = rt.alloc();
    let mut store = MemStore::new(alloc);
    store.put_file("a.cdf", b"another file")?;
    let mut words = Vec::new(alloc);
    for word in ["--new", "a.cdf"] {
        words.push(String::from_str(alloc, word)?)?;
    }
    let mut source = MemSource::new(alloc, Vec::new(alloc), 1);
    let mut sink = MemSink::new(alloc, 1000)?;
    let ended = run(
        alloc,
        &words,
        store,
        &mut source,
        &mut sink,
        &mut Vec::new(alloc),
    );
    assert_eq!(rt; (ended.status.number(), ended.notes.replaced), (0, 12));
    Ok(())
}
