//! Runs whose disk fails at one of its calls, and then stops.

use crate::runs::{bytes_of, disk_failing, found_next, made_file, run_over};
use cdf_journal::Part;
use std::alloc::Global;
use std::test::Fail;

/// A script that changes the file and makes it longer.
const EDITS: &[u8] = b"rename-attr Project Mission\nattr Source global\n";

/// The same with a line that is refused.
const REFUSED: &[u8] = b"rename-attr Project Mission\nattr Mission global\nattr Source global\n";

/// How many calls of the disk it takes to open a file with its log. A run that saves nothing makes no others.
fn opening_calls(alloc: Global, old: &[u8]) -> Result<u64, Fail> {
    let disk = disk_failing(alloc, old, b"", 0)?;
    Ok(run_over(alloc, disk, "--no-save", EDITS)?.disk.calls())
}

#[test]
fn a_crash_leaves_the_old_file_or_the_new_one(rt: HostRuntime) -> Result<(), Fail> {
    let alloc = rt.alloc();
    let old = made_file(alloc)?;
    let opening = opening_calls(alloc, &old)?;
    for (flag, script, status) in [("", EDITS, 0), ("", REFUSED, 1), ("--new", EDITS, 1)] {
        let whole = run_over(alloc, disk_failing(alloc, &old, b"", 0)?, flag, script)?;
        assert_eq!(rt; whole.status, status);
        let new = bytes_of(alloc, &whole.disk, Part::Main)?;
        assert!(rt; new != old);
        let calls = whole.disk.calls();
        assert!(rt; calls > opening);
        for call in 1..calls.saturating_add(1) {
            for keep in 0..4 {
                let disk = disk_failing(alloc, &old, b"", call)?;
                let mut ran = run_over(alloc, disk, flag, script)?;
                let is_opened = call > opening;
                assert_eq!(rt; ran.status, if is_opened { 6 } else { 5 }, "call {call}");
                assert_eq!(rt; ran.text.is_empty(), !is_opened);
                assert!(rt; !is_opened || ran.text == whole.text);
                ran.disk.crash(keep)?;
                let file = found_next(alloc, ran.disk)?;
                assert!(rt;
                    file == old || is_opened && file == new,
                    "call {call}, {keep} kept"
                );
            }
        }
    }
    Ok(())
}

#[test]
fn what_was_saved_outlasts_a_crash(rt: HostRuntime) -> Result<(), Fail> {
    let alloc = rt.alloc();
    let old = made_file(alloc)?;
    for script in [EDITS, REFUSED] {
        let mut ran = run_over(alloc, disk_failing(alloc, &old, b"", 0)?, "", script)?;
        let new = bytes_of(alloc, &ran.disk, Part::Main)?;
        ran.disk.crash(0)?;
        assert_eq!(rt; found_next(alloc, ran.disk)?, new);
    }
    Ok(())
}
