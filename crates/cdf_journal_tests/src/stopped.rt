//! A saving that is stopped at each of its calls.

use crate::saving::{
    End, LONGER, OLD, SHORTER, bytes_of, disk_failing, found_next, opened_next, save,
};
use cdf_journal::{JournalError, Part};
use std::test::Fail;

/// How many calls a saving makes behind those of opening: seven writes and a sync lay the log, a write and a sync open it, three
/// writes, a cut and a sync fill the file, and a write and a sync shut the log.
const COMMIT_CALLS: u64 = 17;

/// How many of these come before the log is open on the disk.
const GATE_CALLS: u64 = 10;

#[test]
fn a_crash_leaves_the_old_file_or_the_new_one(rt: HostRuntime) -> Result<(), Fail> {
    let alloc = rt.alloc();
    let opening = opened_next(alloc, disk_failing(alloc, b"", 0)?)?.calls();
    let gate = opening.saturating_add(GATE_CALLS);
    for new in [LONGER, SHORTER] {
        for call in 1..opening.saturating_add(COMMIT_CALLS + 1) {
            for keep in 0..8 {
                let mut saved = save(alloc, disk_failing(alloc, b"", call)?, new)?;
                saved.disk.crash(keep)?;
                let file = found_next(alloc, saved.disk)?;
                let is_new = call > gate || call == gate && keep > 0;
                let wanted = if is_new { new } else { OLD };
                assert_eq!(rt; file.as_slice(), wanted, "call {call}, {keep} kept");
            }
        }
    }
    Ok(())
}

#[test]
fn a_call_that_fails_ends_the_saving(rt: HostRuntime) -> Result<(), Fail> {
    let alloc = rt.alloc();
    let opening = opened_next(alloc, disk_failing(alloc, b"", 0)?)?.calls();
    let calls = opening.saturating_add(COMMIT_CALLS);
    for call in 1..calls.saturating_add(1) {
        let saved = save(alloc, disk_failing(alloc, b"", call)?, LONGER)?;
        let end = if call <= opening {
            End::Unopened(JournalError::Fault)
        } else {
            End::Unsaved
        };
        assert_eq!(rt; saved.end, end, "call {call}");
        assert_eq!(rt; saved.disk.calls(), call);
        let is_new = call >= opening.saturating_add(GATE_CALLS);
        let file = found_next(alloc, saved.disk)?;
        assert_eq!(rt;
            file.as_slice(),
            if is_new { LONGER } else { OLD },
            "call {call}"
        );
    }
    Ok(())
}

#[test]
fn a_whole_saving_is_stored_and_leaves_its_log_shut(rt: HostRuntime) -> Result<(), Fail> {
    let alloc = rt.alloc();
    let mut saved = save(alloc, disk_failing(alloc, b"", 0)?, LONGER)?;
    assert_eq!(rt; saved.end, End::Done);
    saved.disk.crash(0)?;
    assert_eq!(rt;
        bytes_of(alloc, &saved.disk, Part::Main)?.as_slice(),
        LONGER
    );
    let log = bytes_of(alloc, &saved.disk, Part::Log)?;
    // the gate, the head of the body, the heads of three members, and their bytes
    assert_eq!(rt; log.len(), 8 + 16 + 3 * 16 + (LONGER.len() - 4) + 3 + 4);
    assert_eq!(rt; log.first().copied(), Some(0));
    Ok(())
}
