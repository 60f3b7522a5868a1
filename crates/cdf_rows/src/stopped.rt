//! A row whose run through a log stops after each call of its disk in turn: what is found next is the old file or the new one.

use crate::logged::{Logged, disk_failing, found_next, run_logged};
use crate::row::Row;
use anyhow::Result;
use std::alloc::Global;

/// How many of the writes and cuts since the parts were stored a crash keeps: none, or the first.
const KEPT: [u64; 2] = [0, 1];

/// What is wrong with a run through a log over a sound disk, if anything is.
fn fault_of_whole(row: &Row, ran: &Logged, new: Option<&[u8]>) -> Option<&'static str> {
    if ran.status != row.status {
        return Some("the status through a log");
    }
    if ran.text.as_slice() != row.text.as_slice() {
        return Some("the text through a log");
    }
    if ran.file() != new {
        return Some("the file through a log");
    }
    None
}

/// What is wrong with a row of such a file before and after, if anything is.
pub fn fault_of_stopped(
    alloc: Global,
    row: &Row,
    old: Option<&[u8]>,
    new: Option<&[u8]>,
) -> Result<Option<&'static str>> {
    let whole = run_logged(alloc, row, disk_failing(alloc, row, old, 0)?)?;
    let fault = fault_of_whole(row, &whole, new);
    if fault.is_some() {
        return Ok(fault);
    }
    for call in 1..whole.disk.calls().saturating_add(1) {
        for keep in KEPT {
            let mut ran = run_logged(alloc, row, disk_failing(alloc, row, old, call)?)?;
            if ran.status != 5 && ran.status != 6 {
                return Ok(Some("the status where a call of the disk fails"));
            }
            ran.disk.crash(keep)?;
            let found = found_next(alloc, row, ran.disk)?;
            if found.as_deref() != old && found.as_deref() != new {
                return Ok(Some("the file after a crash"));
            }
        }
    }
    Ok(None)
}
