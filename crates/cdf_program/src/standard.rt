//! The descriptors of the standard streams are kept from the files that are opened later.

use std::fs;
use std::os::fd::AsRawFd;
use std::rt::Files;

/// The descriptor of standard error, the last of the three.
const LAST: i32 = 2;

/// What stands in the place of standard streams that were closed as the program began: `/dev/null`, opened for reading alone. So a
/// script is empty, and what is written fails.
#[derive(Drop)]
pub struct HeldStreams<F: Drop> {
    first: Option<F>,
    second: Option<F>,
    third: Option<F>,
}

/// Opens `/dev/null` for reading alone, and keeps it where it has the descriptor of a standard stream.
fn open_standard<R: Files>(rt: &R) -> Option<R::File>
where
    R::File: AsRawFd,
{
    let file = fs::open(rt, "/dev/null").ok()?;
    if file.as_raw_fd() <= LAST {
        Some(file)
    } else {
        None
    }
}

/// Takes the descriptors of the standard streams that are closed. The system gives the least that is free, so three calls are enough.
pub fn hold_standard<R: Files>(rt: &R) -> HeldStreams<R::File>
where
    R::File: AsRawFd,
{
    HeldStreams {
        first: open_standard(rt),
        second: open_standard(rt),
        third: open_standard(rt),
    }
}
