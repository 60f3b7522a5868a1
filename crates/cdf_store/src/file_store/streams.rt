//! Files that are the standard streams of the program.

use super::stamp::Stamp;
use crate::{FileFailure, Stream};
use std::fs;
use std::rt::Files;

/// The name by which the system has a standard stream.
fn name_of(stream: Stream) -> &'static str {
    match stream {
        Stream::Input => "/dev/fd/0",
        Stream::Output => "/dev/fd/1",
        Stream::Error => "/dev/fd/2",
    }
}

/// Whether a standard stream is the regular file that stood so, as far as the system tells.
fn is_stream<R: Files>(rt: &R, stamp: &Stamp, stream: Stream) -> bool {
    match fs::metadata(rt, name_of(stream)) {
        Ok(metadata) => metadata.is_file() && stamp.is_same_file(&Stamp::of(&metadata)),
        Err(_) => false,
    }
}

/// Refuses a file that is one of the standard streams, which the program reads or writes besides.
pub fn check_streams<R: Files>(rt: &R, stamp: &Stamp) -> Result<(), FileFailure> {
    for stream in [Stream::Input, Stream::Output, Stream::Error] {
        if is_stream(rt, stamp, stream) {
            return Err(FileFailure::IsStream(stream));
        }
    }
    Ok(())
}
