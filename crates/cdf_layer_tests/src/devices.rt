//! Real files and streams.

mod changed_files;
mod locked_files;
mod meddled_files;
mod meddler;
mod real_files;
mod stored_files;
mod weak_files;
mod weak_stores;

use cdf_store::{Failed, Sink, Source, StdSink, StdSource};
use std::test::Fail;
use weak_files::Stutter;

#[test]
fn streams_are_read_and_written(rt: HostRuntime) -> Result<(), Fail> {
    let mut source = StdSource::new(Stutter::new(b"abc"));
    let mut out = [0; 2];
    for answer in [Ok(2), Err(Failed), Ok(1), Ok(0)] {
        assert_eq!(rt; source.read(&mut out), answer);
    }
    let mut sink = StdSink::new(Stutter::new(b""));
    for answer in [Ok(2), Err(Failed), Ok(2)] {
        assert_eq!(rt; sink.write(b"ab"), answer);
    }
    Ok(())
}
