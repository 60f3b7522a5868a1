//! Reports of taps of a caller: what is written, and which taps are left.

use crate::watcher::Watcher;
use cdf_store::{MemSink, MemSource, MemStore};
use cdf_tap::Tap;
use cdf_tool::run;
use std::alloc::Global;
use std::test::Fail;

/// The status and the text of a run over a new file that is not saved, with taps.
fn run_with(
    alloc: Global,
    script: &[u8],
    taps: &mut Vec<Box<dyn Tap>>,
) -> Result<(u8, Vec<u8>), Fail> {
    let mut words = Vec::new(alloc);
    for word in ["--new", "--no-save", "a.cdf"] {
        words.push(String::from_str(alloc, word)?)?;
    }
    let mut source = MemSource::new(alloc, Vec::from_slice(alloc, script)?, 16);
    let mut sink = MemSink::new(alloc, 1000)?;
    let store = MemStore::new(alloc);
    let ended = run(alloc, &words, store, &mut source, &mut sink, taps);
    Ok((
        ended.status.number(),
        Vec::from_slice(alloc, sink.written())?,
    ))
}

#[test]
fn a_tap_that_ends_is_dropped(rt: HostRuntime) -> Result<(), Fail> {
    let alloc = rt.alloc();
    let mut taps: Vec<Box<dyn Tap>> = Vec::new(alloc);
    taps.push(Box::new(alloc, Watcher::new(alloc, b"t", b'a', 2, b"")?)?)?;
    taps.push(Box::new(alloc, Watcher::new(alloc, b"t", b'b', 9, b"")?)?)?;
    taps.push(Box::new(alloc, Watcher::new(alloc, b"u", b'c', 1, b"cc")?)?)?;

    // the events are the head, an attribute, and the end
    let script = b"attr Project global\nreport t\nreport t\nreport v\n";
    let (status, text) = run_with(alloc, script, &mut taps)?;
    let first = b"1 ok\n2 ok\naabbb2 end\n".as_slice();
    assert!(rt; text.starts_with(first));
    let later = b"3 ok\nbbb3 end\n4 refused 4 NoSuchTap\n".as_slice();
    assert_eq!(rt; text.get(first.len()..), Some(later));
    assert_eq!(rt; (status, taps.len()), (1, 2));
    assert_eq!(rt;
        (taps[0].name(), taps[0].text()),
        (b"t".as_slice(), b"bbb".as_slice())
    );
    assert_eq!(rt;
        (taps[1].name(), taps[1].text()),
        (b"u".as_slice(), b"cc".as_slice())
    );
    Ok(())
}

#[test]
fn a_report_of_another_name_leaves_a_tap(rt: HostRuntime) -> Result<(), Fail> {
    let alloc = rt.alloc();
    let mut taps: Vec<Box<dyn Tap>> = Vec::new(alloc);
    taps.push(Box::new(alloc, Watcher::new(alloc, b"t", b'a', 1, b"aa")?)?)?;
    let (status, _) = run_with(alloc, b"report u\n\nreport u\n", &mut taps)?;
    assert_eq!(rt; (status, taps.len()), (1, 1));
    assert_eq!(rt; taps[0].text(), b"aa".as_slice());
    Ok(())
}
