//! What the first refused line of a script looks like.

use cdf_store::{MemSink, MemSource, MemStore};
use cdf_tool::{LineMark, RefusedLine, run};
use std::alloc::Global;
use std::test::Fail;

/// The first line of a script over a new file that is refused.
fn first_refused(alloc: Global, script: &[u8]) -> Result<Option<RefusedLine>, Fail> {
    let mut words = Vec::new(alloc);
    for word in ["--new", "--no-save", "a.cdf"] {
        words.push(String::from_str(alloc, word)?)?;
    }
    let mut source = MemSource::new(alloc, Vec::from_slice(alloc, script)?, 16);
    let mut sink = MemSink::new(alloc, 1000)?;
    let ended = run(
        alloc,
        &words,
        MemStore::new(alloc),
        &mut source,
        &mut sink,
        &mut Vec::new(alloc),
    );
    Ok(ended.notes.refusals.first)
}

#[test]
fn the_first_refused_line_is_marked(rt: HostRuntime) -> Result<(), Fail> {
    let alloc = rt.alloc();
    assert_eq!(rt; first_refused(alloc, b"info\nlist\n")?, None);
    for (script, number, mark) in [
        (b"info\ninf\nlis\n".as_slice(), 2, None),
        (b"info\r\n".as_slice(), 1, Some(LineMark::CarriageReturn)),
        (
            b"\xEF\xBB\xBFinfo\n".as_slice(),
            1,
            Some(LineMark::ByteOrderMark),
        ),
        (
            b"\xFF\xFEi\0n\0f\0o\0\n\0".as_slice(),
            1,
            Some(LineMark::Utf16),
        ),
        (
            b"info\n\nset-compress V rle\n".as_slice(),
            3,
            Some(LineMark::NotYet),
        ),
    ] {
        let line = first_refused(alloc, script)?;
        assert_eq!(rt;
            line.map(|line| (line.number, line.mark)),
            Some((number, mark))
        );
    }
    Ok(())
}
