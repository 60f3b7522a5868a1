//! A real file is made and edited.

use cdf_store::{FileStore, MemSink, MemSource};
use cdf_tool::run;
use std::fs;
use std::test::Fail;

const NAME: &str = "cdf_tool_tests_real_file";

/// The status and the text of a run over the real file, with flags before its name and a script.
fn run_really(rt: HostRuntime, flags: &[&str], script: &[u8]) -> Result<(u8, Vec<u8>), Fail> {
    let alloc = rt.alloc();
    let mut words = Vec::new(alloc);
    for flag in flags {
        words.push(String::from_str(alloc, flag)?)?;
    }
    words.push(String::from_str(alloc, NAME)?)?;
    let store = FileStore::new(rt, alloc);
    let mut source = MemSource::new(alloc, Vec::from_slice(alloc, script)?, 16);
    let mut sink = MemSink::new(alloc, 1000)?;
    let ended = run(
        alloc,
        &words,
        store,
        &mut source,
        &mut sink,
        &mut Vec::new(alloc),
    );
    Ok((
        ended.status.number(),
        Vec::from_slice(alloc, sink.written())?,
    ))
}

#[test]
fn a_real_file_is_made_and_edited(rt: HostRuntime) -> Result<(), Fail> {
    let _ = fs::remove_file(&rt, NAME);
    let (status, text) = run_really(rt, &["--new"], b"attr Project global\n")?;
    assert_eq!(rt; (status, text.as_slice()), (0, b"1 ok\n".as_slice()));
    let made = fs::read(&rt, NAME)?;
    assert_eq!(rt; made.len(), 728);
    assert_eq!(rt; made.get(472..480), Some(b"Project\0".as_slice()));

    let (status, text) = run_really(rt, &[], b"rename-attr Project Mission\nlist\n")?;
    let listed = b"1 ok\n2 ok\nattribute 0 \"Mission\" global\n2 end\n";
    assert_eq!(rt; (status, text.as_slice()), (0, listed.as_slice()));
    let edited = fs::read(&rt, NAME)?;
    assert_eq!(rt; edited.len(), 728);
    assert_eq!(rt; edited.get(472..480), Some(b"Mission\0".as_slice()));
    for (place, byte) in made.iter().enumerate() {
        let is_name = (472..480).contains(&place);
        assert!(rt; is_name || edited.get(place) == Some(byte), "{place}");
    }
    fs::remove_file(&rt, NAME)?;
    Ok(())
}
