//! Real files that are made, written, cut and stored.

use cdf_store::{AttachError, FileFailure, FileKind, FileStore, Store, SystemError};
use std::fs;
use std::io::ErrorKind;
use std::os::unix;
use std::test::Fail;

const FILE: &str = "cdf_layer_tests_file";

/// Makes the file and writes it.
fn write_file(rt: HostRuntime) -> Result<(), Fail> {
    let mut store = FileStore::new(rt, rt.alloc());
    let Ok(None) = store.attach(FILE, false) else {
        return Err(Fail::new("a file is there"));
    };
    if fs::exists(&rt, FILE)? {
        return Err(Fail::new("a file was made without leave"));
    }
    let Ok(Some(0)) = store.attach(FILE, true) else {
        return Err(Fail::new("no file was made"));
    };
    store.reserve(1, 6)?;
    store.write_at(0, b"abcdef")?;
    store.sync()?;
    if store.is_written() {
        Ok(())
    } else {
        Err(Fail::new("a write is not told"))
    }
}

fn cut_file(rt: HostRuntime) -> Result<(), Fail> {
    let mut store = FileStore::new(rt, rt.alloc());
    let Ok(Some(6)) = store.attach(FILE, true) else {
        return Err(Fail::new("the file is not as long as was written"));
    };
    store.reserve(1, 0)?;
    store.set_len(4)?;
    if store.is_written() {
        Ok(())
    } else {
        Err(Fail::new("a cut is not told"))
    }
}

/// The bytes of the file from 1 on, which are read and then lent.
fn read_file(rt: HostRuntime) -> Result<[u8; 3], Fail> {
    let mut store = FileStore::new(rt, rt.alloc());
    let Ok(Some(4)) = store.attach(FILE, false) else {
        return Err(Fail::new("the file is not as long as it was cut to"));
    };
    let mut out = [0; 3];
    if store.read_at(1, &mut out)? != 3 {
        return Err(Fail::new("the bytes did not come at once"));
    }
    match store.lend(1, 3) {
        Some(lent) if lent == &out[..] => Ok(out),
        _ => Err(Fail::new("other bytes were lent")),
    }
}

#[test]
fn real_file_is_made_written_and_cut(rt: HostRuntime) -> Result<(), Fail> {
    let _ = fs::remove_file(&rt, FILE);
    write_file(rt)?;
    assert_eq!(rt; fs::read(&rt, FILE)?.as_slice(), b"abcdef".as_slice());
    cut_file(rt)?;
    assert_eq!(rt; fs::read(&rt, FILE)?.as_slice(), b"abcd".as_slice());
    assert_eq!(rt; read_file(rt)?, *b"bcd");
    fs::remove_file(&rt, FILE)?;
    Ok(())
}

const LINK: &str = "cdf_layer_tests_link";

const TARGET: &str = "cdf_layer_tests_target";

#[test]
fn the_target_of_a_link_is_made(rt: HostRuntime) -> Result<(), Fail> {
    let _ = fs::remove_file(&rt, LINK);
    let _ = fs::remove_file(&rt, TARGET);
    unix::fs::symlink(&rt, TARGET, LINK)?;
    let mut store = FileStore::new(rt, rt.alloc());
    assert_eq!(rt; store.attach(LINK, false), Ok(None));
    let Ok(Some(0)) = store.attach(LINK, true) else {
        return Err(Fail::new("the target was not made"));
    };
    store.reserve(1, 2)?;
    store.write_at(0, b"ab")?;
    store.sync()?;
    assert_eq!(rt; fs::read(&rt, TARGET)?.as_slice(), b"ab".as_slice());
    fs::remove_file(&rt, LINK)?;
    fs::remove_file(&rt, TARGET)?;
    Ok(())
}

#[test]
fn what_is_no_regular_file_is_not_attached(rt: HostRuntime) -> Result<(), Fail> {
    for (name, failure) in [
        (".", FileFailure::NotRegular(FileKind::Folder)),
        (
            "/dev/null",
            FileFailure::NotRegular(FileKind::CharacterDevice),
        ),
        (
            "cdf_layer_tests_no_folder/a",
            FileFailure::System(SystemError {
                kind: ErrorKind::NotFound,
                number: Some(2),
            }),
        ),
    ] {
        let mut store = FileStore::new(rt, rt.alloc());
        assert_eq!(rt; store.attach(name, true), Err(AttachError::Failed));
        assert_eq!(rt; store.failure(), Some(failure));
    }
    Ok(())
}
