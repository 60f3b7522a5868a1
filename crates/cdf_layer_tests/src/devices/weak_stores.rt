//! A store of real files over files that fail.

ghost use Rattle.std.specs.Prelude.{◌≡◌, IfOk, IsSome, Some, length, option_map};

use super::weak_files::{BROKEN, Fault, SLOW, WeakFiles, Weakness};
use cdf_store::{AttachError, Failed, FileFailure, FileStore, Store, SystemError};
use std::alloc::Global;
use std::fs;
use std::io::ErrorKind;
use std::test::Fail;

/// Makes a file of "abc".
fn put_file(rt: HostRuntime, name: &str) -> Result<(), Fail> {
    fs::write(&rt, name, b"abc".as_slice())?;
    Ok(())
}

/// A store over a weak file of "abc".
fn store_over(rt: HostRuntime, name: &str, weakness: Weakness) -> Result<FileStore<WeakFiles>, Fail>
    ensures { IfOk result (λ store. option_map length (⟦<FileStore<WeakFiles> as Store>⟧.disk store).held ≡ Some 3) }
{
    put_file(rt, name)?;
    let mut store = FileStore::new(WeakFiles { rt, weakness }, rt.alloc());
    let Ok(Some(3)) = store.attach(name, false) else {
        return Err(Fail::new("no file was attached"));
    };
    Ok(store)
}

/// Whether the store and the file of the system have these bytes.
fn has_bytes(
    rt: HostRuntime,
    store: &FileStore<WeakFiles>,
    name: &str,
    bytes: &[u8],
) -> Result<bool, Fail> {
    let file = fs::read(&rt, name)?;
    Ok(store.size() == bytes.len() as u64 && file.as_slice() == bytes)
}

const WRITTEN: &str = "cdf_layer_tests_written";

#[test]
fn what_was_written_is_held(rt: HostRuntime) -> Result<(), Fail> {
    // What the file takes, and what then stands in the file of "abc" after "wxyz" was written from 1 on.
    for (takes, answer, bytes) in [
        (None, Err(Failed), b"abc".as_slice()),
        (Some(0), Err(Failed), b"abc".as_slice()),
        (Some(3), Err(Failed), b"awxy".as_slice()),
        (Some(4), Ok(()), b"awxyz".as_slice()),
    ] {
        let mut store = store_over(rt, WRITTEN, Weakness { takes, ..SLOW })?;
        store.reserve(2, 5)?;
        assert_eq!(rt; store.write_at(1, b"wxyz"), answer);
        let mut out = [0; 8];
        assert_eq!(rt; store.read_at(0, &mut out), Ok(bytes.len()));
        assert_eq!(rt; out.starts_with(bytes), true);
        assert_eq!(rt; has_bytes(rt, &store, WRITTEN, bytes)?, true);
        assert_eq!(rt; store.is_written(), bytes.len() > 3);
    }
    fs::remove_file(&rt, WRITTEN)?;
    Ok(())
}

const PAGED: &str = "cdf_layer_tests_paged";

/// So many bytes that are 7.
fn sevens(alloc: Global, count: usize) -> Result<Vec<u8>, Fail>
    ensures { IfOk result (λ bytes. length bytes.items ≡ count) }
{
    Ok(vec![in alloc; 7u8; count]?)
}

/// A store over a file that takes so many bytes, to which a page was written, and whether it was written whole.
fn paged_store(rt: HostRuntime, takes: usize) -> Result<(FileStore<WeakFiles>, bool), Fail>
    ensures { IfOk result (λ paged. IsSome (⟦<FileStore<WeakFiles> as Store>⟧.disk paged.0).held) }
{
    let page = sevens(rt.alloc(), 65_536)?;
    let weakness = Weakness {
        takes: Some(takes),
        most: 4999,
        ..SLOW
    };
    let mut store = store_over(rt, PAGED, weakness)?;
    store.reserve(1, 65_536)?;
    let is_whole = store.write_page(0, page, 65_536).is_ok();
    Ok((store, is_whole))
}

#[test]
fn what_was_written_of_a_page_is_held(rt: HostRuntime) -> Result<(), Fail> {
    for (takes, count) in [(5000, 5000), (1 << 17, 65_536)] {
        let (mut store, is_whole) = paged_store(rt, takes)?;
        assert_eq!(rt; is_whole, count == 65_536);
        let mut out = [0; 8];
        assert_eq!(rt; store.read_at(4992, &mut out), Ok(8));
        assert_eq!(rt; out, [7; 8]);
        let bytes = sevens(rt.alloc(), count)?;
        assert_eq!(rt; has_bytes(rt, &store, PAGED, &bytes)?, true);
    }
    fs::remove_file(&rt, PAGED)?;
    Ok(())
}

const UNCUT: &str = "cdf_layer_tests_uncut";

#[test]
fn a_cut_to_the_same_length_makes_no_call(rt: HostRuntime) -> Result<(), Fail> {
    let weakness = Weakness {
        fault: Fault::Cut,
        ..SLOW
    };
    let mut store = store_over(rt, UNCUT, weakness)?;
    store.reserve(2, 0)?;
    assert_eq!(rt; store.set_len(3), Ok(()));
    assert_eq!(rt; store.set_len(2), Err(Failed));
    assert_eq!(rt; store.failure(), Some(BROKEN));
    assert_eq!(rt; has_bytes(rt, &store, UNCUT, b"abc")?, true);
    assert_eq!(rt; store.is_written(), false);
    fs::remove_file(&rt, UNCUT)?;
    Ok(())
}

const FAILING: &str = "cdf_layer_tests_failing";

#[test]
fn a_file_that_fails_is_not_attached(rt: HostRuntime) -> Result<(), Fail> {
    let in_mid_file = Weakness { gives: 2, ..SLOW };
    let standard = Weakness {
        place: Some(2),
        ..SLOW
    };
    let locked = Weakness {
        is_locked: true,
        ..SLOW
    };
    put_file(rt, FAILING)?;
    for (weakness, failure) in [
        (
            in_mid_file,
            FileFailure::System(SystemError::unnumbered(ErrorKind::TimedOut)),
        ),
        (standard, FileFailure::StandardStream),
        (
            locked,
            FileFailure::System(SystemError::unnumbered(ErrorKind::PermissionDenied)),
        ),
    ] {
        let mut store = FileStore::new(WeakFiles { rt, weakness }, rt.alloc());
        assert_eq!(rt; store.attach(FAILING, false), Err(AttachError::Failed));
        assert_eq!(rt; store.failure(), Some(failure));
    }
    fs::remove_file(&rt, FAILING)?;
    Ok(())
}

const LOCKED: &str = "cdf_layer_tests_locked";

#[test]
fn a_file_that_is_only_read_is_served(rt: HostRuntime) -> Result<(), Fail> {
    let weakness = Weakness {
        takes: None,
        ..SLOW
    };
    let mut store = store_over(rt, LOCKED, weakness)?;
    store.reserve(2, 5)?;
    let mut out = [0; 3];
    assert_eq!(rt; store.read_at(0, &mut out), Ok(3));
    assert_eq!(rt; out, *b"abc");
    assert_eq!(rt; store.failure(), None);
    assert_eq!(rt; store.set_len(1), Err(Failed));
    let failure = FileFailure::NotWritable(SystemError::unnumbered(ErrorKind::PermissionDenied));
    assert_eq!(rt; store.failure(), Some(failure));
    fs::remove_file(&rt, LOCKED)?;
    Ok(())
}
