//! Real files that another program changes while they are attached.

ghost use Rattle.std.specs.Prelude.{◌≡◌, IfOk, Some, length, option_map};

use super::meddler::{Deed, Meddler};
use super::weak_files::LOOPED;
use cdf_store::{Failed, FileFailure, FileStore, Store};
use std::fs;
use std::test::Fail;

/// A store with a file of "abc" attached, which has room for two writes.
fn store_over(rt: HostRuntime, name: &str) -> Result<FileStore<HostRuntime>, Fail>
    ensures { IfOk result (λ store. option_map length (⟦<FileStore<HostRuntime> as Store>⟧.disk store).held ≡ Some 3) }
{
    fs::write(&rt, name, b"abc".as_slice())?;
    let mut store = FileStore::new(rt, rt.alloc());
    let Ok(Some(3)) = store.attach(name, false) else {
        return Err(Fail::new("no file was attached"));
    };
    Ok(store)
}

const CHANGED: &str = "cdf_layer_tests_changed";

#[test]
fn a_changed_file_is_not_written(rt: HostRuntime) -> Result<(), Fail> {
    let mut store = store_over(rt, CHANGED)?;
    store.reserve(3, 3)?;
    fs::write(&rt, CHANGED, b"other".as_slice())?;
    assert_eq!(rt; store.write_at(0, b"x"), Err(Failed));
    assert_eq!(rt; store.failure(), Some(FileFailure::Changed));
    assert_eq!(rt; store.sync(), Err(Failed));
    assert_eq!(rt; store.is_written(), false);
    assert_eq!(rt; fs::read(&rt, CHANGED)?.as_slice(), b"other".as_slice());
    fs::remove_file(&rt, CHANGED)?;
    Ok(())
}

const REPLACED: &str = "cdf_layer_tests_replaced";

const REPLACEMENT: &str = "cdf_layer_tests_replacement";

#[test]
fn a_replaced_file_is_not_cut(rt: HostRuntime) -> Result<(), Fail> {
    let mut store = store_over(rt, REPLACED)?;
    store.reserve(3, 3)?;
    fs::write(&rt, REPLACEMENT, b"abc".as_slice())?;
    fs::rename(&rt, REPLACEMENT, REPLACED)?;
    assert_eq!(rt; store.set_len(1), Err(Failed));
    assert_eq!(rt; store.failure(), Some(FileFailure::Changed));
    assert_eq!(rt; fs::read(&rt, REPLACED)?.as_slice(), b"abc".as_slice());
    fs::remove_file(&rt, REPLACED)?;
    Ok(())
}

const UNCOMPARED: &str = "cdf_layer_tests_uncompared";

#[test]
fn a_file_that_cannot_be_compared_is_not_written(rt: HostRuntime) -> Result<(), Fail> {
    for (deed, failure) in [
        (Deed::Remove, FileFailure::Changed),
        (Deed::Rewrite(b"xyz"), FileFailure::Changed),
        (Deed::Loop, LOOPED),
    ] {
        let mut store = store_over(rt, UNCOMPARED)?;
        store.reserve(1, 3)?;
        let meddler = Meddler {
            name: UNCOMPARED,
            deed,
        };
        meddler.meddle(rt)?;
        assert_eq!(rt; store.write_at(0, b"w"), Err(Failed));
        assert_eq!(rt; store.failure(), Some(failure));
        let _ = fs::remove_file(&rt, UNCOMPARED);
    }
    Ok(())
}

const WRITTEN_TWICE: &str = "cdf_layer_tests_written_twice";

#[test]
fn no_comparison_is_made_after_the_first_write(rt: HostRuntime) -> Result<(), Fail> {
    let mut store = store_over(rt, WRITTEN_TWICE)?;
    store.reserve(2, 3)?;
    assert_eq!(rt; store.write_at(0, b"xyz"), Ok(()));
    assert_eq!(rt; store.write_at(0, b"w"), Ok(()));
    assert_eq!(rt; store.sync(), Ok(()));
    assert_eq!(rt; fs::read(&rt, WRITTEN_TWICE)?.as_slice(), b"wyz".as_slice());
    fs::remove_file(&rt, WRITTEN_TWICE)?;
    Ok(())
}
