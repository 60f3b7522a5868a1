//! Files that are stored, where the system fails or another program changes them.

ghost use Rattle.std.specs.Prelude.{◌≡◌, IfOk, IsSome};

use super::meddler::{Deed, Meddler};
use super::weak_files::{BROKEN, Fault, LOOPED, SLOW, WeakFiles, Weakness};
use cdf_store::{FileFailure, FileStore, Store};
use std::fs;
use std::test::Fail;

/// A store over a weak file that was made and has "abc" now.
fn made_store(rt: HostRuntime, name: &str, weakness: Weakness) -> Result<FileStore<WeakFiles>, Fail>
    ensures { IfOk result (λ store. IsSome (⟦<FileStore<WeakFiles> as Store>⟧.disk store).held) }
{
    let _ = fs::remove_file(&rt, name);
    let mut store = FileStore::new(WeakFiles { rt, weakness }, rt.alloc());
    let Ok(Some(_)) = store.attach(name, true) else {
        return Err(Fail::new("no file was made"));
    };
    store.reserve(1, 3)?;
    store.write_at(0, b"abc")?;
    Ok(store)
}

/// Why a weak file is not stored that was made and written, and to which this was done then.
fn store_made(
    rt: HostRuntime,
    name: &'static str,
    weakness: Weakness,
    deed: Option<Deed>,
) -> Result<Option<FileFailure>, Fail> {
    let mut store = made_store(rt, name, weakness)?;
    if let Some(deed) = deed {
        let meddler = Meddler { name, deed };
        meddler.meddle(rt)?;
    }
    match store.sync() {
        Ok(()) => Ok(None),
        Err(_) => Ok(store.failure()),
    }
}

const UNSTORED: &str = "cdf_layer_tests_unstored";

#[test]
fn what_the_system_does_not_store_is_not_stored(rt: HostRuntime) -> Result<(), Fail> {
    for (fault, failure) in [
        (Fault::None, None),
        (Fault::Sync, Some(BROKEN)),
        (Fault::FolderSync, Some(BROKEN)),
        (Fault::StampWhenWritten, Some(BROKEN)),
    ] {
        let weakness = Weakness { fault, ..SLOW };
        assert_eq!(rt; store_made(rt, UNSTORED, weakness, None)?, failure);
    }
    fs::remove_file(&rt, UNSTORED)?;
    Ok(())
}

const MADE: &str = "cdf_layer_tests_made";

#[test]
fn the_folder_is_stored_of_a_file_that_was_read_anew(rt: HostRuntime) -> Result<(), Fail> {
    let weakness = Weakness {
        fault: Fault::FolderSync,
        meddler: Some(Meddler {
            name: MADE,
            deed: Deed::Grow(1),
        }),
        ..SLOW
    };
    assert_eq!(rt; store_made(rt, MADE, weakness, None)?, Some(BROKEN));
    fs::remove_file(&rt, MADE)?;
    Ok(())
}

const MEDDLED: &str = "cdf_layer_tests_meddled";

#[test]
fn what_another_program_changed_is_not_stored(rt: HostRuntime) -> Result<(), Fail> {
    for (deed, failure) in [
        (Deed::Grow(4), Some(FileFailure::Changed)),
        (Deed::Rewrite(b"ab"), Some(FileFailure::Changed)),
        (Deed::Rewrite(b"xyz"), None),
        (Deed::Replace(b"abc"), Some(FileFailure::Changed)),
        (Deed::Remove, Some(FileFailure::Changed)),
        (Deed::Loop, Some(LOOPED)),
    ] {
        assert_eq!(rt; store_made(rt, MEDDLED, SLOW, Some(deed))?, failure);
    }
    fs::remove_file(&rt, MEDDLED)?;
    Ok(())
}
