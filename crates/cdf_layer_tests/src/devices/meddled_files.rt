//! Files that another program changes while they are read.

use super::meddler::{Deed, MOVED, Meddler};
use super::weak_files::{BROKEN, Fault, LOOPED, SLOW, WeakFiles, Weakness};
use cdf_store::{FileFailure, FileStore, Store, Stream};
use std::fs;
use std::test::Fail;

/// Files that are read two bytes at a time, where this is done to one of them each time that a part was read.
fn meddled(name: &'static str, deed: Deed) -> Weakness {
    Weakness {
        meddler: Some(Meddler { name, deed }),
        ..SLOW
    }
}

/// The length of a weak file that is attached, or why it is not.
fn attach(
    rt: HostRuntime,
    weakness: Weakness,
    name: &str,
    make: bool,
) -> Result<Option<u64>, Option<FileFailure>> {
    let mut store = FileStore::new(WeakFiles { rt, weakness }, rt.alloc());
    match store.attach(name, make) {
        Ok(found) => Ok(found),
        Err(_) => Err(store.failure()),
    }
}

const GROWING: &str = "cdf_layer_tests_growing";

#[test]
fn a_file_that_grows_is_read_three_times(rt: HostRuntime) -> Result<(), Fail> {
    for (limit, answer) in [
        (5, Ok(Some(5))),
        (6, Err(Some(FileFailure::ChangedWhileRead))),
    ] {
        fs::write(&rt, GROWING, b"abc".as_slice())?;
        let weakness = meddled(GROWING, Deed::Grow(limit));
        assert_eq!(rt; attach(rt, weakness, GROWING, false), answer);
    }
    fs::remove_file(&rt, GROWING)?;
    Ok(())
}

const REWRITTEN: &str = "cdf_layer_tests_rewritten";

#[test]
fn no_bytes_of_two_files_are_mixed(rt: HostRuntime) -> Result<(), Fail> {
    fs::write(&rt, REWRITTEN, b"abc".as_slice())?;
    let weakness = meddled(REWRITTEN, Deed::Rewrite(b"xyz"));
    let mut store = FileStore::new(WeakFiles { rt, weakness }, rt.alloc());
    let Ok(Some(3)) = store.attach(REWRITTEN, false) else {
        return Err(Fail::new("no file was attached"));
    };
    let mut out = [0; 3];
    assert_eq!(rt; store.read_at(0, &mut out), Ok(3));
    assert_eq!(rt; out, *b"xyz");
    fs::remove_file(&rt, REWRITTEN)?;
    Ok(())
}

const EXCHANGED: &str = "cdf_layer_tests_exchanged";

#[test]
fn a_file_that_another_took_the_place_of_is_not_attached(rt: HostRuntime) -> Result<(), Fail> {
    fs::write(&rt, EXCHANGED, b"abc".as_slice())?;
    let weakness = meddled(EXCHANGED, Deed::Replace(b"abc"));
    assert_eq!(rt;
        attach(rt, weakness, EXCHANGED, false),
        Err(Some(FileFailure::ChangedWhileRead))
    );
    fs::remove_file(&rt, EXCHANGED)?;
    Ok(())
}

const REMOVED: &str = "cdf_layer_tests_removed";

#[test]
fn a_file_whose_name_is_gone_is_not_attached(rt: HostRuntime) -> Result<(), Fail> {
    fs::write(&rt, REMOVED, b"abc".as_slice())?;
    let weakness = meddled(REMOVED, Deed::Remove);
    assert_eq!(rt; attach(rt, weakness, REMOVED, false), Ok(None));
    Ok(())
}

const UNMADE: &str = "cdf_layer_tests_unmade";

#[test]
fn no_file_is_made_in_the_place_of_one_that_was_read(rt: HostRuntime) -> Result<(), Fail> {
    let weakness = meddled(UNMADE, Deed::Move);
    assert_eq!(rt;
        attach(rt, weakness, UNMADE, true),
        Err(Some(FileFailure::ChangedWhileRead))
    );
    assert_eq!(rt; fs::exists(&rt, UNMADE)?, false);
    fs::remove_file(&rt, MOVED)?;
    Ok(())
}

const UNTOLD: &str = "cdf_layer_tests_untold";

#[test]
fn a_file_of_which_nothing_is_told_is_not_attached(rt: HostRuntime) -> Result<(), Fail> {
    fs::write(&rt, UNTOLD, b"abc".as_slice())?;
    let weakness = Weakness {
        fault: Fault::StampWhenRead,
        ..SLOW
    };
    assert_eq!(rt; attach(rt, weakness, UNTOLD, false), Err(Some(BROKEN)));
    let weakness = meddled(UNTOLD, Deed::Loop);
    assert_eq!(rt; attach(rt, weakness, UNTOLD, false), Err(Some(LOOPED)));
    fs::remove_file(&rt, UNTOLD)?;
    Ok(())
}

const STREAM: &str = "cdf_layer_tests_stream";

const OTHER: &str = "cdf_layer_tests_other";

#[test]
fn a_standard_stream_is_not_attached(rt: HostRuntime) -> Result<(), Fail> {
    fs::write(&rt, STREAM, b"abc".as_slice())?;
    fs::write(&rt, OTHER, b"abc".as_slice())?;
    for (name, stream) in [
        ("/dev/fd/0", Stream::Input),
        ("/dev/fd/1", Stream::Output),
        ("/dev/fd/2", Stream::Error),
    ] {
        let weakness = Weakness {
            stream: Some((name, STREAM)),
            ..SLOW
        };
        let failure = FileFailure::IsStream(stream);
        assert_eq!(rt; attach(rt, weakness, STREAM, false), Err(Some(failure)));
        assert_eq!(rt; attach(rt, weakness, OTHER, false), Ok(Some(3)));
    }
    fs::remove_file(&rt, STREAM)?;
    fs::remove_file(&rt, OTHER)?;
    Ok(())
}
