//! Real files that are locked.

ghost use Rattle.std.specs.Prelude.{◌≡◌, IfOk, Some, length, option_map};

use super::weak_files::{Fault, SLOW, WeakFiles, Weakness};
use cdf_store::{FileFailure, FileStore, Locks, Store};
use std::fs;
use std::fs::{File, TryLockError};
use std::test::Fail;

/// A sound file, but for this.
fn faulty(fault: Fault) -> Weakness {
    Weakness { fault, ..SLOW }
}

/// The length of a weak file that is attached, or why it is not.
fn attach(
    rt: HostRuntime,
    name: &str,
    fault: Fault,
    locks: Locks,
) -> Result<Option<u64>, Option<FileFailure>> {
    let weakness = faulty(fault);
    let mut store = FileStore::with_locks(WeakFiles { rt, weakness }, rt.alloc(), locks);
    match store.attach(name, false) {
        Ok(found) => Ok(found),
        Err(_) => Err(store.failure()),
    }
}

/// A store with a weak file of "abc" attached, which has room for two writes.
fn store_over(rt: HostRuntime, name: &str, fault: Fault) -> Result<FileStore<WeakFiles>, Fail>
    ensures { IfOk result (λ store. option_map length (⟦<FileStore<WeakFiles> as Store>⟧.disk store).held ≡ Some 3) }
{
    fs::write(&rt, name, b"abc".as_slice())?;
    let weakness = faulty(fault);
    let mut store = FileStore::new(WeakFiles { rt, weakness }, rt.alloc());
    let Ok(Some(3)) = store.attach(name, false) else {
        return Err(Fail::new("no file was attached"));
    };
    Ok(store)
}

/// What another program does with a file.
#[derive(Clone, Copy)]
enum Lock {
    Alone,
    Shared,
    None,
}

impl Lock {
    /// Locks a file so, and lets go what lock it had.
    fn put_on(self, file: &File) -> Result<(), TryLockError> {
        match self {
            Lock::Alone => file.try_lock(),
            Lock::Shared => file.try_lock_shared(),
            Lock::None => match file.unlock() {
                Ok(()) => Ok(()),
                Err(error) => Err(TryLockError::Error(error)),
            },
        }
    }
}

/// Whether a file can be locked alone.
fn is_free(file: &File) -> bool {
    let is_locked = file.try_lock().is_ok();
    is_locked && file.unlock().is_ok()
}

const SAVED: &str = "cdf_layer_tests_saved";

#[test]
fn a_file_that_another_program_saves_is_not_attached(rt: HostRuntime) -> Result<(), Fail> {
    fs::write(&rt, SAVED, b"abc".as_slice())?;
    let other = File::open(&rt, SAVED)?;
    let whole = Ok(Some(3));
    let locked = Err(Some(FileFailure::Locked));
    for (lock, fault, locks, answer) in [
        (Lock::None, Fault::None, Locks::Heeded, whole),
        (Lock::Alone, Fault::None, Locks::Heeded, locked),
        (Lock::Alone, Fault::None, Locks::Ignored, whole),
        (Lock::Alone, Fault::Lock, Locks::Heeded, whole),
        (Lock::None, Fault::None, Locks::Heeded, whole),
        (Lock::Shared, Fault::None, Locks::Heeded, whole),
        (Lock::None, Fault::LockWhenRead, Locks::Heeded, locked),
        (Lock::None, Fault::LockWhenRead, Locks::Ignored, whole),
    ] {
        lock.put_on(&other)?;
        assert_eq!(rt; attach(rt, SAVED, fault, locks), answer);
    }
    fs::remove_file(&rt, SAVED)?;
    Ok(())
}

const LEFT_FREE: &str = "cdf_layer_tests_left_free";

#[test]
fn a_file_that_is_checked_is_left_free(rt: HostRuntime) -> Result<(), Fail> {
    fs::write(&rt, LEFT_FREE, b"abc".as_slice())?;
    let other = File::open(&rt, LEFT_FREE)?;
    let mut store = FileStore::with_locks(rt, rt.alloc(), Locks::Heeded);
    assert_eq!(rt; store.attach(LEFT_FREE, false), Ok(Some(3)));
    assert_eq!(rt; is_free(&other), true);
    drop(store);
    fs::remove_file(&rt, LEFT_FREE)?;
    Ok(())
}

const WRITTEN: &str = "cdf_layer_tests_written_alone";

#[test]
fn a_file_is_locked_from_its_first_write_on(rt: HostRuntime) -> Result<(), Fail> {
    let mut store = store_over(rt, WRITTEN, Fault::None)?;
    let other = File::open(&rt, WRITTEN)?;
    store.reserve(2, 3)?;
    assert_eq!(rt; store.set_len(3), Ok(()));
    assert_eq!(rt; is_free(&other), true);
    assert_eq!(rt; store.write_at(0, b"x"), Ok(()));
    assert_eq!(rt; is_free(&other), false);
    assert_eq!(rt; store.sync(), Ok(()));
    assert_eq!(rt; is_free(&other), false);
    drop(store);
    assert_eq!(rt; is_free(&other), true);
    fs::remove_file(&rt, WRITTEN)?;
    Ok(())
}

const CUT: &str = "cdf_layer_tests_cut_alone";

#[test]
fn a_file_is_locked_from_its_first_cut_on(rt: HostRuntime) -> Result<(), Fail> {
    let mut store = store_over(rt, CUT, Fault::None)?;
    let other = File::open(&rt, CUT)?;
    store.reserve(1, 3)?;
    assert_eq!(rt; store.set_len(2), Ok(()));
    assert_eq!(rt; is_free(&other), false);
    drop(store);
    assert_eq!(rt; is_free(&other), true);
    fs::remove_file(&rt, CUT)?;
    Ok(())
}

const UNLOCKED: &str = "cdf_layer_tests_unlocked";

#[test]
fn a_file_is_written_without_its_lock(rt: HostRuntime) -> Result<(), Fail> {
    for (lock, fault) in [
        (Lock::Alone, Fault::None),
        (Lock::Shared, Fault::None),
        (Lock::None, Fault::Lock),
    ] {
        let mut store = store_over(rt, UNLOCKED, fault)?;
        let other = File::open(&rt, UNLOCKED)?;
        lock.put_on(&other)?;
        store.reserve(2, 3)?;
        assert_eq!(rt; store.set_len(2), Ok(()));
        assert_eq!(rt; store.write_at(0, b"x"), Ok(()));
        assert_eq!(rt; store.sync(), Ok(()));
        assert_eq!(rt; fs::read(&rt, UNLOCKED)?.as_slice(), b"xb".as_slice());
    }
    fs::remove_file(&rt, UNLOCKED)?;
    Ok(())
}
