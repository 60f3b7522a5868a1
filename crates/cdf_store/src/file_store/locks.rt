//! Locks, by which a program that writes a file and one that checks it keep clear of each other.

ghost use Rattle.std.specs.Prelude.{◌≡◌, IsFalse};

use std::fs::{File, TryLockError};
use std::io;

/// A file that can be locked: what `File` does, for code that is generic over `Files`.
///
/// A lock is of one opening of the file, and is let go when that is closed. It is advisory: it keeps off programs that ask for locks,
/// and none else. Some file systems, as some over a network, have no locks, and each call fails there.
pub trait Lockable {
    /// Locks the file for this opening alone, where no other one has a lock on it.
    fn try_lock(&self) -> Result<(), TryLockError>;

    /// Locks the file for this opening beside others that do so, where no other one has locked it for itself alone.
    fn try_lock_shared(&self) -> Result<(), TryLockError>;

    /// Lets the lock of this opening go.
    fn unlock(&self) -> io::Result<()>;
}

impl Lockable for File {
    fn try_lock(&self) -> Result<(), TryLockError> {
        File::try_lock(self)
    }

    fn try_lock_shared(&self) -> Result<(), TryLockError> {
        File::try_lock_shared(self)
    }

    fn unlock(&self) -> io::Result<()> {
        File::unlock(self)
    }
}

/// What the locks of other programs are to whoever attaches a file.
#[derive(Clone, Copy, Debug, PartialEq, Eq)]
pub enum Locks {
    /// They are not asked for.
    Ignored,
    /// A file that another program has locked for itself alone is not attached.
    Heeded,
}

/// How often a lock is asked for that another program may have for a moment.
const TRIES: u32 = 100;

/// Locks a file that is about to be written for this program alone, until it is closed. Nothing waits for the lock: where it is not to
/// be had, because another program has it, the file system has no locks or the call fails, the file stays as it is.
pub fn lock_alone<F: Lockable>(file: &F) {
    for _ in 0..TRIES {
        match file.try_lock() {
            Err(TryLockError::WouldBlock) => {}
            _ => return,
        }
    }
}

/// Whether another program has locked a file for itself alone, where locks are heeded and as far as the system tells. This program
/// has no lock on the file behind the call.
pub fn is_locked<F: Lockable>(file: &F, locks: Locks) -> bool
    ensures ignored { locks ≡ Locks.Ignored → IsFalse result }
{
    if locks == Locks::Ignored {
        return false;
    }
    match file.try_lock_shared() {
        Ok(()) => {
            let _ = file.unlock();
            false
        }
        Err(TryLockError::WouldBlock) => true,
        Err(TryLockError::Error(_)) => false,
    }
}
