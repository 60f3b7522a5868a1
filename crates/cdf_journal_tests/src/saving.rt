//! A saving over a disk in memory, and the file that is found next.

ghost use Rattle.cdf_journal.specs.Opening.{HasOne};

use cdf_journal::{JournalError, JournalRefusal, JournalStore, Part};
use cdf_mem_disk::MemDisk;
use cdf_store::Store;
use std::alloc::Global;
use std::test::Fail;

pub const NAME: &str = "a.cdf";

/// The file before a saving.
pub const OLD: &[u8] = b"the file as it was";

/// The file behind a saving that makes it longer, and behind one that makes it shorter.
pub const LONGER: &[u8] = b"the new file, which is longer";

pub const SHORTER: &[u8] = b"the new one";

/// A disk with the old file and this log, on which the call of a number fails.
pub fn disk_failing(alloc: Global, log: &[u8], call: u64) -> Result<MemDisk, Fail> {
    let mut disk = MemDisk::new(alloc, 64, 4096)?;
    disk.put_file(NAME, OLD, log)?;
    disk.fail_at(call)?;
    Ok(disk)
}

/// How a saving ended.
#[derive(Clone, Copy, Debug, PartialEq, Eq)]
pub enum End {
    /// It went well.
    Done,
    /// The file was not opened.
    Unopened(JournalError),
    /// The file was opened, and not saved.
    Unsaved,
}

/// What came of a saving.
#[derive(Drop)]
pub struct Saved {
    pub disk: MemDisk,
    pub end: End,
}

/// Makes a new file of the old one, by a cut and three writes.
fn edit(store: &mut JournalStore<MemDisk>, new: &[u8]) -> Result<(), Fail>
    requires { HasOne NAME.now (⟦<JournalStore<MemDisk> as Store>⟧.disk store.old) }
{
    let Ok(Some(size)) = store.attach(NAME, false) else {
        return Err(Fail::new("the file was not attached"));
    };
    if size < 4 || new.len() < 4 || new.len() > 64 {
        return Err(Fail::new("a file is too short or too long"));
    }
    store.reserve(4, 64)?;
    store.set_len(4)?;
    store.write_at(4, &new[4..])?;
    store.write_at(0, b"THE")?;
    store.write_at(0, &new[..4])?;
    Ok(())
}

/// Opens the file of a disk, makes a new one of it, and saves that.
pub fn save(alloc: Global, disk: MemDisk, new: &[u8]) -> Result<Saved, Fail> {
    match JournalStore::open(alloc, disk, NAME, false) {
        Err(JournalRefusal { disk, why }) => Ok(Saved {
            disk,
            end: End::Unopened(why),
        }),
        Ok(mut store) => {
            edit(&mut store, new)?;
            let end = match store.commit() {
                Ok(()) => End::Done,
                Err(_) => End::Unsaved,
            };
            let disk = store.into_disk();
            Ok(Saved { disk, end })
        }
    }
}

/// The bytes of a part of a disk.
pub fn bytes_of(alloc: Global, disk: &MemDisk, part: Part) -> Result<Vec<u8>, Fail> {
    match disk.part(part) {
        None => Err(Fail::new("there is no file")),
        Some(bytes) => Ok(Vec::from_slice(alloc, bytes)?),
    }
}

/// The disk behind the next opening of its file.
pub fn opened_next(alloc: Global, disk: MemDisk) -> Result<MemDisk, Fail> {
    match JournalStore::open(alloc, disk, NAME, false) {
        Err(_) => Err(Fail::new("the file was not opened")),
        Ok(store) => Ok(store.into_disk()),
    }
}

/// The bytes of the file of a disk, as it is found when it is opened next.
pub fn found_next(alloc: Global, disk: MemDisk) -> Result<Vec<u8>, Fail> {
    let disk = opened_next(alloc, disk)?;
    bytes_of(alloc, &disk, Part::Main)
}
