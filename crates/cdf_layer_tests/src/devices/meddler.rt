//! Another program that changes a file.

use std::fs;
use std::fs::{FileTimes, OpenFile, OpenOptions};
use std::io::{Result, Write};
use std::os::unix;
use std::time::UNIX_EPOCH;

/// What is done to a file.
#[derive(Clone, Copy)]
pub enum Deed {
    /// A byte is appended, as long as the file has not so many.
    Grow(u64),
    /// Its bytes become these, and it seems to have stood so since 1970.
    Rewrite(&'static [u8]),
    /// Another file of these bytes takes its place.
    Replace(&'static [u8]),
    Remove,
    /// It gets another name, the first time that this is done.
    Move,
    /// A link that leads nowhere takes its place.
    Loop,
}

/// Another program, which does something to the file of this name.
#[derive(Clone, Copy)]
pub struct Meddler {
    pub name: &'static str,
    pub deed: Deed,
}

/// The name under which a file is made that is to take the place of another.
const REPLACEMENT: &str = "cdf_layer_tests_meddler";

/// The name that a file gets.
pub const MOVED: &str = "cdf_layer_tests_moved";

impl Meddler {
    pub fn meddle(&self, rt: HostRuntime) -> Result<()> {
        let name = self.name;
        match self.deed {
            Deed::Grow(limit) => {
                if fs::metadata(&rt, name)?.len() < limit {
                    let mut file = OpenOptions::new().append(true).open(&rt, name)?;
                    file.write_all(b"+")?;
                }
                Ok(())
            }
            Deed::Rewrite(bytes) => {
                fs::write(&rt, name, bytes)?;
                let file = OpenOptions::new().write(true).open(&rt, name)?;
                file.set_times(FileTimes::new().set_modified(UNIX_EPOCH))
            }
            Deed::Replace(bytes) => {
                fs::write(&rt, REPLACEMENT, bytes)?;
                fs::rename(&rt, REPLACEMENT, name)
            }
            Deed::Move if fs::exists(&rt, MOVED)? => Ok(()),
            Deed::Move => fs::rename(&rt, name, MOVED),
            Deed::Remove => fs::remove_file(&rt, name),
            Deed::Loop => {
                fs::remove_file(&rt, name)?;
                unix::fs::symlink(&rt, name, name)
            }
        }
    }
}
