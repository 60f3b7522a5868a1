//! Saving that survives a crash: a file is saved through a log beside it, from which it is mended when it is opened next.
#![tactic(auto)]

mod disk;
mod disk_file;
mod file_disk;
mod filling;
mod gate;
mod journal_error;
mod journal_store;
pub mod laws;
mod laying;
mod loading;
mod mending;
mod opening;
mod range;
mod reading;
mod saving;
mod slices;
mod writing;

pub use disk::{Disk, Part};
pub use file_disk::FileDisk;
pub use filling::fill;
pub use gate::{arm, disarm};
pub use journal_error::JournalError;
pub use journal_store::{JournalRefusal, JournalStore};
pub use laying::lay;
pub use range::Range;
pub use saving::save;
pub use writing::write_synced;
