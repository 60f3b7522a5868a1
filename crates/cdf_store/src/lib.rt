//! The devices that a program is given: a store of named files, a source of bytes and a sink.
#![tactic(auto)]

mod copy;
mod failed;
mod file_failure;
mod file_store;
mod mem_files;
mod mem_sink;
mod mem_source;
mod mem_store;
mod pieces;
mod plan;
mod sink;
mod source;
mod std_streams;
mod store;
mod sure_source;
mod system_error;
mod unstored;
mod writing;

pub use copy::{copy_from, put_in};
pub use failed::Failed;
pub use file_failure::{FileFailure, FileKind, Stream};
pub use file_store::{
    FileStore, Lockable, Locks, OpenError, Opened, READ_LIMIT, SystemFile, Written, check_regular,
    cut_to, open_regular, read_from, regular_file, store_file, write_from,
};
pub use mem_sink::MemSink;
pub use mem_source::MemSource;
pub use mem_store::MemStore;
pub use plan::Plan;
pub use sink::Sink;
pub use source::Source;
pub use std_streams::{StdSink, StdSource};
pub use store::{AttachError, Store};
pub use sure_source::SureSource;
pub use system_error::SystemError;
pub use unstored::Unstored;
pub use writing::write_all;
