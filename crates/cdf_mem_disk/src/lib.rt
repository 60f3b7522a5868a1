//! A disk in memory, which tells what a crash at each moment may leave of it, and makes one.
#![tactic(auto)]

mod history;
mod mem_disk;
mod mem_parts;
mod past;

pub use mem_disk::MemDisk;
