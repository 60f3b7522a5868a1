//! An area of bytes that is read and written in pieces, with a mark to which it can go back.
#![tactic(auto)]

mod area;
mod mem_area;
mod undo_log;

pub use area::{Area, AreaError};
pub use mem_area::MemArea;
pub use undo_log::UndoLog;
