//! The names of a file's attributes, or of its variables of one kind, each with its number.
#![tactic(auto)]

mod name;
mod table;

pub use name::is_bad_name;
pub use table::NameTable;
