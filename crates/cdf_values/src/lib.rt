//! How values are read from words and written as texts, and the byte order that a file has them in.
#![tactic(auto)]

mod hex;
pub mod laws;
mod notation;
mod number;
mod order;
mod quoted;
mod read;
mod write;

pub use number::append_decimal;
pub use order::{from_network, to_network};
pub use quoted::{append_quoted, quoted_text};
pub use read::{ValueError, read_values};
pub use write::{append_values, write_values};
