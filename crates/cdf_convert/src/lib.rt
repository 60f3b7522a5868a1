//! Writes what one file means into another one.
#![tactic(auto)]

mod copying;
mod error;
pub mod laws;

pub use copying::{Copied, write_compact};
pub use error::ConvertError;
