//! A walk over the events of a data set, one at a time, and what is made of them: a dump, or a report of taps.
#![tactic(auto)]

mod dumping;
mod error;
mod gathered;
mod parts;
mod reporting;
mod walk;

pub use dumping::dump;
pub use error::WalkError;
pub use gathered::Gathered;
pub use parts::{Found, Parts};
pub use reporting::report;
pub use walk::{Walk, next_event};
