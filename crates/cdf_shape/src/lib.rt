//! How many bytes a record of a variable has, and where each of its values stands in it.
#![tactic(auto)]

pub mod laws;
mod place;
mod shape;

pub use place::place_of;
pub use shape::{Shape, record_bytes};
