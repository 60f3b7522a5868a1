//! The lines of a script that comes in pieces.
#![tactic(auto)]

mod block;
pub mod laws;
mod line;
mod lines;
mod split;
mod text;

pub use line::Line;
pub use lines::Lines;
