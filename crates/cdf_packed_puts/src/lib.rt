//! Records put into a packed variable: those of one leaf at once, into the block that has them or into a new one.
#![tactic(auto)]

mod adding;
mod putting;
mod rewriting;

pub use adding::{Vacancy, add_packed};
pub use putting::put_packed;
pub use rewriting::rewrite_leaf;
