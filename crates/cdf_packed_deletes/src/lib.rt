//! Records taken out of packed variables, where later ones close up or keep their numbers.
#![tactic(auto)]

mod closing;
pub mod laws;
mod opening;

pub use closing::close_packed;
pub use opening::open_packed;
