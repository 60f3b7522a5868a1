//! What a command may do to the bytes of an image: what it takes, what it frees, which bytes it touches, and what follows from that.
#![tactic(auto)]

mod chain;
pub mod laws;

pub use chain::Chain;
