//! The checksum of an image, and the image of a file in front of it.
#![tactic(auto)]

mod digest;
mod front;

pub use digest::digest_of;
pub use front::Front;
