//! Records put into the blocks of a variable, and what becomes of an image on the way: of each step, and of all of them together, as laws.
#![tactic(auto)]

mod known_index;
pub mod laws;
mod putting;
mod searching;
mod starts;

pub use known_index::{IndexBound, KnownIndex};
pub use putting::{NewRecord, Progress, last_of_new, put_records};
pub use searching::{Search, find_leaf};
pub use starts::Starts;
