//! Taps: observers of the events of a data set, kept boxed in a list, and what a report does with the taps of a name.
#![tactic(auto)]

mod counts;
mod dropping;
mod lacking;
mod laws;
mod list;
mod needs_var_type;
mod showing;
mod tally;
mod tap;
#[cfg(test)]
mod tests;

pub use dropping::drop_ended;
pub use laws::reports;
pub use list::{clear_named, has_tap, is_named};
pub use needs_var_type::NeedsVarType;
pub use showing::show;
pub use tally::Tally;
pub use tap::{Go, Tap};
