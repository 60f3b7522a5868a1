//! The texts of events.
#![tactic(auto)]

mod event;
mod variable;

pub use event::{append_event, event_text};
