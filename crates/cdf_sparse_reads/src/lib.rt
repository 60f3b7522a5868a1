//! What is asked before records go: whether the variable has a rule for missing records, and under one how many bytes that may take, and how many records
//! the variable has then.
#![tactic(auto)]

mod left;
mod room;
mod rule;

pub use left::read_extent_after;
pub use room::read_opening_room;
pub use rule::has_gaps;
