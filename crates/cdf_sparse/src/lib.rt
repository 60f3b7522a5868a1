//! Records cut out under a rule for missing records, where later ones keep their numbers, and that rule set: `open_records`, and laws on the
//! commands.
#![tactic(auto)]

mod opening;

pub use opening::open_records;
