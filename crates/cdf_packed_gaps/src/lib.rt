//! A record that is put past MaxRec + 1 of a packed variable with a rule for missing records: what its blocks have past MaxRec is cut first, and then
//! the record is put. Here are the laws on both together.
#![tactic(auto)]

pub mod laws;
