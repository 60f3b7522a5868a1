//! The attributes of a file and their entries: made, changed, deleted and listed in place.
#![tactic(auto)]

mod attrs;
mod chain_fields;
mod creating;
mod deleting;
mod dropping;
mod entry_bytes;
mod entry_chain;
mod entry_order;
mod finding;
mod getting;
mod greatest;
mod kept_chains;
pub mod laws;
mod numbering;
mod putting;
mod putting_entry;
mod range;
mod reading;
mod removing;
mod renaming;
mod showing;
mod value;

pub use attrs::Attrs;
