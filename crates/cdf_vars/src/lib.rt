//! The variables of a file: made, changed, deleted and listed in place.
#![tactic(auto)]

mod blocking;
mod chain;
mod compression;
mod creating;
mod deleting;
mod descriptor;
mod events;
pub mod laws;
mod pad_record;
mod padding;
mod put_record;
mod puts;
mod reading;
mod record_view;
mod records;
mod reindexing;
mod removing;
mod renaming;
mod setup;
mod sparse_rule;
mod vars;

pub use record_view::RecordView;
pub use setup::set_up;
pub use vars::{VarId, Vars};
