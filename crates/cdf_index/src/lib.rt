//! The index of a variable: a tree of nodes whose entries name blocks of records, read through an area.
#![tactic(auto)]

mod collecting;
mod descending;
mod entries;
mod finding;
mod gathering;
pub mod laws;
mod making;
mod measuring;
mod next;
mod nodes;
mod records;
mod scanning;
mod splitting;
mod starting;

pub use collecting::{IndexParts, index_parts, index_records};
pub use descending::{Spot, Step, Way, way_down};
pub use entries::{Entry, insert_entry, read_entry, set_entry, widen_entry, write_entries};
pub use finding::find;
pub use making::write_node;
pub use measuring::{IndexSize, NEW_ENTRIES, index_size};
pub use next::next_first;
pub use nodes::{Head, Leaf, read_head};
pub use records::{read_rec, write_recs};
pub use scanning::{Named, read_named};
pub use splitting::{read_entries, shorten_node};
pub use starting::start_of;
