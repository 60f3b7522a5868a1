//! Whether the records of an image hang together: one behind the other (phase 4), along their chains (phase 5), down the indexes of variables (phase 8), and each with one owner (phase 9).
#![tactic(auto)]

mod blocks;
mod chains;
mod fields;
mod file_chains;
mod finding;
mod index_walk;
mod indexes;
mod known;
mod links;
mod met;
mod nodes;
mod owners;
mod record_types;
mod room;
mod sorted;
mod tiles;

pub use chains::check_count;
pub use fields::read_size;
pub use file_chains::{Chains, check_chains};
pub use finding::Finding;
pub use indexes::check_indexes;
pub use links::{is_a, walk_chain};
pub use met::Met;
pub use owners::Owners;
pub use tiles::{Records, check_tiles};
