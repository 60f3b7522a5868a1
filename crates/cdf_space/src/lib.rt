//! Records taken and freed, and chains of records, by the bytes of an area.
#![tactic(auto)]

mod adding;
mod chains;
mod measuring;
mod placing;

pub use adding::{append_record, exchange_record};
pub use cdf_edits::Chain;
pub use chains::{
    chain_append, chain_remove, chain_replace, count_down, count_up, read_chain, take_out,
};
pub use measuring::space_of;
pub use placing::{alloc_record, free_record, free_records, place_record};
