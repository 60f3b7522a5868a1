//! An area in pages over the file that is attached to a store.
#![tactic(auto)]

mod cache;
mod growth;
mod in_pages;
mod owning;
mod page;
mod paged_area;
mod reading;
mod save_error;
mod saving;
mod settling;
mod sheets;
mod table;
mod writing;

pub use in_pages::InPages;
pub use paged_area::PagedArea;
pub use save_error::SaveError;
