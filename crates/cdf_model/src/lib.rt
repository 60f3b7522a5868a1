//! What a data set is, what a command asks and answers, and the texts of the answers. A data set has no offset of a file in it.
#![tactic(auto)]

mod answer;
mod command;
mod data_type;
mod encoding;
mod event;
mod head;
mod item;
mod kinds;
pub mod laws;
pub mod limits;
mod list;
mod pad;
mod space;
mod spot;
mod words;

pub use answer::{LineError, Outcome, Reason, Reply};
pub use command::Command;
pub use data_type::DataType;
pub use encoding::Encoding;
pub use event::Event;
pub use head::{Head, Majority};
pub use item::{Item, Items};
pub use kinds::{EntryKind, Kind, Scope, Sparse};
pub use list::{Bytes, Nums, Varys};
pub use pad::default_pad;
pub use space::Space;
pub use spot::Spot;
pub use words::{WordIter, Words, WordsBuilder};
