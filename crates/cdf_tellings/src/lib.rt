//! What a person is told of a run on standard error: what could not be done with which file and why, which lines were refused, and
//! what a new file took the place of.
#![tactic(auto)]

mod causes;
mod files;
mod help;
mod open_log;
mod quoted;
mod refusals;
mod rules;
mod telling;
mod words;

pub use causes::Cause;
pub use files::{Nature, Packing, look};
pub use open_log::OpenLog;
pub use quoted::Quoted;
pub use refusals::{ReasonWords, RefusalsWords};
pub use rules::words_of_rule;
pub use telling::{Access, FileNews, Said, Telling};
pub use words::{WordsFault, fault_of_words};
