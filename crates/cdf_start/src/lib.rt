//! The program's top call: a run over a store, or over a file and its log.
#![tactic(auto)]

mod logged;
mod plain;
mod refused;
mod saved;
mod top;
mod words;

pub use plain::Started;
pub use top::start;
pub use words::behind_journal;
