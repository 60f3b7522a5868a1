//! Runs of which a row of a table cannot say what they come to: over a real file, over an output that fails, over a store that fails as
//! it is written, over taps of a caller, and what is noted of refused lines.
#![tactic(auto)]

#[cfg(test)]
mod failed_saving;
#[cfg(test)]
mod marks;
#[cfg(test)]
mod output;
#[cfg(test)]
mod real_file;
#[cfg(test)]
mod reports;
#[cfg(test)]
mod watcher;
