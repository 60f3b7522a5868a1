//! Runs over a disk in memory and its log: with each call failing in turn, and a crash behind it.
#![tactic(auto)]

#[cfg(test)]
mod refused;
#[cfg(test)]
mod runs;
#[cfg(test)]
mod stopped;
#[cfg(test)]
mod usual;
