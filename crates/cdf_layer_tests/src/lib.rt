//! Tests of what neither a clause nor a row says: real files and streams, digests of known texts, and calls that no run makes yet.
#![tactic(auto)]

#[cfg(test)]
mod devices;
#[cfg(test)]
mod pages;
#[cfg(test)]
mod records;
#[cfg(test)]
mod seal;
#[cfg(test)]
mod texts;
