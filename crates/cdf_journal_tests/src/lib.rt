//! Savings over a disk in memory: stopped by a crash after each call, or with a call that fails, and what is found next.
#![tactic(auto)]

#[cfg(test)]
mod logs;
#[cfg(test)]
mod saving;
#[cfg(test)]
mod stopped;
