//! Tests of what no clause of the writer of compact images says: that calls succeed, and which bytes come of them.
#![tactic(auto)]

#[cfg(test)]
mod writing;
