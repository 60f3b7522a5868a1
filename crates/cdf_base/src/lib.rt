//! Words that several layers share: when a fault may be answered, and what a write leaves of a list of bytes.
#![tactic(auto)]
