//! Tests of what no clause of a conversion says: that it succeeds, what a file of another length comes to, and where it stops in an
//! area that is full.
#![tactic(auto)]

#[cfg(test)]
mod copies;
#[cfg(test)]
mod full;
#[cfg(test)]
mod made;
#[cfg(test)]
mod scripts;
