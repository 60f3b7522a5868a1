//! Records of a variable are put leaf by leaf, as `put-rec` does. Here are the laws on all steps together: what each record of the image keeps, what was
//! taken and freed, and what is stored at the end.
#![tactic(auto)]

pub mod laws;
