//! Worked examples: what the definitions of images and data sets come to on files that are written out byte by byte.
#![tactic(auto)]

pub mod admitted;
pub mod attributes;
pub mod damaged;
pub mod layout;
pub mod new_files;
pub mod packed;
pub mod records;
pub mod refused_cuts;
pub mod refused_entries;
pub mod refused_indexes;
pub mod refused_puts;
pub mod scripts;
pub mod signs;
pub mod spaces;
pub mod sparse_records;
pub mod usual;
pub mod variables;
