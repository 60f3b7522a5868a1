//! Whether a file is well formed, rule by rule.
#![tactic(auto)]

mod attributes;
mod cdr_rules;
mod entries;
mod fields;
mod gdr_rules;
mod image_rules;
mod magic_rules;
mod names;
mod parameters;
mod trailer_rules;
mod validator;
mod variable;
mod variable_fields;
mod variable_shape;
mod variables;
mod verdict;

pub use validator::check;
pub use verdict::Broken;
