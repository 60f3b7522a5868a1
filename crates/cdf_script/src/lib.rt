//! What a line of a script asks for.
#![tactic(auto)]

mod argument;
mod arguments;
mod command;
mod fault;
mod meaning;
mod parsing;
mod raw_word;
mod verb;
mod word;
mod word_text;

pub use parsing::{ParseError, Parsed, is_blank_line, parse, parse_line};
