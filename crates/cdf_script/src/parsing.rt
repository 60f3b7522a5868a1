//! What a line asks for: the calls of the crate.

ghost use Rattle.std.specs.Prelude.{◌≡◌, true};
ghost use Rattle.cdf_lines.specs.Pending.{line_of};
ghost use Rattle.cdf_model.specs.Grammar.{Blank as Nothing, parse as asked_for, parse_words as words_ask_for};
ghost use Rattle.cdf_model.specs.Lines.{kept, is_blank as blank_line};
ghost use Rattle.cdf_script.specs.Asking.{Parses};

use crate::arguments::Arguments;
use crate::command::read_command;
pub use crate::fault::ParseError;
use cdf_lines::Line;
use cdf_model::limits::LINE_LIMIT;
use cdf_model::{Command, LineError};
use std::alloc::Global;

/// What a line asks for.
#[derive(Drop)]
pub enum Parsed {
    /// Nothing: the line is blank.
    Blank,
    Cmd { c: Command },
}

/// What a line of a script asks for.
#[inline(always)]
pub fn parse(alloc: Global, line: &Line<'_>) -> Result<Parsed, ParseError>
    ensures { Parses (asked_for (line_of line.now)) result }
{
    if line.long {
        too_long()
    } else {
        parse_text(alloc, line.text)
    }
}

/// What a line asks for, which comes without its newline.
pub fn parse_line(alloc: Global, line: &[u8]) -> Result<Parsed, ParseError>
    ensures { Parses (asked_for (kept line.now)) result }
{
    if line.len() > LINE_LIMIT {
        too_long()
    } else {
        parse_text(alloc, line)
    }
}

/// What a line asks for that is not too long.
#[inline(always)]
fn parse_text(alloc: Global, line: &[u8]) -> Result<Parsed, ParseError>
    ensures { Parses (asked_for (Some line.now)) result }
{
    if is_blank(line) {
        return Ok(Parsed::Blank);
    }
    let mut arguments = Arguments::of(alloc, line)?;
    parse_words(&mut arguments, line.len())
}

/// What the words of a line ask for that has so many bytes.
fn parse_words(arguments: &mut Arguments<'_>, line_length: usize) -> Result<Parsed, ParseError>
    ensures { Parses (words_ask_for line_length arguments.old) result }
{
    let Some(verb) = arguments.verb()? else {
        return Ok(Parsed::Blank);
    };
    arguments.check_count(verb, line_length)?;
    let command = read_command(verb, arguments)?;
    Ok(Parsed::Cmd { c: command })
}

/// The fault of a line that is too long.
fn too_long() -> Result<Parsed, ParseError>
    ensures { Parses (asked_for None) result }
{
    Err(ParseError::Bad {
        fault: LineError::TooLong {
            at: LINE_LIMIT as u64,
        },
    })
}

/// Whether a line has no bytes but blanks, or is a comment. It costs less than `parse`.
#[inline(always)]
pub fn is_blank_line(line: &Line<'_>) -> bool
    ensures { result ≡ true → asked_for (line_of line.now) ≡ Nothing }
{
    !line.long && is_blank(line.text)
}

#[inline(always)]
fn is_blank(line: &[u8]) -> bool
    ensures { result ≡ blank_line line.now }
{
    for byte in line {
        if *byte != b' ' && *byte != b'\t' {
            return *byte == b'#';
        }
    }
    true
}
