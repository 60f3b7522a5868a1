//! The words of a text, and the faults of their quotes.

ghost use Rattle.std.specs.Prelude.{◌≡◌, ◌+◌, ◌<◌, ◌≤◌, ◌^◌, ◌||◌, ◌==◌, length, IfOk, IfSome};
ghost use Rattle.std.specs.List.{position_or_len};
ghost use Rattle.cdf_model.specs.Quoting.{at_end as ends, first_word as first_of, word_here as first_here, quoted_word as first_quoted, bare_word as first_bare, before_quote as bytes_before_quote, is_separator as separates, separators as count_separators, words};
ghost use Rattle.cdf_script.specs.Left.{how_many};
ghost use Rattle.cdf_script.specs.Scanned.{Finds, FindsWord, Within};

use crate::meaning::{before_quote, check_meaning};
use crate::raw_word::{Found, RawWord};
use cdf_model::LineError;

/// The first word of a text, which stands at a place of the line; none where there are separators alone.
pub fn first_word(place: usize, text: &[u8]) -> Result<Option<Found<'_>>, LineError>
    requires { place + length text.now < 2 ^ 63 }
    ensures finds { Finds (first_of place text.now) result }
    ensures used { Within result (length text.now) }
{
    let count = separators(text);
    let here = text.split_at(count).1;
    match word_here(place + count, here)? {
        None => Ok(None),
        Some(found) => Ok(Some(found.behind(count))),
    }
}

/// How many words there are from a line's begin to its end.
pub fn count_words(line: &[u8]) -> Result<usize, LineError>
    ensures { result ≡ how_many (words line.now) }
{
    let mut left = line;
    let mut place = 0;
    let mut count = 0;
    loop {
        match first_word(place, left) {
            Ok(Some(found)) => {
                left = left.split_at(found.used).1;
                place += found.used;
                count += 1;
            }
            Ok(None) => return Ok(count),
            Err(fault) => return Err(fault),
        }
    }
}

/// How many separators come first.
fn separators(text: &[u8]) -> usize
    ensures value { result ≡ count_separators text.now }
    ensures inside { result ≤ length text.now }
{
    for (count, byte) in text.iter().enumerate() {
        if !is_separator(*byte) {
            return count;
        }
    }
    text.len()
}

/// The word that begins at once.
fn word_here(place: usize, text: &[u8]) -> Result<Option<Found<'_>>, LineError>
    requires { place + length text.now < 2 ^ 63 }
    ensures finds { Finds (first_here place text.now) result }
    ensures used { Within result (length text.now) }
{
    match text {
        [] => Ok(None),
        [b'"', inside @ ..] => Ok(Some(quoted_word(place, inside)?)),
        _ => Ok(Some(bare_word(place, text)?)),
    }
}

/// The word behind an opening quote, which stands at the place.
fn quoted_word(place: usize, text: &[u8]) -> Result<Found<'_>, LineError>
    requires { place + length text.now + 1 < 2 ^ 63 }
    ensures finds { FindsWord (first_quoted place text.now (bytes_before_quote text.now)) result }
    ensures used { IfOk result (λ found. found.used ≤ length text.now + 1) }
{
    let Some(end) = before_quote(text) else {
        return Err(LineError::BadQuote { at: place as u64 });
    };
    let inside = text.split_at(end).0;
    check_meaning(place + 1, inside)?;
    if !at_end(text.split_at(end + 1).1) {
        return Err(LineError::BadQuote {
            at: (place + end + 2) as u64,
        });
    }
    Ok(Found {
        word: RawWord::quoted(place, inside),
        used: end + 2,
    })
}

/// The bare word that a text begins with.
fn bare_word(place: usize, text: &[u8]) -> Result<Found<'_>, LineError>
    requires { place + length text.now < 2 ^ 63 }
    ensures finds { FindsWord (first_bare place text.now (position_or_len (λ c. separates c || (c == 34)) text.now)) result }
    ensures used { IfOk result (λ found. found.used ≤ length text.now) }
{
    let end = bare_length(text);
    let (bare, behind) = text.split_at(end);
    if !at_end(behind) {
        return Err(LineError::BadQuote {
            at: (place + end) as u64,
        });
    }
    Ok(Found {
        word: RawWord::bare(place, bare),
        used: end,
    })
}

/// How many bytes stand before the first separator or quote.
fn bare_length(text: &[u8]) -> usize
    ensures value { result ≡ position_or_len (λ c. separates c || (c == 34)) text.now }
    ensures inside { result ≤ length text.now }
{
    for (count, byte) in text.iter().enumerate() {
        if is_separator(*byte) || *byte == b'"' {
            return count;
        }
    }
    text.len()
}

/// The text ends, or a separator comes.
fn at_end(text: &[u8]) -> bool
    ensures { result ≡ ends text.now }
{
    match text {
        [] => true,
        [byte, ..] => is_separator(*byte),
    }
}

fn is_separator(byte: u8) -> bool
    ensures { result ≡ separates byte }
{
    byte == b' ' || byte == b'\t'
}
