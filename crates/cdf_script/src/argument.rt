//! What one word is read as.

ghost use Rattle.std.specs.Prelude.{◌≡◌, ◌==◌, ◌+◌, ◌-◌, ◌*◌, ◌^◌, ◌<◌, position, IfOk, SomeIff};
ghost use Rattle.std.specs.Char.{is_ascii_digit};
ghost use Rattle.std.specs.List.{list_all};
ghost use Rattle.std.specs.Option.{option_map};
ghost use Rattle.cdf_model.specs.Arguments.{choice_in, entry_kind_in, is_plain_number, letters_in, majority_in, number_in, numbers_in, rule_in, scope_in, type_in, varys_in};
ghost use Rattle.cdf_script.specs.Commas.{SplitsFirst};

use cdf_model::{DataType, EntryKind, Majority, Nums, Scope, Sparse, Varys};
use std::alloc::{AllocError, Global};

/// A decimal number of at most 32 bits without leading zeros.
pub fn read_number(word: &[u8]) -> Option<u32>
    ensures { result ≡ number_in word.now }
{
    if !is_plain(word) {
        return None;
    }
    let mut number: u32 = 0;
    for byte in word {
        let Some(longer) = with_digit(number, *byte) else {
            return None;
        };
        number = longer;
    }
    Some(number)
}

/// A number and one digit more; none past 32 bits.
fn with_digit(number: u32, byte: u8) -> Option<u32>
    ensures { SomeIff result (10 * number + (byte - 48) < 2 ^ 32) (10 * number + (byte - 48)) }
{
    number
        .checked_mul(10)?
        .checked_add(u32::from(byte.saturating_sub(b'0')))
}

/// One digit or more, the first of several not 0.
fn is_plain(word: &[u8]) -> bool
    ensures { result ≡ is_plain_number word.now }
{
    let digits = is_digits(word);
    match word {
        [] => false,
        [_] => digits,
        [first, ..] => digits && *first != b'0',
    }
}

fn is_digits(word: &[u8]) -> bool
    ensures { result ≡ list_all is_ascii_digit word.now }
{
    word.iter().all(|byte| byte.is_ascii_digit())
}

/// The first of two words, or the second.
pub fn read_choice(first: &[u8], second: &[u8], word: &[u8]) -> Option<bool>
    ensures { result ≡ choice_in first.now second.now word.now }
{
    if word == first {
        Some(false)
    } else if word == second {
        Some(true)
    } else {
        None
    }
}

/// The type that has the name.
pub fn read_type(word: &[u8]) -> Option<DataType>
    ensures { result ≡ type_in word.now }
{
    DataType::of_name(word)
}

/// `global` or `variable`.
pub fn read_scope(word: &[u8]) -> Option<Scope>
    ensures { result ≡ scope_in word.now }
{
    if word == b"global".as_slice() {
        Some(Scope::Global)
    } else if word == b"variable".as_slice() {
        Some(Scope::Variable)
    } else {
        None
    }
}

/// `row` or `column`.
pub fn read_majority(word: &[u8]) -> Option<Majority>
    ensures { result ≡ majority_in word.now }
{
    if word == b"row".as_slice() {
        Some(Majority::Row)
    } else if word == b"column".as_slice() {
        Some(Majority::Column)
    } else {
        None
    }
}

/// `g`, `r` or `z`.
pub fn read_kind(word: &[u8]) -> Option<EntryKind>
    ensures { result ≡ entry_kind_in word.now }
{
    if word == b"g".as_slice() {
        Some(EntryKind::G)
    } else if word == b"r".as_slice() {
        Some(EntryKind::R)
    } else if word == b"z".as_slice() {
        Some(EntryKind::Z)
    } else {
        None
    }
}

/// `none`, `pad` or `previous`.
pub fn read_rule(word: &[u8]) -> Option<Sparse>
    ensures { result ≡ rule_in word.now }
{
    if word == b"none".as_slice() {
        Some(Sparse::NoRule)
    } else if word == b"pad".as_slice() {
        Some(Sparse::Pad)
    } else if word == b"previous".as_slice() {
        Some(Sparse::Previous)
    } else {
        None
    }
}

/// `-` for none, else numbers joined by commas.
pub fn read_numbers(alloc: Global, word: &[u8]) -> Result<Option<Nums>, AllocError>
    ensures { IfOk result (λ numbers. numbers ≡ numbers_in word.now) }
{
    if word == b"-".as_slice() {
        return Ok(Some(Nums::new(Vec::new(alloc))));
    }
    // A number takes a digit, and there is a comma between two of them.
    let mut numbers = Vec::with_capacity(alloc, word.len() / 2 + 1)?;
    let mut left = word;
    loop {
        let (part, behind) = first_part(left);
        let Some(number) = read_number(part) else {
            return Ok(None);
        };
        numbers.push(number)?;
        let Some(text) = behind else {
            return Ok(Some(Nums::new(numbers)));
        };
        left = text;
    }
}

/// The part of a text before its first comma, and what stands behind the comma; the whole text where there is none.
fn first_part(text: &[u8]) -> (&[u8], Option<&[u8]>)
    ensures { SplitsFirst text.now result.0.now (option_map (λ behind. behind.now) result.1) }
{
    match comma_in(text) {
        None => (text, None),
        Some(end) => (text.split_at(end).0, Some(text.split_at(end + 1).1)),
    }
}

/// Where the first comma stands.
fn comma_in(text: &[u8]) -> Option<usize>
    ensures { result ≡ position (λ b. b == 44) text.now }
{
    text.iter().position(|byte| *byte == b',')
}

/// `-` for none, else a letter T or F for each dimension.
pub fn read_varys(alloc: Global, word: &[u8]) -> Result<Option<Varys>, AllocError>
    ensures { IfOk result (λ varys. varys ≡ varys_in word.now) }
{
    if word.is_empty() {
        return Ok(None);
    }
    if word == b"-".as_slice() {
        return Ok(Some(Varys::new(Vec::new(alloc))));
    }
    let mut varys = Vec::with_capacity(alloc, word.len())?;
    for letter in word {
        match letter {
            b'T' => varys.push(true)?,
            b'F' => varys.push(false)?,
            _ => return Ok(None),
        }
    }
    Ok(Some(Varys::new(varys)))
}
