//! What stands between quotes.

ghost use Rattle.std.specs.Prelude.{◌≡◌, ℕ, ◌+◌, ◌<◌, ◌≤◌, ◌^◌, ◌++◌, ◌==◌, length, drop, is_ok, true, Some, None, Ok, Err, if◌then◌else◌, IfOk, IfNone, IfErr, IfSome, OnOk, OnSome};
ghost use Rattle.std.specs.Char.{is_ascii_hexdigit};
ghost use Rattle.std.specs.List.{list_any};
ghost use Rattle.cdf_model.specs.Quoting.{before_quote as quote_in, digits as meaning_of_digits, hex_value, meaning, with_byte};
ghost use Rattle.cdf_script.specs.Scanned.{MeansFirst};

use cdf_model::LineError;
use std::alloc::{AllocError, Global};

/// A byte that a quoted text means, and how many bytes stand for it.
#[derive(Clone, Copy)]
struct Unit {
    pub byte: u8,
    pub used: usize,
}

/// How many bytes stand before the closing quote.
pub fn before_quote(text: &[u8]) -> Option<usize>
    ensures place { result ≡ quote_in text.now }
    ensures inside { IfSome result (λ n. n < length text.now) }
{
    let mut left = text;
    let mut count = 0;
    loop {
        match left {
            [] => return None,
            [b'"', ..] => return Some(count),
            [b'\\', _, rest @ ..] => {
                left = rest;
                count += 2;
            }
            [_, rest @ ..] => {
                left = rest;
                count += 1;
            }
        }
    }
}

/// The value of a hexadecimal digit.
fn hex_digit(byte: u8) -> Option<u8>
    ensures { result ≡ (if is_ascii_hexdigit byte then Some (hex_value byte) else None) }
{
    match byte {
        b'0'..=b'9' => Some(byte - b'0'),
        b'A'..=b'F' => Some(byte - b'A' + 10),
        b'a'..=b'f' => Some(byte - b'a' + 10),
        _ => None,
    }
}

/// The first byte that a quoted text means which stands at a place of the line.
fn first_unit(place: usize, text: &[u8]) -> Result<Option<Unit>, LineError>
    requires { place + length text.now < 2 ^ 64 }
    ensures means { MeansFirst place text.now result }
    ensures used { IfOk result (λ unit. IfSome unit (λ unit. (1 ≤ unit.used) × (unit.used ≤ length text.now))) }
{
    match text {
        [] => Ok(None),
        [b'\\', b'x', digits @ ..] => {
            let Some(byte) = hex_byte(digits) else {
                return Err(LineError::BadHex { at: place as u64 });
            };
            Ok(Some(Unit { byte, used: 4 }))
        }
        [b'\\', byte, ..] if *byte == b'"' || *byte == b'\\' => Ok(Some(Unit {
            byte: *byte,
            used: 2,
        })),
        [b'\\', ..] => Err(LineError::BadQuote { at: place as u64 }),
        [byte, ..] => Ok(Some(Unit {
            byte: *byte,
            used: 1,
        })),
    }
}

/// The byte that two hexadecimal digits write.
fn hex_byte(text: &[u8]) -> Option<u8>
    ensures none { IfNone result ((place : ℕ) → meaning_of_digits place text.now ≡ Err (LineError.BadHex place)) }
    ensures some { IfSome result (λ byte. (place : ℕ) → meaning_of_digits place text.now ≡ with_byte byte (meaning (place + 4) (drop 2 text.now))) }
    ensures inside { OnSome result (2 ≤ length text.now) }
{
    let [high, low, ..] = text else {
        return None;
    };
    Some(16 * hex_digit(*high)? + hex_digit(*low)?)
}

/// Reads a quoted text, which stands at a place of the line, for its first fault.
pub fn check_meaning(place: usize, text: &[u8]) -> Result<(), LineError>
    requires { place + length text.now < 2 ^ 64 }
    ensures ok { OnOk result (is_ok (meaning place text.now) ≡ true) }
    ensures err { IfErr result (λ fault. meaning place text.now ≡ Err fault) }
{
    let mut left = text;
    let mut place = place;
    while let Some(unit) = first_unit(place, left)? {
        left = left.split_at(unit.used).1;
        place += unit.used;
    }
    Ok(())
}

/// Whether a backslash is among the bytes.
pub fn has_escape(text: &[u8]) -> bool
    ensures { result ≡ list_any (λ b. b == 92) text.now }
{
    text.iter().any(|byte| *byte == b'\\')
}

/// The bytes that a quoted text without fault means.
pub fn decode(alloc: Global, place: usize, text: &[u8]) -> Result<Vec<u8>, AllocError>
    requires fits { place + length text.now < 2 ^ 64 }
    requires good { is_ok (meaning place text.now) ≡ true }
    ensures { IfOk result (λ bytes. meaning place text.now ≡ Ok bytes.items) }
{
    let mut bytes = Vec::with_capacity(alloc, text.len())?;
    let mut left = text;
    let mut place = place;
    while let Ok(Some(unit)) = first_unit(place, left) {
        bytes.push(unit.byte)?;
        left = left.split_at(unit.used).1;
        place += unit.used;
    }
    Ok(bytes)
}
