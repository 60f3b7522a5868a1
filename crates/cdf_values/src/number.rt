//! Decimal numbers: as words, as bytes, and as texts.

ghost use Rattle.std.specs.Prelude.{◌≡◌, ◌+◌, ◌-◌, ◌*◌, ◌^◌, ◌<◌, ◌≤◌, ◌++◌, length, OnOk, decimal};
ghost use Rattle.std.specs.Fmt.{signed_decimal};
ghost use Rattle.std.specs.Int.{bytes_high_first};
ghost use Rattle.std.specs.Option.{option_map};
ghost use Rattle.cdf_model.specs.Values.{negative_in, number_of, signed_of, signed_in, unsigned_in};
ghost use Rattle.cdf_values.specs.Numbers.{digits_from, plain_up_to, with_digit};

use itoa::Buffer;
use std::alloc::AllocError;

/// The number with a digit more; none where the byte is no digit or the number passes `most`.
fn with_digit(most: u64, number: u64, byte: u8) -> Option<u64>
    ensures { result ≡ with_digit most number byte }
{
    if !byte.is_ascii_digit() {
        return None;
    }
    let digit = u64::from(byte - b'0');
    let number = number.checked_mul(10)?.checked_add(digit)?;
    if number <= most { Some(number) } else { None }
}

/// The number of a word of digits; none where it has another byte or passes `most`. No more of it is read then.
fn digits_up_to(most: u64, word: &[u8]) -> Option<u64>
    ensures { result ≡ digits_from most 0 word.now }
{
    let mut number = 0;
    for byte in word {
        number = with_digit(most, number, *byte)?;
    }
    Some(number)
}

/// The number of a word without sign and leading zeros; none where it is not one, or passes `most`.
fn plain_number(most: u64, word: &[u8]) -> Option<u64>
    ensures { result ≡ plain_up_to most word.now }
{
    match word {
        [] | [b'0', _, ..] => None,
        _ => digits_up_to(most, word),
    }
}

/// How many of the numbers of so many bytes have no sign.
fn half_range(size: usize) -> u64
    requires some { 0 < size }
    requires fits { size ≤ 8 }
    ensures { result ≡ 2 ^ (8 * size - 1) }
{
    1 << (8 * size - 1)
}

/// The number whose lowest bytes, `size` of them, are those of a word without sign.
pub fn read_unsigned(size: usize, word: &[u8]) -> Option<u64>
    requires some { 0 < size }
    requires fits { size ≤ 8 }
    ensures { option_map (λ n. bytes_high_first size n) result ≡ unsigned_in size word.now }
{
    let half = half_range(size);
    plain_number(half - 1 + half, word)
}

/// The number whose lowest bytes, `size` of them, are those of the negative one with these digits.
fn read_negative(size: usize, digits: &[u8]) -> Option<u64>
    requires some { 0 < size }
    requires fits { size ≤ 8 }
    ensures { option_map (λ n. bytes_high_first size n) result ≡ negative_in size digits.now }
{
    let half = half_range(size);
    let number = plain_number(half, digits)?;
    if number == 0 {
        return None;
    }
    Some(half - number + half)
}

/// The number whose lowest bytes, `size` of them, are those of a word that may have a sign.
pub fn read_signed(size: usize, word: &[u8]) -> Option<u64>
    requires some { 0 < size }
    requires fits { size ≤ 8 }
    ensures { option_map (λ n. bytes_high_first size n) result ≡ signed_in size word.now }
{
    match word {
        [b'-', digits @ ..] => read_negative(size, digits),
        _ => plain_number(half_range(size) - 1, word),
    }
}

/// The lowest bytes of a number, `size` of them, the highest first.
pub fn append_bytes(number: u64, size: usize, bytes: &mut Vec<u8>) -> Result<(), AllocError>
    requires { size ≤ 8 }
    ensures { OnOk result (bytes.new.items ≡ bytes.old.items ++ bytes_high_first size number) }
{
    let all = number.to_be_bytes();
    bytes.extend_from_slice(&all[8 - size..])
}

/// The number in bytes, the highest first.
fn number_in(bytes: &[u8]) -> u64
    requires { length bytes.now ≤ 8 }
    ensures value { result ≡ number_of bytes.now }
    ensures fits { result < 256 ^ length bytes.now }
{
    let mut number = 0;
    for byte in bytes {
        number = 256 * number + u64::from(*byte);
    }
    number
}

/// Appends a number in decimal.
pub fn append_decimal(number: u64, text: &mut Vec<u8>) -> Result<(), AllocError>
    ensures { OnOk result (text.new.items ≡ text.old.items ++ decimal number) }
{
    let mut buffer = Buffer::new();
    text.extend_from_slice(buffer.format(number).as_bytes())
}

/// The number in bytes, in decimal.
pub fn append_unsigned(bytes: &[u8], text: &mut Vec<u8>) -> Result<(), AllocError>
    requires { length bytes.now ≤ 8 }
    ensures { OnOk result (text.new.items ≡ text.old.items ++ decimal (number_of bytes.now)) }
{
    append_decimal(number_in(bytes), text)
}

/// The number in bytes, which may be negative, in decimal.
pub fn append_signed(bytes: &[u8], text: &mut Vec<u8>) -> Result<(), AllocError>
    requires some { 0 < length bytes.now }
    requires fits { length bytes.now ≤ 8 }
    ensures { OnOk result (text.new.items ≡ text.old.items ++ signed_decimal (signed_of bytes.now)) }
{
    let half = half_range(bytes.len());
    let number = number_in(bytes);
    if number < half {
        return append_decimal(number, text);
    }
    text.push(b'-')?;
    append_decimal(half - (number - half), text)
}
