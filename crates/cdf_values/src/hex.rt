//! Hexadecimal digits, two for a byte.

ghost use Rattle.std.specs.Prelude.{◌≡◌, ◌^◌, ◌<◌, ◌++◌, OnOk, IfOk, if◌then◌else◌};
ghost use Rattle.std.specs.Char.{is_ascii_hexdigit};
ghost use Rattle.cdf_model.specs.Quoting.{hex_value};
ghost use Rattle.cdf_model.specs.Values.{digits_in, hex_digit, hex_text};
ghost use Rattle.cdf_values.specs.Reading.{IsRead, pair_byte};

use std::alloc::AllocError;

/// The lower-case digit of a number below 16.
pub fn hex_digit(number: u8) -> u8
    requires { number < 16 }
    ensures { result ≡ hex_digit number }
{
    if number < 10 {
        b'0' + number
    } else {
        b'a' - 10 + number
    }
}

/// Two lower-case digits for each byte.
pub fn append_hex(bytes: &[u8], text: &mut Vec<u8>) -> Result<(), AllocError>
    ensures { OnOk result (text.new.items ≡ text.old.items ++ hex_text bytes.now) }
{
    for byte in bytes {
        text.push(hex_digit(byte / 16))?;
        text.push(hex_digit(byte % 16))?;
    }
    Ok(())
}

/// The number of a digit in either case.
fn digit_number(byte: u8) -> Option<u8>
    ensures { result ≡ (if is_ascii_hexdigit byte then Some (hex_value byte) else None) }
{
    match byte {
        b'0'..=b'9' => Some(byte - b'0'),
        b'A'..=b'F' => Some(byte - b'A' + 10),
        b'a'..=b'f' => Some(byte - b'a' + 10),
        _ => None,
    }
}

/// The byte that two digits write; none where one of them is no digit.
fn pair_byte(high: u8, low: u8) -> Option<u8>
    ensures { result ≡ pair_byte high low }
{
    Some(16 * digit_number(high)? + digit_number(low)?)
}

/// Appends the bytes, `size` of them, that the digits of a word write; false where they write none.
pub fn read_hex(size: usize, word: &[u8], bytes: &mut Vec<u8>) -> Result<bool, AllocError>
    requires { size < 2 ^ 32 }
    ensures { IfOk result (λ is_read. IsRead (digits_in size word.now) bytes.old.items bytes.new.items is_read) }
{
    if word.len() != 2 * size {
        return Ok(false);
    }
    let mut rest = word;
    while let [high, low, more @ ..] = rest {
        let Some(byte) = pair_byte(*high, *low) else {
            return Ok(false);
        };
        bytes.push(byte)?;
        rest = more;
    }
    Ok(true)
}
