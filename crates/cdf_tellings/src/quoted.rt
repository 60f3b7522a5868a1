//! Names and words between quotes, as replies show them.

use std::fmt;

/// A text between quotes, in one line: each of its bytes as a letter where it is a visible one or a blank, else by an escape.
#[derive(Clone, Copy, Debug)]
pub struct Quoted<'a>(pub &'a str);

/// The digit of a number below 16.
fn digit_of(number: u8) -> char {
    match number {
        0..=9 => (b'0' + number) as char,
        10..=15 => (b'a' + number - 10) as char,
        _ => '?',
    }
}

/// Writes a byte as a reply shows it.
fn write_byte<W: fmt::Write>(byte: u8, f: &mut fmt::Formatter<W>) -> fmt::Result {
    match byte {
        b'"' => f.write_str("\\\""),
        b'\\' => f.write_str("\\\\"),
        b' '..=b'~' => f.write_char(byte as char),
        _ => {
            f.write_str("\\x")?;
            f.write_char(digit_of(byte / 16))?;
            f.write_char(digit_of(byte % 16))
        }
    }
}

impl fmt::Display for Quoted<'_> {
    fn fmt<W: fmt::Write>(&self, f: &mut fmt::Formatter<W>) -> fmt::Result {
        f.write_str("\"")?;
        for byte in self.0.as_bytes() {
            write_byte(*byte, f)?;
        }
        f.write_str("\"")
    }
}
