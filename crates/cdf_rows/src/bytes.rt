//! Bytes that are written as text.

use anyhow::{Context, Result, bail};
use std::alloc::Global;

/// The value of a hexadecimal digit.
fn digit_of(digit: u8) -> Option<u8> {
    match digit {
        b'0'..=b'9' => Some(digit - b'0'),
        b'a'..=b'f' => Some(digit - b'a' + 10),
        _ => None,
    }
}

/// Appends the bytes of a word of hexadecimal digits.
fn push_word(bytes: &mut Vec<u8>, word: &[u8]) -> Result<()> {
    for pair in word.chunks(2) {
        let [high, low] = pair else {
            bail!("half a byte");
        };
        let (Some(high), Some(low)) = (digit_of(*high), digit_of(*low)) else {
            bail!("no hexadecimal digit");
        };
        bytes.push(high.wrapping_mul(16).wrapping_add(low))?;
    }
    Ok(())
}

/// The bytes of words of hexadecimal digits.
pub fn bytes_in(alloc: Global, text: &str) -> Result<Vec<u8>> {
    let mut bytes = Vec::new(alloc);
    for word in text.split_whitespace() {
        push_word(&mut bytes, word.as_bytes()).context(format_args!("in the bytes {word}"))?;
    }
    Ok(bytes)
}

/// A number.
pub fn number_in(text: &str) -> Result<usize> {
    text.trim()
        .parse::<usize>()
        .context(format_args!("reading the number {text}"))
}
