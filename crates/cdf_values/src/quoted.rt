//! Texts between quotes.

ghost use Rattle.std.specs.Prelude.{◌≡◌, ◌++◌, OnOk, IfOk};
ghost use Rattle.cdf_model.specs.Values.{quoted, quoted_byte};

use crate::hex::hex_digit;
use std::alloc::{AllocError, Global};

/// The bytes between quotes, each as a letter where it is a visible one or a blank, else by an escape.
pub fn quoted_text(alloc: Global, bytes: &[u8]) -> Result<Vec<u8>, AllocError>
    ensures { IfOk result (λ text. text.items ≡ quoted bytes.now) }
{
    let mut text = Vec::new(alloc);
    append_quoted(bytes, &mut text)?;
    Ok(text)
}

/// Appends the bytes between quotes.
pub fn append_quoted(bytes: &[u8], text: &mut Vec<u8>) -> Result<(), AllocError>
    ensures { OnOk result (text.new.items ≡ text.old.items ++ quoted bytes.now) }
{
    text.push(b'"')?;
    for byte in bytes {
        append_quoted_byte(*byte, text)?;
    }
    text.push(b'"')?;
    Ok(())
}

fn append_quoted_byte(byte: u8, text: &mut Vec<u8>) -> Result<(), AllocError>
    ensures { OnOk result (text.new.items ≡ text.old.items ++ quoted_byte byte) }
{
    match byte {
        b'"' | b'\\' => text.extend_from_slice(&[b'\\', byte]),
        b' '..=b'~' => Ok(text.push(byte)?),
        _ => text.extend_from_slice(&[b'\\', b'x', hex_digit(byte / 16), hex_digit(byte % 16)]),
    }
}
