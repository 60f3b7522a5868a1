//! The texts of values.

ghost use Rattle.std.specs.Prelude.{◌≡◌, ◌*◌, ◌%◌, ◌≤◌, ◌++◌, length, OnOk, IfOk};
ghost use Rattle.cdf_model.specs.Types.{size_of};
ghost use Rattle.cdf_model.specs.Values.{text_by, values_text};
ghost use Rattle.cdf_values.specs.Notations.{HasSize, meant};

use crate::hex::append_hex;
use crate::notation::{Notation, notation_of, text_size};
use crate::number::{append_signed, append_unsigned};
use crate::quoted::append_quoted;
use cdf_model::DataType;
use std::alloc::{AllocError, Global};

/// The texts of values of `elems` elements each, in network order, with a blank between two.
pub fn write_values(
    alloc: Global,
    t: DataType,
    elems: u32,
    bytes: &[u8],
) -> Result<Vec<u8>, AllocError>
    requires some { 1 ≤ elems }
    requires whole { length bytes.now % (size_of t * elems) ≡ 0 }
    ensures { IfOk result (λ text. text.items ≡ values_text t elems bytes.now) }
{
    let mut text = Vec::new(alloc);
    append_values(t, elems, bytes, &mut text)?;
    Ok(text)
}

/// Appends the texts of values of `elems` elements each, in network order, with a blank between two.
pub fn append_values(
    t: DataType,
    elems: u32,
    bytes: &[u8],
    text: &mut Vec<u8>,
) -> Result<(), AllocError>
    requires some { 1 ≤ elems }
    requires whole { length bytes.now % (size_of t * elems) ≡ 0 }
    ensures { OnOk result (text.new.items ≡ text.old.items ++ values_text t elems bytes.now) }
{
    if bytes.is_empty() {
        return Ok(());
    }
    let notation = notation_of(t);
    let size = text_size(t, elems);
    let (first, mut rest) = bytes.split_at(size);
    append_text(notation, first, text)?;
    while !rest.is_empty() {
        let (value, more) = rest.split_at(size);
        text.push(b' ')?;
        append_text(notation, value, text)?;
        rest = more;
    }
    Ok(())
}

/// Appends the text of an element, or of a value of letters.
fn append_text(notation: Notation, bytes: &[u8], text: &mut Vec<u8>) -> Result<(), AllocError>
    requires { HasSize (meant notation) (length bytes.now) }
    ensures { OnOk result (text.new.items ≡ text.old.items ++ text_by (meant notation) bytes.now) }
{
    match notation {
        Notation::Signed => append_signed(bytes, text),
        Notation::Unsigned => append_unsigned(bytes, text),
        Notation::Hexadecimal => append_hex(bytes, text),
        Notation::Characters => append_quoted(bytes, text),
    }
}
