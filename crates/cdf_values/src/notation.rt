//! How the elements of a type are written.

ghost use Rattle.std.specs.Prelude.{◌≡◌};
ghost use Rattle.cdf_model.specs.Values.{notation_of, text_size};
ghost use Rattle.cdf_values.specs.Notations.{HasSize, meant};

use cdf_model::DataType;

/// As a decimal number with or without a sign, as hexadecimal digits, or as characters.
#[derive(Clone, Copy)]
pub enum Notation {
    Signed,
    Unsigned,
    Hexadecimal,
    Characters,
}

/// How the elements of a type are written.
pub fn notation_of(t: DataType) -> Notation
    ensures { meant result ≡ notation_of t }
{
    match t {
        DataType::Int1 | DataType::Int2 | DataType::Int4 => Notation::Signed,
        DataType::Int8 | DataType::TimeTt2000 | DataType::Byte => Notation::Signed,
        DataType::UInt1 | DataType::UInt2 | DataType::UInt4 => Notation::Unsigned,
        DataType::Real4 | DataType::Real8 | DataType::Epoch => Notation::Hexadecimal,
        DataType::Epoch16 | DataType::Float | DataType::Double => Notation::Hexadecimal,
        DataType::Char | DataType::UChar => Notation::Characters,
    }
}

/// How many bytes have a text of their own: those of an element, or of a whole value of characters.
pub fn text_size(t: DataType, elems: u32) -> usize
    ensures value { result ≡ text_size t elems }
    ensures fits { HasSize (notation_of t) result }
{
    match t {
        DataType::Char | DataType::UChar => elems as usize,
        _ => t.size() as usize,
    }
}
