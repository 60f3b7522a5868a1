//! Values from words.

ghost use Rattle.std.specs.Prelude.{◌≡◌, ◌≤◌, IfOk, IfErr};
ghost use Rattle.std.specs.Int.{bytes_high_first};
ghost use Rattle.std.specs.Option.{option_map};
ghost use Rattle.cdf_model.specs.Values.{bytes_by, characters_in, values_in};
ghost use Rattle.cdf_values.specs.Notations.{HasSize, meant};
ghost use Rattle.cdf_values.specs.Reading.{Explains, IsRead};

use crate::hex::read_hex;
use crate::notation::{Notation, notation_of, text_size};
use crate::number::{append_bytes, read_signed, read_unsigned};
use cdf_model::{DataType, Words};
use std::alloc::{AllocError, Global};

/// Why words are no values.
#[derive(Clone, Copy, Debug, PartialEq, Eq)]
pub enum ValueError {
    /// There are so many words where another number is wanted.
    WrongCount { found: u64, wanted: u64 },
    /// The word of this number, from 0, is the first that breaks the notation of the type.
    BadValue { at: u64 },
    NoMemory,
}

impl From<AllocError> for ValueError {
    ghost use Rattle.cdf_values.specs.declared.read.ValueError.TheVariants.{NoMemory};

    ghost from_gives = { λ e r. r ≡ NoMemory };

    fn from(_error: AllocError) -> ValueError {
        ValueError::NoMemory
    }
}

/// The values that words write, in network order. An element of a number has a word of its own; the letters of a value of
/// CHAR or UCHAR have one word together.
pub fn read_values(
    alloc: Global,
    t: DataType,
    elems: u32,
    wanted: u64,
    words: &Words,
) -> Result<Vec<u8>, ValueError>
    ensures ok { IfOk result (λ bytes. values_in t elems wanted words.now ≡ Ok bytes.items) }
    ensures err { IfErr result (λ e. Explains (values_in t elems wanted words.now) e) }
{
    let found = words.len() as u64;
    if found != wanted {
        return Err(ValueError::WrongCount { found, wanted });
    }
    let notation = notation_of(t);
    let size = text_size(t, elems);
    let room = words.len().saturating_mul(t.size() as usize);
    let mut bytes = Vec::with_capacity(alloc, room)?;
    let mut rest = words.iter();
    let mut at = 0;
    while let Some(word) = rest.next_word() {
        let is_read = read_word(notation, size, word, &mut bytes)?;
        if !is_read {
            return Err(ValueError::BadValue { at });
        }
        at += 1;
    }
    Ok(bytes)
}

/// Appends the bytes, `size` of them, that a word writes; false where it breaks the notation.
fn read_word(
    notation: Notation,
    size: usize,
    word: &[u8],
    bytes: &mut Vec<u8>,
) -> Result<bool, AllocError>
    requires { HasSize (meant notation) size }
    ensures { IfOk result (λ is_read. IsRead (bytes_by (meant notation) size word.now) bytes.old.items bytes.new.items is_read) }
{
    match notation {
        Notation::Signed => append_number(read_signed(size, word), size, bytes),
        Notation::Unsigned => append_number(read_unsigned(size, word), size, bytes),
        Notation::Hexadecimal => read_hex(size, word, bytes),
        Notation::Characters => append_characters(size, word, bytes),
    }
}

/// Appends the lowest bytes of a number, `size` of them; false where there is no number.
fn append_number(number: Option<u64>, size: usize, bytes: &mut Vec<u8>) -> Result<bool, AllocError>
    requires { size ≤ 8 }
    ensures { IfOk result (λ is_read. IsRead (option_map (λ n. bytes_high_first size n) number) bytes.old.items bytes.new.items is_read) }
{
    let Some(number) = number else {
        return Ok(false);
    };
    append_bytes(number, size, bytes)?;
    Ok(true)
}

/// Appends a word of `size` letters; false where it has another number of bytes.
fn append_characters(size: usize, word: &[u8], bytes: &mut Vec<u8>) -> Result<bool, AllocError>
    ensures { IfOk result (λ is_read. IsRead (characters_in size word.now) bytes.old.items bytes.new.items is_read) }
{
    if word.len() != size {
        return Ok(false);
    }
    bytes.extend_from_slice(word)?;
    Ok(true)
}
