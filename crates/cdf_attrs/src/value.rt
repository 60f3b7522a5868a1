//! The value of an entry, from the words of a command.

ghost use Rattle.std.specs.Prelude.{◌≡◌, ◌≤◌, false, true, length, IfOk, IfErr};
ghost use Rattle.cdf_attrs.specs.Valued.{IsWritten, SaysWhy, entry_of_words, is_text};
ghost use Rattle.cdf_model.specs.Sayable.{Fit};

use crate::entry_bytes::StoredValue;
use cdf_model::{DataType, Encoding, Words};
use cdf_values::{ValueError, from_network, read_values};
use std::alloc::Global;

/// Whether the elements of a type are the letters of a text.
fn is_text(t: DataType) -> bool
    ensures { result ≡ is_text t }
{
    match t {
        DataType::Char | DataType::UChar => true,
        _ => false,
    }
}

/// The text of one word, each byte an element.
fn read_text(alloc: Global, t: DataType, words: &Words) -> Result<StoredValue, ValueError>
    requires text { is_text t ≡ true }
    requires fit { Fit words.now }
    ensures t { IfOk result (λ value. value.t ≡ t) }
    ensures ok { IfOk result (λ value. IsWritten false t words.now value.elems value.bytes.items) }
    ensures err { IfErr result (λ e. SaysWhy (entry_of_words t words.now) e) }
{
    let found = words.len() as u64;
    let mut rest = words.iter();
    let word = match rest.next_word() {
        Some(word) if found == 1 => word,
        _ => return Err(ValueError::WrongCount { found, wanted: 1 }),
    };
    if word.is_empty() {
        return Err(ValueError::BadValue { at: 0 });
    }
    let mut bytes = Vec::new(alloc);
    bytes.extend_from_slice(word)?;
    Ok(StoredValue {
        t,
        elems: word.len() as u32,
        bytes,
    })
}

/// The numbers of the words in network order, each word an element.
fn read_numbers(alloc: Global, t: DataType, words: &Words) -> Result<StoredValue, ValueError>
    requires number { is_text t ≡ false }
    requires some { 1 ≤ length words.now }
    requires fit { Fit words.now }
    ensures t { IfOk result (λ value. value.t ≡ t) }
    ensures ok { IfOk result (λ value. IsWritten false t words.now value.elems value.bytes.items) }
    ensures err { IfErr result (λ e. SaysWhy (entry_of_words t words.now) e) }
{
    let count = words.len();
    let bytes = read_values(alloc, t, 1, count as u64, words)?;
    Ok(StoredValue {
        t,
        elems: count as u32,
        bytes,
    })
}

/// The value of a type that words write, in network order.
fn read_elements(alloc: Global, t: DataType, words: &Words) -> Result<StoredValue, ValueError>
    requires some { 1 ≤ length words.now }
    requires fit { Fit words.now }
    ensures t { IfOk result (λ value. value.t ≡ t) }
    ensures ok { IfOk result (λ value. IsWritten false t words.now value.elems value.bytes.items) }
    ensures err { IfErr result (λ e. SaysWhy (entry_of_words t words.now) e) }
{
    if is_text(t) {
        read_text(alloc, t, words)
    } else {
        read_numbers(alloc, t, words)
    }
}

/// The value of a type that words write, in the byte order of an encoding. The words of a text are one, and those of numbers fit on a line.
pub fn read_value(
    alloc: Global,
    t: DataType,
    encoding: Encoding,
    words: &Words,
) -> Result<StoredValue, ValueError>
    requires some { 1 ≤ length words.now }
    requires fit { Fit words.now }
    ensures t { IfOk result (λ value. value.t ≡ t) }
    ensures ok { IfOk result (λ value. IsWritten encoding.little t words.now value.elems value.bytes.items) }
    ensures err { IfErr result (λ e. SaysWhy (entry_of_words t words.now) e) }
{
    let mut value = read_elements(alloc, t, words)?;
    from_network(t, encoding, &mut value.bytes);
    Ok(value)
}
