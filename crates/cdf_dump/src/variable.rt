//! The parts of the line of a variable.

ghost use Rattle.std.specs.Prelude.{◌≡◌, if◌then◌else◌, IfOk, OnOk, codes};
ghost use Rattle.std.specs.Fmt.{decimal, signed_decimal};
ghost use Rattle.cdf_model.specs.EventTexts.{compress_text, pad_text, sparse_text, vary_text, varys_text};
ghost use Rattle.cdf_model.specs.Texts.{◌⧺◌, kind_text, list_text};
ghost use Rattle.cdf_model.specs.Types.{name_of};
ghost use Rattle.cdf_model.specs.Values.{quoted};
ghost use Rattle.cdf_model.specs.Whole.{IsWholePad};

use cdf_model::{DataType, Kind, Sparse};
use cdf_reply::{append_list, kind_name};
use cdf_values::{append_decimal, append_quoted, append_values};
use std::alloc::{AllocError, Global};

fn vary_name(vary: bool) -> &'static str
    ensures { result.now ≡ vary_text vary }
{
    if vary { "vary" } else { "novary" }
}

fn sparse_name(sparse: Sparse) -> &'static str
    ensures { result.now ≡ sparse_text sparse }
{
    match sparse {
        Sparse::NoRule => "none",
        Sparse::Pad => "pad",
        Sparse::Previous => "previous",
    }
}

fn compress_name(rle: bool) -> &'static str
    ensures { result.now ≡ compress_text rle }
{
    if rle { "rle" } else { "none" }
}

fn vary_letter(vary: bool) -> u8
    ensures { result ≡ (if vary then 84 else 70) }
{
    if vary { b'T' } else { b'F' }
}

/// Appends words, and a number behind them.
pub fn append_number(words: &str, number: u64, text: &mut Vec<u8>) -> Result<(), AllocError>
    ensures { OnOk result (text.new.items ≡ text.old.items ⧺ words.now ⧺ codes " " ⧺ decimal number) }
{
    text.extend_from_slice(words.as_bytes())?;
    text.push(b' ')?;
    append_decimal(number, text)
}

/// Appends a type and the number of elements of a value, each behind a blank.
pub fn append_type(t: DataType, elems: u32, text: &mut Vec<u8>) -> Result<(), AllocError>
    ensures { OnOk result (text.new.items ≡ text.old.items ⧺ codes " " ⧺ name_of t ⧺ codes " " ⧺ decimal elems) }
{
    text.push(b' ')?;
    append_number(t.name(), u64::from(elems), text)
}

/// A letter for each dimension, and `-` for none.
fn vary_letters(alloc: Global, varys: &[bool]) -> Result<Vec<u8>, AllocError>
    ensures { IfOk result (λ letters. letters.items ≡ varys_text varys.now) }
{
    if varys.is_empty() {
        return b"-".to_vec(alloc);
    }
    varys.iter().map(|vary| vary_letter(*vary)).collect(alloc)
}

/// Appends which variable it is, and its type.
pub fn append_start(
    kind: Kind,
    num: u32,
    name: &[u8],
    t: DataType,
    elems: u32,
    text: &mut Vec<u8>,
) -> Result<(), AllocError>
    ensures { OnOk result (text.new.items ≡ text.old.items ⧺ kind_text kind ⧺ codes " " ⧺ decimal num ⧺ codes " " ⧺ quoted name.now ⧺ codes " " ⧺ name_of t ⧺ codes " " ⧺ decimal elems) }
{
    append_number(kind_name(kind), u64::from(num), text)?;
    text.push(b' ')?;
    append_quoted(name, text)?;
    append_type(t, elems, text)
}

/// Appends how its records vary, and its dimensions.
pub fn append_dims(
    alloc: Global,
    vary: bool,
    dims: &[u32],
    varys: &[bool],
    text: &mut Vec<u8>,
) -> Result<(), AllocError>
    ensures { OnOk result (text.new.items ≡ text.old.items ⧺ codes " " ⧺ vary_text vary ⧺ codes " " ⧺ list_text dims.now ⧺ codes " " ⧺ varys_text varys.now) }
{
    let vary = vary_name(vary);
    let mut sizes = format!(in alloc; " {vary} ")?;
    append_list(&mut sizes, dims)?;
    text.extend_from_slice(sizes.as_bytes())?;
    text.push(b' ')?;
    text.extend_from_slice(&vary_letters(alloc, varys)?)
}

/// Appends the rules by which its records are stored.
pub fn append_rules(
    alloc: Global,
    sparse: Sparse,
    rle: bool,
    blocking: i32,
    max_rec: i32,
    text: &mut Vec<u8>,
) -> Result<(), AllocError>
    ensures { OnOk result (text.new.items ≡ text.old.items ⧺ codes " sparse " ⧺ sparse_text sparse ⧺ codes " compress " ⧺ compress_text rle ⧺ codes " blocking " ⧺ signed_decimal blocking ⧺ codes " maxrec " ⧺ signed_decimal max_rec ⧺ codes " pad ") }
{
    let sparse = sparse_name(sparse);
    let rle = compress_name(rle);
    let rules = format!(in alloc;
        " sparse {sparse} compress {rle} blocking {blocking} maxrec {max_rec} pad "
    )?;
    text.extend_from_slice(rules.as_bytes())
}

/// Appends the pad value, and `-` for none.
pub fn append_pad(
    has_pad: bool,
    t: DataType,
    elems: u32,
    pad: &[u8],
    text: &mut Vec<u8>,
) -> Result<(), AllocError>
    requires { IsWholePad has_pad t elems pad.now }
    ensures { OnOk result (text.new.items ≡ text.old.items ⧺ pad_text has_pad t elems pad.now) }
{
    if has_pad {
        append_values(t, elems, pad, text)
    } else {
        text.extend_from_slice("-".as_bytes())
    }
}
