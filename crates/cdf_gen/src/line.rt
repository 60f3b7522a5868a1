//! The lines of a generated script.

ghost use Rattle.std.specs.Prelude.{◌≡◌, OnOk, codes};
ghost use Rattle.std.specs.Fmt.{decimal};
ghost use Rattle.std.specs.List.{repeat};
ghost use Rattle.cdf_model.specs.Texts.{◌⧺◌};
ghost use Rattle.cdf_gen.specs.Generated.{command_of, hexadecimal, kind_of, line_of, put_entry, put_in_a, put_in_b, put_in_c, record_of, variable_of};

use cdf_model::DataType;
use cdf_values::{append_decimal, append_values};
use std::alloc::AllocError;

/// Appends a word of decimal digits so many times, each behind a blank.
fn append_decimals(number: u64, count: usize, text: &mut Vec<u8>) -> Result<(), AllocError>
    ensures { OnOk result (text.new.items ≡ text.old.items ⧺ repeat count (codes " " ⧺ decimal number)) }
{
    for _ in 0..count {
        text.push(b' ')?;
        append_decimal(number, text)?;
    }
    Ok(())
}

/// Appends 16 hexadecimal digits, as a value of REAL8 has them.
#[tactic(auto, unfolding(crate::specs::Generated::hexadecimal))]
fn append_hexadecimal(number: u64, text: &mut Vec<u8>) -> Result<(), AllocError>
    ensures { OnOk result (text.new.items ≡ text.old.items ⧺ hexadecimal number) }
{
    append_values(DataType::Real8, 1, &number.to_be_bytes(), text)
}

/// Appends a word of hexadecimal digits so many times, each behind a blank.
fn append_hexadecimals(number: u64, count: usize, text: &mut Vec<u8>) -> Result<(), AllocError>
    ensures { OnOk result (text.new.items ≡ text.old.items ⧺ repeat count (codes " " ⧺ hexadecimal number)) }
{
    for _ in 0..count {
        text.push(b' ')?;
        append_hexadecimal(number, text)?;
    }
    Ok(())
}

/// Appends words, and a number behind them.
fn append_numbered(words: &str, number: u64, text: &mut Vec<u8>) -> Result<(), AllocError>
    ensures { OnOk result (text.new.items ≡ text.old.items ⧺ words.now ⧺ decimal number) }
{
    text.extend_from_slice(words.as_bytes())?;
    append_decimal(number, text)
}

#[tactic(auto, unfolding(crate::specs::Generated::put_in_a))]
fn append_put_in_a(x: u64, text: &mut Vec<u8>) -> Result<(), AllocError>
    ensures { OnOk result (text.new.items ≡ text.old.items ⧺ put_in_a x) }
{
    append_numbered("put-rec A ", record_of(x), text)?;
    text.push(b' ')?;
    append_decimal((x >> 16) % 100_000, text)
}

#[tactic(auto, unfolding(crate::specs::Generated::put_in_b))]
fn append_put_in_b(x: u64, text: &mut Vec<u8>) -> Result<(), AllocError>
    ensures { OnOk result (text.new.items ≡ text.old.items ⧺ put_in_b x) }
{
    append_numbered("put-rec B ", record_of(x), text)?;
    append_hexadecimals(x, 3, text)
}

#[tactic(auto, unfolding(crate::specs::Generated::put_in_c))]
fn append_put_in_c(x: u64, text: &mut Vec<u8>) -> Result<(), AllocError>
    ensures { OnOk result (text.new.items ≡ text.old.items ⧺ put_in_c x) }
{
    append_numbered("put-rec C ", record_of(x), text)?;
    append_decimals((x >> 8) % 4, 16, text)
}

#[tactic(auto, unfolding(crate::specs::Generated::put_entry))]
fn append_put_entry(x: u64, text: &mut Vec<u8>) -> Result<(), AllocError>
    ensures { OnOk result (text.new.items ≡ text.old.items ⧺ put_entry x) }
{
    append_numbered("put-entry VAR_TYPE z ", variable_of(x), text)?;
    text.extend_from_slice(b" CHAR \"data\"")?;
    Ok(())
}

/// The number of the record that the command of a number puts.
fn record_of(x: u64) -> u64
    ensures { result ≡ record_of x }
{
    (x >> 40) % 1000
}

/// The number of the variable that the entry is for.
fn variable_of(x: u64) -> u64
    ensures { result ≡ variable_of x }
{
    record_of(x) % 3
}

/// Which of four commands stands in the line of a number.
fn kind_of(x: u64) -> u64
    ensures { result ≡ kind_of x }
{
    (x >> 33) % 4
}

#[tactic(auto, unfolding(crate::specs::Generated::command_of))]
fn append_command(x: u64, text: &mut Vec<u8>) -> Result<(), AllocError>
    ensures { OnOk result (text.new.items ≡ text.old.items ⧺ command_of x) }
{
    match kind_of(x) {
        0 => append_put_in_a(x, text),
        1 => append_put_in_b(x, text),
        2 => append_put_in_c(x, text),
        _ => append_put_entry(x, text),
    }
}

/// Appends the line of a number, with its newline.
pub fn append_line(x: u64, text: &mut Vec<u8>) -> Result<(), AllocError>
    ensures { OnOk result (text.new.items ≡ text.old.items ⧺ line_of x) }
{
    append_command(x, text)?;
    text.push(b'\n')?;
    Ok(())
}
