//! The text of the head of a data set.

ghost use Rattle.std.specs.Prelude.{◌≡◌, ◌++◌, OnOk, string_bytes};
ghost use Rattle.cdf_model.specs.Texts.{list_text, head_text, version_text, form_text, counts_text, majority_text, checksum_text};

use cdf_model::{Head, Majority};
use std::alloc::AllocError;

/// Appends the sizes of dimensions: `-` for none, else numbers joined by commas.
pub fn append_list(text: &mut String, numbers: &[u32]) -> Result<(), AllocError>
    ensures { OnOk result (string_bytes text.new ≡ string_bytes text.old ++ list_text numbers.now) }
{
    match numbers {
        [] => text.push_str("-"),
        [first, rest @ ..] => {
            write!(text, "{first}")?;
            for number in rest {
                write!(text, ",{number}")?;
            }
            Ok(())
        }
    }
}

fn majority_name(majority: Majority) -> &'static str
    ensures { result.now ≡ majority_text majority }
{
    match majority {
        Majority::Row => "row",
        Majority::Column => "column",
    }
}

fn checksum_name(md5: bool) -> &'static str
    ensures { result.now ≡ checksum_text md5 }
{
    if md5 { "md5" } else { "none" }
}

fn append_version(text: &mut String, head: &Head) -> Result<(), AllocError>
    ensures { OnOk result (string_bytes text.new ≡ string_bytes text.old ++ version_text head.now) }
{
    let version = head.version;
    let release = head.release;
    let increment = head.increment;
    write!(text, "version {version}.{release}.{increment}")
}

fn append_form(text: &mut String, head: &Head) -> Result<(), AllocError>
    ensures { OnOk result (string_bytes text.new ≡ string_bytes text.old ++ form_text head.now) }
{
    let encoding = head.encoding;
    let majority = majority_name(head.majority);
    let checksum = checksum_name(head.md5);
    write!(
        text,
        " encoding {encoding} majority {majority} checksum {checksum}"
    )
}

fn append_counts(text: &mut String, head: &Head) -> Result<(), AllocError>
    ensures { OnOk result (string_bytes text.new ≡ string_bytes text.old ++ counts_text head.now) }
{
    let attrs = head.attrs;
    let rvars = head.rvars;
    let zvars = head.zvars;
    text.push_str(" rdims ")?;
    append_list(text, head.rdims.as_slice())?;
    write!(text, " attributes {attrs} rvars {rvars} zvars {zvars}")
}

/// Appends the head of a data set, on one line.
pub fn append_head(text: &mut String, head: &Head) -> Result<(), AllocError>
    ensures { OnOk result (string_bytes text.new ≡ string_bytes text.old ++ head_text head.now) }
{
    append_version(text, head)?;
    append_form(text, head)?;
    append_counts(text, head)
}
