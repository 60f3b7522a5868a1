//! The text of a reason.

ghost use Rattle.std.specs.Prelude.{◌≡◌, ◌++◌, OnOk, string_bytes};
ghost use Rattle.cdf_model.specs.Texts.{reason_text};

use crate::fault::append_fault;
use cdf_model::Reason;
use std::alloc::AllocError;

/// Appends a reason by its number and its name.
pub fn append_reason(text: &mut String, reason: Reason) -> Result<(), AllocError>
    ensures { OnOk result (string_bytes text.new ≡ string_bytes text.old ++ reason_text reason) }
{
    match reason {
        Reason::BadLine { fault } => {
            text.push_str("1 BadLine ")?;
            append_fault(text, fault)
        }
        Reason::NoSuchAttr => text.push_str("2 NoSuchAttr"),
        Reason::NoSuchVar => text.push_str("3 NoSuchVar"),
        Reason::NoSuchTap => text.push_str("4 NoSuchTap"),
        Reason::BadName => text.push_str("5 BadName"),
        Reason::NameTaken => text.push_str("6 NameTaken"),
        Reason::WrongScope => text.push_str("7 WrongScope"),
        Reason::NoSuchEntry => text.push_str("8 NoSuchEntry"),
        Reason::NumberOutOfRange => text.push_str("9 NumberOutOfRange"),
        Reason::BadShape => text.push_str("10 BadShape"),
        Reason::WrongCount { found, wanted } => write!(text, "11 WrongCount {found} {wanted}"),
        Reason::BadValue { at } => write!(text, "12 BadValue {at}"),
        Reason::IndexOutOfRange => text.push_str("13 IndexOutOfRange"),
        Reason::RecordOutOfRange => text.push_str("14 RecordOutOfRange"),
        Reason::InUse => text.push_str("15 InUse"),
        Reason::TooLarge => text.push_str("16 TooLarge"),
    }
}
