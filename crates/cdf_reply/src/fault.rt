//! The text of the fault of a line.

ghost use Rattle.std.specs.Prelude.{◌≡◌, ◌++◌, OnOk, string_bytes};
ghost use Rattle.cdf_model.specs.Texts.{fault_text};

use cdf_model::LineError;
use std::alloc::AllocError;

/// Appends the name of a fault and the place where it stands in its line.
pub fn append_fault(text: &mut String, fault: LineError) -> Result<(), AllocError>
    ensures { OnOk result (string_bytes text.new ≡ string_bytes text.old ++ fault_text fault) }
{
    match fault {
        LineError::TooLong { at } => write!(text, "TooLong {at}"),
        LineError::BadQuote { at } => write!(text, "BadQuote {at}"),
        LineError::BadHex { at } => write!(text, "BadHex {at}"),
        LineError::UnknownWord { at } => write!(text, "UnknownWord {at}"),
        LineError::MissingWord { at } => write!(text, "MissingWord {at}"),
        LineError::ExtraWord { at } => write!(text, "ExtraWord {at}"),
        LineError::BadNumber { at } => write!(text, "BadNumber {at}"),
    }
}
