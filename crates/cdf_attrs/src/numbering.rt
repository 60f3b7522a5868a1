//! Numbers that are written in records, one after the other.

ghost use Rattle.std.specs.Prelude.{◌≡◌, map, OnOk};
ghost use Rattle.cdf_area.specs.Calls.{Edits};
ghost use Rattle.cdf_attrs.specs.Numbering.{AllLie, write_of};
ghost use Rattle.cdf_edits.specs.Edits.Writes.{with_writes};

use cdf_area::{Area, AreaError};
use cdf_records::set_unsigned4;

/// A number as one record says it: where the record stands, where in it the field, and the number.
#[derive(Clone, Copy)]
pub struct Numbered {
    pub at: u64,
    pub field: u64,
    pub number: u32,
}

/// Writes numbers in records. After an error a part of them may have been written.
pub(crate) fn set_numbers<A: Area>(area: &mut A, numbers: &[Numbered]) -> Result<(), AreaError>
    requires { AllLie (A.image area.old) (map write_of numbers.now) }
    ensures written { OnOk result (A.image area.new ≡ with_writes (A.image area.old) (map write_of numbers.now)) }
    ensures area { Edits A.frame A.faults area.old area.new result }
{
    for numbered in numbers {
        set_unsigned4(area, numbered.at, numbered.field, numbered.number)?;
    }
    Ok(())
}
