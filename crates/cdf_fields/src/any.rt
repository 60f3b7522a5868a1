//! Fields that each record has, written.

ghost use Rattle.std.specs.Prelude.{◌≡◌, OnOk};
ghost use Rattle.std.specs.Int.{w32, cast_unsigned};
ghost use Rattle.cdf_area.specs.Calls.{Overwrites};
ghost use Rattle.cdf_format.specs.Fields.{LiesIn, with_field};
ghost use Rattle.cdf_format.specs.Records.{record_size, record_type};

use crate::width::{set_signed4, set_unsigned8};
use cdf_area::{Area, AreaError};
use cdf_format::fields::{RECORD_SIZE, RECORD_TYPE};

/// RecordSize: the bytes of the record.
pub fn set_record_size<A: Area>(area: &mut A, at: u64, to: u64) -> Result<(), AreaError>
    requires { LiesIn (A.image area.old) at record_size }
    ensures ok { OnOk result (A.image area.new ≡ with_field (A.image area.old) at record_size to) }
    ensures area { Overwrites A.image A.frame A.faults area.old area.new result }
{
    set_unsigned8(area, at, RECORD_SIZE, to)
}

/// RecordType; -1 marks an unused record.
pub fn set_record_type<A: Area>(area: &mut A, at: u64, to: i32) -> Result<(), AreaError>
    requires { LiesIn (A.image area.old) at record_type }
    ensures ok { OnOk result (A.image area.new ≡ with_field (A.image area.old) at record_type (cast_unsigned w32 to)) }
    ensures area { Overwrites A.image A.frame A.faults area.old area.new result }
{
    set_signed4(area, at, RECORD_TYPE, to)
}
