//! Fields of a Compressed Variable Values Record, written.

ghost use Rattle.std.specs.Prelude.{◌≡◌, OnOk};
ghost use Rattle.std.specs.Int.{w64, cast_unsigned};
ghost use Rattle.cdf_area.specs.Calls.{Overwrites};
ghost use Rattle.cdf_format.specs.Fields.{LiesIn, with_field};
ghost use Rattle.cdf_format.specs.Records.{cvvr_c_size};

use crate::width::set_signed8;
use cdf_area::{Area, AreaError};
use cdf_format::fields::CVVR_C_SIZE;

/// cSize: the number of packed bytes.
pub fn set_cvvr_c_size<A: Area>(area: &mut A, at: u64, to: i64) -> Result<(), AreaError>
    requires { LiesIn (A.image area.old) at cvvr_c_size }
    ensures ok { OnOk result (A.image area.new ≡ with_field (A.image area.old) at cvvr_c_size (cast_unsigned w64 to)) }
    ensures area { Overwrites A.image A.frame A.faults area.old area.new result }
{
    set_signed8(area, at, CVVR_C_SIZE, to)
}
