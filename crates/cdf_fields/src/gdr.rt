//! Fields of the Global Descriptor Record, written.

ghost use Rattle.std.specs.Prelude.{◌≡◌, ◌+◌, OnOk};
ghost use Rattle.std.specs.Int.{w32, cast_unsigned};
ghost use Rattle.cdf_area.specs.Calls.{Overwrites};
ghost use Rattle.cdf_format.specs.Fields.{LiesIn, with_field};
ghost use Rattle.cdf_format.specs.Records.{gdr_eof, gdr_r_max_rec, gdr_r_num_dims};

use crate::width::{set_signed4, set_unsigned8};
use cdf_area::{Area, AreaError};
use cdf_format::fields::{GDR_EOF, GDR_R_MAX_REC, GDR_R_NUM_DIMS};

/// eof: the place after the last record.
pub fn set_gdr_eof<A: Area>(area: &mut A, at: u64, to: u64) -> Result<(), AreaError>
    requires { LiesIn (A.image area.old) at gdr_eof }
    ensures ok { OnOk result (A.image area.new ≡ with_field (A.image area.old) at gdr_eof to) }
    ensures area { Overwrites A.image A.frame A.faults area.old area.new result }
{
    set_unsigned8(area, at, GDR_EOF, to)
}

/// rMaxRec: the greatest record number of the r variables, -1 for none.
pub fn set_gdr_r_max_rec<A: Area>(area: &mut A, at: u64, to: i32) -> Result<(), AreaError>
    requires { LiesIn (A.image area.old) at gdr_r_max_rec }
    ensures ok { OnOk result (A.image area.new ≡ with_field (A.image area.old) at gdr_r_max_rec (cast_unsigned w32 to)) }
    ensures area { Overwrites A.image A.frame A.faults area.old area.new result }
{
    set_signed4(area, at, GDR_R_MAX_REC, to)
}

/// rNumDims: the number of dimensions of the r variables.
pub fn set_gdr_r_num_dims<A: Area>(area: &mut A, at: u64, to: i32) -> Result<(), AreaError>
    requires { LiesIn (A.image area.old) at gdr_r_num_dims }
    ensures ok { OnOk result (A.image area.new ≡ with_field (A.image area.old) at gdr_r_num_dims (cast_unsigned w32 to)) }
    ensures area { Overwrites A.image A.frame A.faults area.old area.new result }
{
    set_signed4(area, at, GDR_R_NUM_DIMS, to)
}
