//! Fields of a Variable Index Record, written.

ghost use Rattle.std.specs.Prelude.{◌≡◌, OnOk};
ghost use Rattle.std.specs.Int.{w32, cast_unsigned};
ghost use Rattle.cdf_area.specs.Calls.{Overwrites};
ghost use Rattle.cdf_format.specs.Fields.{LiesIn, with_field};
ghost use Rattle.cdf_format.specs.Records.{vxr_vxr_next, vxr_n_used_entries};

use crate::width::{set_signed4, set_unsigned8};
use cdf_area::{Area, AreaError};
use cdf_format::fields::{VXR_N_USED_ENTRIES, VXR_VXR_NEXT};

/// VXRnext: the place of the next node of its chain, 0 for none.
pub fn set_vxr_vxr_next<A: Area>(area: &mut A, at: u64, to: u64) -> Result<(), AreaError>
    requires { LiesIn (A.image area.old) at vxr_vxr_next }
    ensures ok { OnOk result (A.image area.new ≡ with_field (A.image area.old) at vxr_vxr_next to) }
    ensures area { Overwrites A.image A.frame A.faults area.old area.new result }
{
    set_unsigned8(area, at, VXR_VXR_NEXT, to)
}

/// NusedEntries: the number of entries in use.
pub fn set_vxr_n_used_entries<A: Area>(area: &mut A, at: u64, to: i32) -> Result<(), AreaError>
    requires { LiesIn (A.image area.old) at vxr_n_used_entries }
    ensures ok { OnOk result (A.image area.new ≡ with_field (A.image area.old) at vxr_n_used_entries (cast_unsigned w32 to)) }
    ensures area { Overwrites A.image A.frame A.faults area.old area.new result }
{
    set_signed4(area, at, VXR_N_USED_ENTRIES, to)
}
