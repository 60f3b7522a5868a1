//! Fields of a Variable Descriptor Record, written.

ghost use Rattle.std.specs.Prelude.{◌≡◌, ◌≤◌, length, OnOk};
ghost use Rattle.std.specs.Int.{w32, w64, cast_unsigned};
ghost use Rattle.cdf_area.specs.Calls.{Overwrites};
ghost use Rattle.cdf_format.specs.Fields.{LiesIn, with_field, with_name};
ghost use Rattle.cdf_format.specs.Records.{vdr_max_rec, vdr_vxr_head, vdr_vxr_tail, vdr_flags, vdr_s_records, vdr_num, vdr_cpr_or_spr_offset, vdr_blocking_factor, vdr_name};

use crate::name::set_name;
use crate::width::{set_signed4, set_signed8, set_unsigned4, set_unsigned8};
use cdf_area::{Area, AreaError};
use cdf_format::fields::{
    VDR_BLOCKING_FACTOR, VDR_CPR_OR_SPR_OFFSET, VDR_FLAGS, VDR_MAX_REC, VDR_NAME, VDR_NUM,
    VDR_S_RECORDS, VDR_VXR_HEAD, VDR_VXR_TAIL,
};

/// MaxRec: the greatest record number, -1 for none.
pub fn set_vdr_max_rec<A: Area>(area: &mut A, at: u64, to: i32) -> Result<(), AreaError>
    requires { LiesIn (A.image area.old) at vdr_max_rec }
    ensures ok { OnOk result (A.image area.new ≡ with_field (A.image area.old) at vdr_max_rec (cast_unsigned w32 to)) }
    ensures area { Overwrites A.image A.frame A.faults area.old area.new result }
{
    set_signed4(area, at, VDR_MAX_REC, to)
}

/// VXRhead: the place of the first node of the index, 0 for none.
pub fn set_vdr_vxr_head<A: Area>(area: &mut A, at: u64, to: u64) -> Result<(), AreaError>
    requires { LiesIn (A.image area.old) at vdr_vxr_head }
    ensures ok { OnOk result (A.image area.new ≡ with_field (A.image area.old) at vdr_vxr_head to) }
    ensures area { Overwrites A.image A.frame A.faults area.old area.new result }
{
    set_unsigned8(area, at, VDR_VXR_HEAD, to)
}

/// VXRtail: the place of the last node of the top chain, 0 for none.
pub fn set_vdr_vxr_tail<A: Area>(area: &mut A, at: u64, to: u64) -> Result<(), AreaError>
    requires { LiesIn (A.image area.old) at vdr_vxr_tail }
    ensures ok { OnOk result (A.image area.new ≡ with_field (A.image area.old) at vdr_vxr_tail to) }
    ensures area { Overwrites A.image A.frame A.faults area.old area.new result }
{
    set_unsigned8(area, at, VDR_VXR_TAIL, to)
}

/// Flags.
pub fn set_vdr_flags<A: Area>(area: &mut A, at: u64, to: u32) -> Result<(), AreaError>
    requires { LiesIn (A.image area.old) at vdr_flags }
    ensures ok { OnOk result (A.image area.new ≡ with_field (A.image area.old) at vdr_flags to) }
    ensures area { Overwrites A.image A.frame A.faults area.old area.new result }
{
    set_unsigned4(area, at, VDR_FLAGS, to)
}

/// SRecords: what a missing record reads as.
pub fn set_vdr_s_records<A: Area>(area: &mut A, at: u64, to: i32) -> Result<(), AreaError>
    requires { LiesIn (A.image area.old) at vdr_s_records }
    ensures ok { OnOk result (A.image area.new ≡ with_field (A.image area.old) at vdr_s_records (cast_unsigned w32 to)) }
    ensures area { Overwrites A.image A.frame A.faults area.old area.new result }
{
    set_signed4(area, at, VDR_S_RECORDS, to)
}

/// Num: the number of the variable.
pub fn set_vdr_num<A: Area>(area: &mut A, at: u64, to: i32) -> Result<(), AreaError>
    requires { LiesIn (A.image area.old) at vdr_num }
    ensures ok { OnOk result (A.image area.new ≡ with_field (A.image area.old) at vdr_num (cast_unsigned w32 to)) }
    ensures area { Overwrites A.image A.frame A.faults area.old area.new result }
{
    set_signed4(area, at, VDR_NUM, to)
}

/// CPRorSPRoffset: the place of the parameters of a compressed variable, -1 for none.
pub fn set_vdr_cpr_or_spr_offset<A: Area>(area: &mut A, at: u64, to: i64) -> Result<(), AreaError>
    requires { LiesIn (A.image area.old) at vdr_cpr_or_spr_offset }
    ensures ok { OnOk result (A.image area.new ≡ with_field (A.image area.old) at vdr_cpr_or_spr_offset (cast_unsigned w64 to)) }
    ensures area { Overwrites A.image A.frame A.faults area.old area.new result }
{
    set_signed8(area, at, VDR_CPR_OR_SPR_OFFSET, to)
}

/// BlockingFactor: the number of records of a new block, 0 for the default.
pub fn set_vdr_blocking_factor<A: Area>(area: &mut A, at: u64, to: i32) -> Result<(), AreaError>
    requires { LiesIn (A.image area.old) at vdr_blocking_factor }
    ensures ok { OnOk result (A.image area.new ≡ with_field (A.image area.old) at vdr_blocking_factor (cast_unsigned w32 to)) }
    ensures area { Overwrites A.image A.frame A.faults area.old area.new result }
{
    set_signed4(area, at, VDR_BLOCKING_FACTOR, to)
}

/// The Name: these bytes, then bytes 0.
pub fn set_vdr_name<A: Area>(area: &mut A, at: u64, to: &[u8]) -> Result<(), AreaError>
    requires field { LiesIn (A.image area.old) at vdr_name }
    requires fits { length to.now ≤ 256 }
    ensures ok { OnOk result (A.image area.new ≡ with_name (A.image area.old) at vdr_name to.now) }
    ensures area { Overwrites A.image A.frame A.faults area.old area.new result }
{
    set_name(area, at, VDR_NAME, to)
}
