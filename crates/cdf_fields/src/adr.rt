//! Fields of an Attribute Descriptor Record, written.

ghost use Rattle.std.specs.Prelude.{◌≡◌, ◌≤◌, length, OnOk};
ghost use Rattle.std.specs.Int.{w32, cast_unsigned};
ghost use Rattle.cdf_area.specs.Calls.{Overwrites};
ghost use Rattle.cdf_format.specs.Fields.{LiesIn, with_field, with_name};
ghost use Rattle.cdf_format.specs.Records.{adr_max_gr_entry, adr_max_z_entry, adr_name};

use crate::name::set_name;
use crate::width::set_signed4;
use cdf_area::{Area, AreaError};
use cdf_format::fields::{ADR_MAX_GR_ENTRY, ADR_MAX_Z_ENTRY, ADR_NAME};

/// MAXgrEntry: the greatest number of a gr entry, -1 for none.
pub fn set_adr_max_gr_entry<A: Area>(area: &mut A, at: u64, to: i32) -> Result<(), AreaError>
    requires { LiesIn (A.image area.old) at adr_max_gr_entry }
    ensures ok { OnOk result (A.image area.new ≡ with_field (A.image area.old) at adr_max_gr_entry (cast_unsigned w32 to)) }
    ensures area { Overwrites A.image A.frame A.faults area.old area.new result }
{
    set_signed4(area, at, ADR_MAX_GR_ENTRY, to)
}

/// MAXzEntry: the greatest number of a z entry, -1 for none.
pub fn set_adr_max_z_entry<A: Area>(area: &mut A, at: u64, to: i32) -> Result<(), AreaError>
    requires { LiesIn (A.image area.old) at adr_max_z_entry }
    ensures ok { OnOk result (A.image area.new ≡ with_field (A.image area.old) at adr_max_z_entry (cast_unsigned w32 to)) }
    ensures area { Overwrites A.image A.frame A.faults area.old area.new result }
{
    set_signed4(area, at, ADR_MAX_Z_ENTRY, to)
}

/// The Name: these bytes, then bytes 0.
pub fn set_adr_name<A: Area>(area: &mut A, at: u64, to: &[u8]) -> Result<(), AreaError>
    requires field { LiesIn (A.image area.old) at adr_name }
    requires fits { length to.now ≤ 256 }
    ensures ok { OnOk result (A.image area.new ≡ with_name (A.image area.old) at adr_name to.now) }
    ensures area { Overwrites A.image A.frame A.faults area.old area.new result }
{
    set_name(area, at, ADR_NAME, to)
}
