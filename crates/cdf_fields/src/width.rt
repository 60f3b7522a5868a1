//! Numbers of 4 and 8 bytes, written.

ghost use Rattle.std.specs.Prelude.{◌≡◌, ◌+◌, OnOk};
ghost use Rattle.std.specs.Int.{w32, w64, cast_unsigned};
ghost use Rattle.cdf_area.specs.Calls.{Overwrites};
ghost use Rattle.cdf_format.specs.Fields.{LiesIn, with_field};
ghost use Rattle.cdf_format.specs.Records.{field};

use cdf_area::{Area, AreaError};

/// Writes the 4 bytes of a field at a place within the record at another place, without a sign.
#[tactic(auto, unfolding(cdf_format::specs::Fields::with_field))]
pub fn set_unsigned4<A: Area>(area: &mut A, at: u64, place: u64, to: u32) -> Result<(), AreaError>
    requires { LiesIn (A.image area.old) at (field place 4) }
    ensures ok { OnOk result (A.image area.new ≡ with_field (A.image area.old) at (field place 4) to) }
    ensures area { Overwrites A.image A.frame A.faults area.old area.new result }
{
    let _size = area.size();
    area.set(at + place, &to.to_be_bytes())
}

/// Writes the 4 bytes of a field at a place within the record at another place, with a sign.
pub fn set_signed4<A: Area>(area: &mut A, at: u64, place: u64, to: i32) -> Result<(), AreaError>
    requires { LiesIn (A.image area.old) at (field place 4) }
    ensures ok { OnOk result (A.image area.new ≡ with_field (A.image area.old) at (field place 4) (cast_unsigned w32 to)) }
    ensures area { Overwrites A.image A.frame A.faults area.old area.new result }
{
    set_unsigned4(area, at, place, to.cast_unsigned())
}

/// Writes the 8 bytes of a field at a place within the record at another place, without a sign.
#[tactic(auto, unfolding(cdf_format::specs::Fields::with_field))]
pub fn set_unsigned8<A: Area>(area: &mut A, at: u64, place: u64, to: u64) -> Result<(), AreaError>
    requires { LiesIn (A.image area.old) at (field place 8) }
    ensures ok { OnOk result (A.image area.new ≡ with_field (A.image area.old) at (field place 8) to) }
    ensures area { Overwrites A.image A.frame A.faults area.old area.new result }
{
    let _size = area.size();
    area.set(at + place, &to.to_be_bytes())
}

/// Writes the 8 bytes of a field at a place within the record at another place, with a sign.
pub fn set_signed8<A: Area>(area: &mut A, at: u64, place: u64, to: i64) -> Result<(), AreaError>
    requires { LiesIn (A.image area.old) at (field place 8) }
    ensures ok { OnOk result (A.image area.new ≡ with_field (A.image area.old) at (field place 8) (cast_unsigned w64 to)) }
    ensures area { Overwrites A.image A.frame A.faults area.old area.new result }
{
    set_unsigned8(area, at, place, to.cast_unsigned())
}
