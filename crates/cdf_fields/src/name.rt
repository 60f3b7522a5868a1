//! Names, written with the bytes 0 after them.

ghost use Rattle.std.specs.Prelude.{◌≡◌, ◌+◌, ◌-◌, ◌≤◌, ◌++◌, length, replicate, OnOk};
ghost use Rattle.cdf_area.specs.Calls.{Overwrites};
ghost use Rattle.cdf_format.specs.Fields.{LiesIn, with_name};
ghost use Rattle.cdf_format.specs.Records.{field};

use cdf_area::{Area, AreaError};
use cdf_format::fields::NAME_SIZE;

/// The bytes of a name, and bytes 0 after it up to 256.
pub fn padded(name: &[u8]) -> [u8; NAME_SIZE]
    requires { length name.now ≤ 256 }
    ensures { result ≡ name.now ++ replicate (256 - length name.now) 0 }
{
    let mut bytes = [0u8; NAME_SIZE];
    bytes[..name.len()].copy_from_slice(name);
    bytes
}

/// Writes a name at a place within the record at another place, and bytes 0 after it up to 256.
#[tactic(auto, unfolding(cdf_format::specs::Fields::with_name))]
pub fn set_name<A: Area>(area: &mut A, at: u64, place: u64, to: &[u8]) -> Result<(), AreaError>
    requires field { LiesIn (A.image area.old) at (field place 256) }
    requires fits { length to.now ≤ 256 }
    ensures ok { OnOk result (A.image area.new ≡ with_name (A.image area.old) at (field place 256) to.now) }
    ensures area { Overwrites A.image A.frame A.faults area.old area.new result }
{
    let _size = area.size();
    area.set(at + place, &padded(to))
}
