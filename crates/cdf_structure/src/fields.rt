//! Fields that all records have, read.

ghost use Rattle.std.specs.Prelude.{◌≡◌, ◌+◌, ◌≤◌, length, IfOk};
ghost use Rattle.cdf_area.specs.Calls.{Reads};
ghost use Rattle.cdf_format.specs.Fields.{size_at, type_at};
ghost use Rattle.cdf_format.specs.Records.{past, record_size, record_type};

use cdf_area::{Area, AreaError};
use cdf_format::fields::RECORD_TYPE;
use cdf_records::{read_unsigned4, read_unsigned8};

/// The RecordSize of the record at a place.
#[tactic(auto, using(crate::proofs::Readings::first_word))]
pub fn read_size<A: Area>(area: &mut A, place: u64) -> Result<u64, AreaError>
    requires { place + past record_size ≤ length (A.image area.old) }
    ensures value { IfOk result (λ size. size ≡ size_at (A.image area.old) place) }
    ensures area { Reads A.image A.frame A.faults A.edited area.old area.new result }
{
    read_unsigned8(area, place)
}

/// Its RecordType, without a sign.
pub fn read_type<A: Area>(area: &mut A, place: u64) -> Result<u32, AreaError>
    requires { place + past record_type ≤ length (A.image area.old) }
    ensures value { IfOk result (λ record_type. record_type ≡ type_at (A.image area.old) place) }
    ensures area { Reads A.image A.frame A.faults A.edited area.old area.new result }
{
    let _size = area.size();
    read_unsigned4(area, place + RECORD_TYPE)
}
