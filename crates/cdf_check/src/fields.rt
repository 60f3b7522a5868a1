//! Fields that several rules read.

ghost use Rattle.std.specs.Prelude.{◌≡◌, ◌^◌, ◌<◌, ◌≤◌, length, if◌then◌else◌};
ghost use Rattle.cdf_format.specs.Fields.{has_bit, signed4, size_at, type_at, word};
ghost use Rattle.cdf_format.specs.FileRules.{is_record};
ghost use Rattle.cdf_format.specs.Records.{cdr_checksum_bit};
ghost use Rattle.cdf_format.specs.Sealed.{trailer_size};

use cdf_area::Area;
use cdf_format::fields::{CDR_CHECKSUM_BIT, TRAILER_SIZE};
use cdf_format::flags::has_bit;

/// How many bytes stand after the image of a file with these Flags.
pub fn trailer_length(flags: u32) -> u64
    ensures { result ≡ (if has_bit flags cdr_checksum_bit then trailer_size else 0) }
{
    if has_bit(flags, CDR_CHECKSUM_BIT) {
        TRAILER_SIZE
    } else {
        0
    }
}

/// The 4 bytes of a field of the area without the sign that its record gives it.
pub fn unsigned<A: Area>(_area: &A, place: u64, field: i32) -> u32
    requires field { field ≡ signed4 (A.image _area.now) place }
    requires fits { word (A.image _area.now) place 4 < 2 ^ 32 }
    ensures { result ≡ word (A.image _area.now) place 4 }
{
    field.cast_unsigned()
}

/// Whether a record at a place, of this type and size, is of the wanted type and at least of the wanted size, and ends within the file.
pub fn is_record<A: Area>(
    area: &A,
    place: u64,
    record_type: u32,
    record_size: u64,
    wanted_type: u32,
    wanted_size: u64,
) -> bool
    requires room { place ≤ length (A.image area.now) }
    requires record_type { record_type ≡ type_at (A.image area.now) place }
    requires record_size { record_size ≡ size_at (A.image area.now) place }
    ensures { result ≡ is_record (A.image area.now) place wanted_type wanted_size }
{
    let rest = area.size() - place;
    record_type == wanted_type && record_size >= wanted_size && record_size <= rest
}
