//! What the records of an image take, counted along its records and along the unused list.

ghost use Rattle.std.specs.Prelude.{◌≡◌, ◌+◌, ◌<◌, ◌^◌, IfOk};
ghost use Rattle.cdf_area.specs.Calls.{Reads};
ghost use Rattle.cdf_format.specs.Owners.{space_of as taken_by, unused_records};
ghost use Rattle.cdf_format.specs.Shape.{shape};
ghost use Rattle.cdf_format.specs.Sound.{IsSound};
ghost use Rattle.cdf_space.specs.Tallies.{Tallies};

use cdf_area::{Area, AreaError};
use cdf_format::fields::{
    CDR_GDR_OFFSET, CDR_PLACE, GDR_UIR_HEAD, RECORD_SIZE, RECORD_TYPE, UIR_TYPE,
};
use cdf_model::Space;
use cdf_records::{read_uir, read_unsigned4, read_unsigned8};

/// How many records there are, and their bytes in all.
#[derive(Clone, Copy)]
struct Tally {
    count: u64,
    bytes: u64,
}

impl Tally {
    fn none() -> Self
        ensures count { result.count ≡ 0 }
        ensures bytes { result.bytes ≡ 0 }
    {
        Tally { count: 0, bytes: 0 }
    }

    /// One record more, of so many bytes.
    fn with(self, size: u64) -> Self
        requires count { self.count + 1 < 2 ^ 64 }
        requires bytes { self.bytes + size < 2 ^ 64 }
        ensures count { result.count ≡ self.count + 1 }
        ensures bytes { result.bytes ≡ self.bytes + size }
    {
        Tally {
            count: self.count + 1,
            bytes: self.bytes + size,
        }
    }
}

/// The unused records, on the list or not.
fn tally_unused<A: Area>(area: &mut A) -> Result<Tally, AreaError>
    requires sound { IsSound (A.image area.old) (shape (A.image area.old)) }
    ensures tally { IfOk result (Tallies (A.image area.old) (unused_records (A.image area.old) (shape (A.image area.old)))) }
    ensures area { Reads A.image A.frame A.faults A.edited area.old area.new result }
{
    let eof = area.size();
    let mut unused = Tally::none();
    let mut place = CDR_PLACE;
    while place < eof {
        let size = read_unsigned8(area, place + RECORD_SIZE)?;
        let record_type = read_unsigned4(area, place + RECORD_TYPE)?;
        place += size;
        if record_type == UIR_TYPE {
            unused = unused.with(size);
        }
    }
    Ok(unused)
}

/// The records of the unused list.
fn tally_listed<A: Area>(area: &mut A) -> Result<Tally, AreaError>
    requires sound { IsSound (A.image area.old) (shape (A.image area.old)) }
    ensures tally { IfOk result (Tallies (A.image area.old) (shape (A.image area.old)).unused) }
    ensures area { Reads A.image A.frame A.faults A.edited area.old area.new result }
{
    // An image has fewer than 2^64 bytes, so no place in it overflows.
    let _size = area.size();
    let gdr = read_unsigned8(area, CDR_PLACE + CDR_GDR_OFFSET)?;
    let mut listed = Tally::none();
    let mut place = read_unsigned8(area, gdr + GDR_UIR_HEAD)?;
    while place != 0 {
        let uir = read_uir(area, place)?;
        listed = listed.with(uir.record_size);
        place = uir.next_uir;
    }
    Ok(listed)
}

/// What the records of an image take: the bytes of those that are used, and how many unused ones there are, with their bytes, on the
/// unused list and on no list. It takes no memory, and reads each record once and each record of the list once more.
pub fn space_of<A: Area>(area: &mut A) -> Result<Space, AreaError>
    requires sound { IsSound (A.image area.old) (shape (A.image area.old)) }
    ensures value { IfOk result (λ space. space ≡ taken_by (A.image area.old) (shape (A.image area.old))) }
    ensures area { Reads A.image A.frame A.faults A.edited area.old area.new result }
{
    let eof = area.size();
    let unused = tally_unused(area)?;
    let listed = tally_listed(area)?;
    Ok(Space {
        eof,
        used: eof - CDR_PLACE - unused.bytes,
        listed: listed.count,
        listed_bytes: listed.bytes,
        unlisted: unused.count - listed.count,
        unlisted_bytes: unused.bytes - listed.bytes,
    })
}
