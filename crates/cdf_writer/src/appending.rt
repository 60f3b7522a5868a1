//! Records appended to an image, and written into rooms that were kept free for them.

ghost use Rattle.std.specs.Prelude.{[], ◌≡◌, ◌+◌, ◌<◌, ◌^◌, ◌≤◌, ◌++◌, ◌∷◌, length, replicate, OnOk};
ghost use Rattle.cdf_base.specs.Bytes.{put};
ghost use Rattle.cdf_writer.specs.Bodies.{whole_record};
ghost use Rattle.cdf_writer.specs.Stops.{Writes};

use cdf_area::{Area, AreaError};
use cdf_format::fields::RECORD_TYPE;
use std::alloc::{AllocError, AllocFailed};

/// Why a writer stopped.
#[derive(Clone, Copy, Debug, PartialEq, Eq)]
pub enum WriteStop {
    /// The next record, of `need` bytes, does not fit behind the `eof` bytes that there are.
    TooLarge { eof: u64, need: u64 },
    /// What stands beneath the area failed.
    Fault,
    /// There was no memory left.
    NoMemory,
}

impl From<AreaError> for WriteStop {
    ghost use Rattle.cdf_writer.specs.Stops.{stop_of};

    ghost from_gives = { λ e s. s ≡ stop_of e };

    fn from(e: AreaError) -> Self {
        match e {
            AreaError::Fault => WriteStop::Fault,
            AreaError::NoMemory => WriteStop::NoMemory,
        }
    }
}

impl From<AllocError> for WriteStop {
    ghost use Rattle.cdf_writer.specs.declared.appending.WriteStop.TheVariants.{NoMemory};

    ghost from_gives = { λ _ s. s ≡ NoMemory };

    fn from(_: AllocError) -> Self {
        WriteStop::NoMemory
    }
}

impl<T: Drop> From<AllocFailed<T>> for WriteStop {
    ghost use Rattle.cdf_writer.specs.declared.appending.WriteStop.TheVariants.{NoMemory};

    ghost from_gives = { λ _ s. s ≡ NoMemory };

    fn from(_: AllocFailed<T>) -> Self {
        WriteStop::NoMemory
    }
}

/// Appends a record with this body.
pub(crate) fn append_record<A: Area>(area: &mut A, body: &[u8]) -> Result<(), WriteStop>
    requires limit { (A.frame area.old).limit ≤ 2 ^ 62 }
    requires within { length (A.image area.old) ≤ (A.frame area.old).limit }
    ensures appended { OnOk result (A.image area.new ≡ A.image area.old ++ whole_record body.now) }
    ensures area { Writes A.image A.frame A.faults (length (A.image area.old)) area.old area.new (body.now ∷ []) result }
{
    let eof = area.size();
    let need = RECORD_TYPE + body.len() as u64;
    if area.limit() - eof < need {
        return Err(WriteStop::TooLarge { eof, need });
    }
    area.extend(need)?;
    area.set(eof, &need.to_be_bytes())?;
    area.set(eof + RECORD_TYPE, body)?;
    Ok(())
}

/// Appends a record of which what follows its size, so many bytes, is to be written later.
pub(crate) fn keep_room<A: Area>(area: &mut A, size: u64) -> Result<(), WriteStop>
    requires limit { (A.frame area.old).limit ≤ 2 ^ 62 }
    requires within { length (A.image area.old) ≤ (A.frame area.old).limit }
    requires small { size < 2 ^ 63 + 256 }
    ensures appended { OnOk result (A.image area.new ≡ A.image area.old ++ whole_record (replicate size 0)) }
    ensures area { Writes A.image A.frame A.faults (length (A.image area.old)) area.old area.new (replicate size 0 ∷ []) result }
{
    let eof = area.size();
    let need = RECORD_TYPE + size;
    if area.limit() - eof < need {
        return Err(WriteStop::TooLarge { eof, need });
    }
    area.extend(need)?;
    area.set(eof, &need.to_be_bytes())?;
    Ok(())
}

/// Writes what follows the size of the record at a place, for which room was kept.
pub(crate) fn fill_room<A: Area>(area: &mut A, place: u64, body: &[u8]) -> Result<(), WriteStop>
    requires limit { (A.frame area.old).limit ≤ 2 ^ 62 }
    requires within { length (A.image area.old) ≤ (A.frame area.old).limit }
    requires room { place + 8 + length body.now ≤ length (A.image area.old) }
    ensures filled { OnOk result (A.image area.new ≡ put (A.image area.old) (place + 8) body.now) }
    ensures area { Writes A.image A.frame A.faults (length (A.image area.old)) area.old area.new [] result }
{
    area.set(place + RECORD_TYPE, body)?;
    Ok(())
}
