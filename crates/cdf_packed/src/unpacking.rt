//! The plain bytes of a packed block.

ghost use Rattle.std.specs.Prelude.{◌≡◌, ◌≤◌, IfOk, IfSome, is_some, true};
ghost use Rattle.cdf_area.specs.Calls.{Reads};
ghost use Rattle.cdf_format.specs.Fields.{LiesIn, counted, integer8, number};
ghost use Rattle.cdf_format.specs.IndexRules.{unpacks_to};
ghost use Rattle.cdf_format.specs.Records.{cvvr_c_size, cvvr_packed};
ghost use Rattle.cdf_format.specs.Stored.{packed_bytes};
ghost use Rattle.cdf_model.specs.Place.{record_limit};
ghost use Rattle.cdf_model.specs.RunLengths.{plain_of};

use cdf_area::{Area, AreaError};
use cdf_format::fields::CVVR_PACKED;
use cdf_records::{read_bytes, read_cvvr};
use cdf_rle::decode_into;
use std::alloc::{AllocError, Global};

/// The plain bytes that packed bytes stand for, where there are just so many; none where there are more or fewer, or a last 0 has no count.
pub fn unpack(alloc: Global, packed: &[u8], size: u64) -> Result<Option<Vec<u8>>, AllocError>
    ensures fits { IfOk result (λ found. is_some found ≡ unpacks_to packed.now size) }
    ensures plain { IfOk result (λ found. IfSome found (λ plain. plain.items ≡ plain_of packed.now)) }
{
    let mut plain = vec![in alloc; 0u8; size as usize]?;
    if decode_into(packed, &mut plain).is_err() {
        return Ok(None);
    }
    Ok(Some(plain))
}

/// How many packed bytes a cSize stands for: none where it is below 0.
fn counted(c_size: i64) -> u64
    ensures { result ≡ counted c_size }
{
    c_size.max(0) as u64
}

/// The number of packed bytes of the block at a place.
fn read_count<A: Area>(area: &mut A, at: u64) -> Result<u64, AreaError>
    requires { LiesIn (A.image area.old) at (cvvr_packed 0) }
    ensures value { IfOk result (λ count. count ≡ counted (integer8 (A.image area.old) at cvvr_c_size)) }
    ensures area { Reads A.image A.frame A.faults A.edited area.old area.new result }
{
    let head = read_cvvr(area, at)?;
    Ok(counted(head.c_size))
}

/// The plain bytes of the packed block at a place, where there are just so many. The call reads at most twice as many packed bytes, since no more can stand for them.
pub fn read_packed<A: Area>(
    alloc: Global,
    area: &mut A,
    at: u64,
    size: u64,
) -> Result<Option<Vec<u8>>, AreaError>
    requires inside { LiesIn (A.image area.old) at (cvvr_packed (number (A.image area.old) at cvvr_c_size)) }
    requires small { size ≤ record_limit }
    ensures fits { IfOk result (λ found. is_some found ≡ unpacks_to (packed_bytes (A.image area.old) at) size) }
    ensures plain { IfOk result (λ found. IfSome found (λ plain. plain.items ≡ plain_of (packed_bytes (A.image area.old) at))) }
    ensures area { Reads A.image A.frame A.faults A.edited area.old area.new result }
{
    let _size = area.size();
    let count = read_count(area, at)?;
    if count > 2 * size {
        return Ok(None);
    }
    let packed = read_bytes(alloc, area, at + CVVR_PACKED, count)?;
    Ok(unpack(alloc, &packed, size)?)
}

/// The plain bytes of the packed block at a place, which are just so many.
pub fn read_unpacked<A: Area>(
    alloc: Global,
    area: &mut A,
    at: u64,
    size: u64,
) -> Result<Vec<u8>, AreaError>
    requires inside { LiesIn (A.image area.old) at (cvvr_packed (number (A.image area.old) at cvvr_c_size)) }
    requires fits { unpacks_to (packed_bytes (A.image area.old) at) size ≡ true }
    requires small { size ≤ record_limit }
    ensures plain { IfOk result (λ plain. plain.items ≡ plain_of (packed_bytes (A.image area.old) at)) }
    ensures area { Reads A.image A.frame A.faults A.edited area.old area.new result }
{
    let found = read_packed(alloc, area, at, size)?;
    Ok(found.unwrap())
}
