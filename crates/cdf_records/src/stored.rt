//! Bytes as they are stored, and the order in which a file stores those of its values.

ghost use Rattle.std.specs.Prelude.{◌≡◌, ◌+◌, ◌≤◌, length, take, drop, IfOk, IfSome};
ghost use Rattle.cdf_area.specs.Calls.{Reads};
ghost use Rattle.cdf_format.specs.Fields.{encoding};
ghost use Rattle.cdf_format.specs.Stored.{is_little};
ghost use Rattle.cdf_format.specs.Records.{cdr_place};
ghost use Rattle.cdf_format.specs.RecordTypes.{fixed_size, cdr_type};
ghost use Rattle.cdf_model.specs.Encodings.{encoding_at};

use crate::numbers::read_signed4;
use cdf_area::{Area, AreaError};
use cdf_format::fields::{CDR_ENCODING, CDR_PLACE};
use cdf_model::Encoding;
use std::alloc::Global;

/// So many bytes from a place on.
pub fn read_bytes<A: Area>(
    alloc: Global,
    area: &mut A,
    place: u64,
    count: u64,
) -> Result<Vec<u8>, AreaError>
    requires { place + count ≤ length (A.image area.old) }
    ensures bytes { IfOk result (λ bytes. bytes.items ≡ take count (drop place (A.image area.old))) }
    ensures area { Reads A.image A.frame A.faults A.edited area.old area.new result }
{
    let mut bytes = Vec::new(alloc);
    bytes.resize(count as usize, 0)?;
    area.get(place, &mut bytes)?;
    Ok(bytes)
}

/// Values in network order, for a file whose encoding is not known. No well-formed file is one.
const NETWORK: Encoding = Encoding {
    code: 1,
    little: false,
};

/// The encoding of the values of a file.
pub fn read_encoding<A: Area>(area: &mut A) -> Result<Encoding, AreaError>
    requires { cdr_place + fixed_size cdr_type ≤ length (A.image area.old) }
    ensures known { IfOk result (λ read. IfSome (encoding_at (encoding (A.image area.old))) (λ known. read ≡ known)) }
    ensures order { IfOk result (λ encoding. encoding.little ≡ is_little (A.image area.old)) }
    ensures area { Reads A.image A.frame A.faults A.edited area.old area.new result }
{
    let code = read_signed4(area, CDR_PLACE + CDR_ENCODING)?;
    Ok(Encoding::of_code(code).unwrap_or(NETWORK))
}
