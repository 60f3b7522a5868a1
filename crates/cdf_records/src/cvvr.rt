//! Compressed Variable Values Records, read.

ghost use Rattle.std.specs.Prelude.{◌≡◌, ◌+◌, ◌≤◌, ℕ, length, IfOk, OnOk};
ghost use Rattle.cdf_area.specs.Calls.{Reads};
ghost use Rattle.cdf_format.specs.Records.{cvvr_packed};
ghost use Rattle.cdf_records.specs.Heads.{cvvr_at, cvvr_by};
ghost use Rattle.cdf_records.specs.Pieces.{AreBytes, Shows};

use crate::field::{read_piece, signed4, signed8, unsigned8};
use cdf_area::{Area, AreaError};
use cdf_format::fields::{CVVR_C_SIZE, CVVR_PACKED, CVVR_RFU_A, RECORD_SIZE, RECORD_TYPE};

/// The bytes of the fields that are read.
const HEAD_SIZE: usize = CVVR_PACKED as usize;

/// A Compressed Variable Values Record, but for its packed bytes.
#[derive(Clone, Copy, Debug, PartialEq, Eq)]
pub struct Cvvr {
    pub record_size: u64,
    pub record_type: i32,
    pub rfu_a: i32,
    pub c_size: i64,
}

/// The fields in the bytes of a record.
fn cvvr_in(bytes: &[u8]) -> Cvvr
    requires { (cvvr_packed 0).place ≤ length bytes.now }
    ensures { (field : ℕ → ℕ → ℕ) (start : ℕ) → Shows bytes.now field start → result ≡ cvvr_by field start }
{
    Cvvr {
        record_size: unsigned8(bytes, RECORD_SIZE),
        record_type: signed4(bytes, RECORD_TYPE),
        rfu_a: signed4(bytes, CVVR_RFU_A),
        c_size: signed8(bytes, CVVR_C_SIZE),
    }
}

/// The fields of a Compressed Variable Values Record at a place.
pub fn read_cvvr<A: Area>(area: &mut A, at: u64) -> Result<Cvvr, AreaError>
    requires { at + (cvvr_packed 0).place ≤ length (A.image area.old) }
    ensures value { IfOk result (λ head. head ≡ cvvr_at (A.image area.old) at) }
    ensures bytes { OnOk result (AreBytes (A.image area.old) at (cvvr_packed 0).place) }
    ensures area { Reads A.image A.frame A.faults A.edited area.old area.new result }
{
    let mut bytes = [0u8; HEAD_SIZE];
    read_piece(area, at, &mut bytes)?;
    Ok(cvvr_in(&bytes))
}
