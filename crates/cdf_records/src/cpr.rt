//! Compressed Parameters Records, read.

ghost use Rattle.std.specs.Prelude.{◌≡◌, ◌+◌, ◌≤◌, ℕ, length, IfOk, OnOk};
ghost use Rattle.cdf_area.specs.Calls.{Reads};
ghost use Rattle.cdf_format.specs.Records.{cpr_parameter};
ghost use Rattle.cdf_records.specs.Heads.{cpr_at, cpr_by};
ghost use Rattle.cdf_records.specs.Pieces.{AreBytes, Shows};

use crate::field::{read_piece, signed4, unsigned8};
use cdf_area::{Area, AreaError};
use cdf_format::fields::{
    CPR_C_TYPE, CPR_P_COUNT, CPR_PARAMETER, CPR_RFU_A, RECORD_SIZE, RECORD_TYPE,
};

/// The bytes of the fields that are read.
const HEAD_SIZE: usize = CPR_PARAMETER as usize;

/// A Compressed Parameters Record, but for its parameters.
#[derive(Clone, Copy, Debug, PartialEq, Eq)]
pub struct Cpr {
    pub record_size: u64,
    pub record_type: i32,
    pub c_type: i32,
    pub rfu_a: i32,
    pub p_count: i32,
}

/// The fields in the bytes of a record.
fn cpr_in(bytes: &[u8]) -> Cpr
    requires { (cpr_parameter 0).place ≤ length bytes.now }
    ensures { (field : ℕ → ℕ → ℕ) (start : ℕ) → Shows bytes.now field start → result ≡ cpr_by field start }
{
    Cpr {
        record_size: unsigned8(bytes, RECORD_SIZE),
        record_type: signed4(bytes, RECORD_TYPE),
        c_type: signed4(bytes, CPR_C_TYPE),
        rfu_a: signed4(bytes, CPR_RFU_A),
        p_count: signed4(bytes, CPR_P_COUNT),
    }
}

/// The fields of a Compressed Parameters Record at a place.
pub fn read_cpr<A: Area>(area: &mut A, at: u64) -> Result<Cpr, AreaError>
    requires { at + (cpr_parameter 0).place ≤ length (A.image area.old) }
    ensures value { IfOk result (λ head. head ≡ cpr_at (A.image area.old) at) }
    ensures bytes { OnOk result (AreBytes (A.image area.old) at (cpr_parameter 0).place) }
    ensures area { Reads A.image A.frame A.faults A.edited area.old area.new result }
{
    let mut bytes = [0u8; HEAD_SIZE];
    read_piece(area, at, &mut bytes)?;
    Ok(cpr_in(&bytes))
}
