//! Attribute Entry Descriptor Records, read.

ghost use Rattle.std.specs.Prelude.{◌≡◌, ◌+◌, ◌≤◌, ℕ, length, IfOk, OnOk};
ghost use Rattle.cdf_area.specs.Calls.{Reads};
ghost use Rattle.cdf_format.specs.Records.{aedr_value};
ghost use Rattle.cdf_records.specs.Heads.{aedr_at, aedr_by};
ghost use Rattle.cdf_records.specs.Pieces.{AreBytes, Shows};

use crate::field::{read_piece, signed4, unsigned8};
use cdf_area::{Area, AreaError};
use cdf_format::fields::{
    AEDR_AEDR_NEXT, AEDR_ATTR_NUM, AEDR_DATA_TYPE, AEDR_NUM, AEDR_NUM_ELEMS, AEDR_NUM_STRINGS,
    AEDR_RFU_B, AEDR_RFU_C, AEDR_RFU_D, AEDR_RFU_E, AEDR_VALUE, RECORD_SIZE, RECORD_TYPE,
};

/// The bytes of the fields that are read.
const HEAD_SIZE: usize = AEDR_VALUE as usize;

/// An Attribute Entry Descriptor Record, of a gr or a z entry, but for its value.
#[derive(Clone, Copy, Debug, PartialEq, Eq)]
pub struct Aedr {
    pub record_size: u64,
    pub record_type: i32,
    pub aedr_next: u64,
    pub attr_num: i32,
    pub data_type: i32,
    pub num: i32,
    pub num_elems: i32,
    pub num_strings: i32,
    pub rfu_b: i32,
    pub rfu_c: i32,
    pub rfu_d: i32,
    pub rfu_e: i32,
}

/// The fields in the bytes of a record.
fn aedr_in(bytes: &[u8]) -> Aedr
    requires { (aedr_value 0).place ≤ length bytes.now }
    ensures { (field : ℕ → ℕ → ℕ) (start : ℕ) → Shows bytes.now field start → result ≡ aedr_by field start }
{
    Aedr {
        record_size: unsigned8(bytes, RECORD_SIZE),
        record_type: signed4(bytes, RECORD_TYPE),
        aedr_next: unsigned8(bytes, AEDR_AEDR_NEXT),
        attr_num: signed4(bytes, AEDR_ATTR_NUM),
        data_type: signed4(bytes, AEDR_DATA_TYPE),
        num: signed4(bytes, AEDR_NUM),
        num_elems: signed4(bytes, AEDR_NUM_ELEMS),
        num_strings: signed4(bytes, AEDR_NUM_STRINGS),
        rfu_b: signed4(bytes, AEDR_RFU_B),
        rfu_c: signed4(bytes, AEDR_RFU_C),
        rfu_d: signed4(bytes, AEDR_RFU_D),
        rfu_e: signed4(bytes, AEDR_RFU_E),
    }
}

/// The fields of an Attribute Entry Descriptor Record at a place.
pub fn read_aedr<A: Area>(area: &mut A, at: u64) -> Result<Aedr, AreaError>
    requires { at + (aedr_value 0).place ≤ length (A.image area.old) }
    ensures value { IfOk result (λ head. head ≡ aedr_at (A.image area.old) at) }
    ensures bytes { OnOk result (AreBytes (A.image area.old) at (aedr_value 0).place) }
    ensures area { Reads A.image A.frame A.faults A.edited area.old area.new result }
{
    let mut bytes = [0u8; HEAD_SIZE];
    read_piece(area, at, &mut bytes)?;
    Ok(aedr_in(&bytes))
}
