//! Variable Descriptor Records, read.

ghost use Rattle.std.specs.Prelude.{◌≡◌, ◌+◌, ◌≤◌, ℕ, length, IfOk, OnOk};
ghost use Rattle.cdf_area.specs.Calls.{Reads};
ghost use Rattle.cdf_format.specs.Records.{vdr_name};
ghost use Rattle.cdf_records.specs.Heads.{vdr_at, vdr_by};
ghost use Rattle.cdf_records.specs.Pieces.{AreBytes, Shows};

use crate::field::{read_piece, signed4, signed8, unsigned4, unsigned8};
use cdf_area::{Area, AreaError};
use cdf_format::fields::{
    RECORD_SIZE, RECORD_TYPE, VDR_BLOCKING_FACTOR, VDR_CPR_OR_SPR_OFFSET, VDR_DATA_TYPE, VDR_FLAGS,
    VDR_MAX_REC, VDR_NAME, VDR_NUM, VDR_NUM_ELEMS, VDR_RFU_B, VDR_RFU_C, VDR_RFU_F, VDR_S_RECORDS,
    VDR_VDR_NEXT, VDR_VXR_HEAD, VDR_VXR_TAIL,
};

/// The bytes of the fields that are read.
const HEAD_SIZE: usize = VDR_NAME as usize;

/// A Variable Descriptor Record, of an r or a z variable, up to its Name.
#[derive(Clone, Copy, Debug, PartialEq, Eq)]
pub struct Vdr {
    pub record_size: u64,
    pub record_type: i32,
    pub vdr_next: u64,
    pub data_type: i32,
    pub max_rec: i32,
    pub vxr_head: u64,
    pub vxr_tail: u64,
    pub flags: u32,
    pub s_records: i32,
    pub rfu_b: i32,
    pub rfu_c: i32,
    pub rfu_f: i32,
    pub num_elems: i32,
    pub num: i32,
    pub cpr_or_spr_offset: i64,
    pub blocking_factor: i32,
}

/// The fields in the bytes of a record.
fn vdr_in(bytes: &[u8]) -> Vdr
    requires { vdr_name.place ≤ length bytes.now }
    ensures { (field : ℕ → ℕ → ℕ) (start : ℕ) → Shows bytes.now field start → result ≡ vdr_by field start }
{
    Vdr {
        record_size: unsigned8(bytes, RECORD_SIZE),
        record_type: signed4(bytes, RECORD_TYPE),
        vdr_next: unsigned8(bytes, VDR_VDR_NEXT),
        data_type: signed4(bytes, VDR_DATA_TYPE),
        max_rec: signed4(bytes, VDR_MAX_REC),
        vxr_head: unsigned8(bytes, VDR_VXR_HEAD),
        vxr_tail: unsigned8(bytes, VDR_VXR_TAIL),
        flags: unsigned4(bytes, VDR_FLAGS),
        s_records: signed4(bytes, VDR_S_RECORDS),
        rfu_b: signed4(bytes, VDR_RFU_B),
        rfu_c: signed4(bytes, VDR_RFU_C),
        rfu_f: signed4(bytes, VDR_RFU_F),
        num_elems: signed4(bytes, VDR_NUM_ELEMS),
        num: signed4(bytes, VDR_NUM),
        cpr_or_spr_offset: signed8(bytes, VDR_CPR_OR_SPR_OFFSET),
        blocking_factor: signed4(bytes, VDR_BLOCKING_FACTOR),
    }
}

/// The fields of a Variable Descriptor Record at a place.
pub fn read_vdr<A: Area>(area: &mut A, at: u64) -> Result<Vdr, AreaError>
    requires { at + vdr_name.place ≤ length (A.image area.old) }
    ensures value { IfOk result (λ head. head ≡ vdr_at (A.image area.old) at) }
    ensures bytes { OnOk result (AreBytes (A.image area.old) at vdr_name.place) }
    ensures area { Reads A.image A.frame A.faults A.edited area.old area.new result }
{
    let mut bytes = [0u8; HEAD_SIZE];
    read_piece(area, at, &mut bytes)?;
    Ok(vdr_in(&bytes))
}
