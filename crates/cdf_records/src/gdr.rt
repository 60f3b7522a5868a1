//! The Global Descriptor Record, read.

ghost use Rattle.std.specs.Prelude.{◌≡◌, ◌+◌, ◌≤◌, ℕ, length, IfOk, OnOk};
ghost use Rattle.cdf_area.specs.Calls.{Reads};
ghost use Rattle.cdf_format.specs.Records.{gdr_r_dim_size};
ghost use Rattle.cdf_records.specs.Heads.{gdr_at, gdr_by};
ghost use Rattle.cdf_records.specs.Pieces.{AreBytes, Shows};

use crate::field::{read_piece, signed4, unsigned8};
use cdf_area::{Area, AreaError};
use cdf_format::fields::{
    GDR_ADR_HEAD, GDR_EOF, GDR_LEAP_SECOND_LAST_UPDATED, GDR_NR_VARS, GDR_NUM_ATTR, GDR_NZ_VARS,
    GDR_R_DIM_SIZE, GDR_R_MAX_REC, GDR_R_NUM_DIMS, GDR_R_VDR_HEAD, GDR_RFU_C, GDR_RFU_E,
    GDR_UIR_HEAD, GDR_Z_VDR_HEAD, RECORD_SIZE, RECORD_TYPE,
};

/// The bytes of the fields that are read.
const HEAD_SIZE: usize = GDR_R_DIM_SIZE as usize;

/// The Global Descriptor Record, but for the sizes of its dimensions.
#[derive(Clone, Copy, Debug, PartialEq, Eq)]
pub struct Gdr {
    pub record_size: u64,
    pub record_type: i32,
    pub r_vdr_head: u64,
    pub z_vdr_head: u64,
    pub adr_head: u64,
    pub eof: u64,
    pub nr_vars: i32,
    pub num_attr: i32,
    pub r_max_rec: i32,
    pub r_num_dims: i32,
    pub nz_vars: i32,
    pub uir_head: u64,
    pub rfu_c: i32,
    pub leap_second_last_updated: i32,
    pub rfu_e: i32,
}

/// The fields in the bytes of a record.
fn gdr_in(bytes: &[u8]) -> Gdr
    requires { (gdr_r_dim_size 0).place ≤ length bytes.now }
    ensures { (field : ℕ → ℕ → ℕ) (start : ℕ) → Shows bytes.now field start → result ≡ gdr_by field start }
{
    Gdr {
        record_size: unsigned8(bytes, RECORD_SIZE),
        record_type: signed4(bytes, RECORD_TYPE),
        r_vdr_head: unsigned8(bytes, GDR_R_VDR_HEAD),
        z_vdr_head: unsigned8(bytes, GDR_Z_VDR_HEAD),
        adr_head: unsigned8(bytes, GDR_ADR_HEAD),
        eof: unsigned8(bytes, GDR_EOF),
        nr_vars: signed4(bytes, GDR_NR_VARS),
        num_attr: signed4(bytes, GDR_NUM_ATTR),
        r_max_rec: signed4(bytes, GDR_R_MAX_REC),
        r_num_dims: signed4(bytes, GDR_R_NUM_DIMS),
        nz_vars: signed4(bytes, GDR_NZ_VARS),
        uir_head: unsigned8(bytes, GDR_UIR_HEAD),
        rfu_c: signed4(bytes, GDR_RFU_C),
        leap_second_last_updated: signed4(bytes, GDR_LEAP_SECOND_LAST_UPDATED),
        rfu_e: signed4(bytes, GDR_RFU_E),
    }
}

/// The fields of the Global Descriptor Record at a place.
pub fn read_gdr<A: Area>(area: &mut A, at: u64) -> Result<Gdr, AreaError>
    requires { at + (gdr_r_dim_size 0).place ≤ length (A.image area.old) }
    ensures value { IfOk result (λ head. head ≡ gdr_at (A.image area.old) at) }
    ensures bytes { OnOk result (AreBytes (A.image area.old) at (gdr_r_dim_size 0).place) }
    ensures area { Reads A.image A.frame A.faults A.edited area.old area.new result }
{
    let mut bytes = [0u8; HEAD_SIZE];
    read_piece(area, at, &mut bytes)?;
    Ok(gdr_in(&bytes))
}
