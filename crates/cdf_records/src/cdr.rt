//! The CDF Descriptor Record, read.

ghost use Rattle.std.specs.Prelude.{◌≡◌, ◌+◌, ◌≤◌, ℕ, length, IfOk, OnOk};
ghost use Rattle.cdf_area.specs.Calls.{Reads};
ghost use Rattle.cdf_format.specs.Records.{cdr_copyright};
ghost use Rattle.cdf_records.specs.Heads.{cdr_at, cdr_by};
ghost use Rattle.cdf_records.specs.Pieces.{AreBytes, Shows};

use crate::field::{read_piece, signed4, unsigned4, unsigned8};
use cdf_area::{Area, AreaError};
use cdf_format::fields::{
    CDR_COPYRIGHT, CDR_ENCODING, CDR_FLAGS, CDR_GDR_OFFSET, CDR_IDENTIFIER, CDR_INCREMENT,
    CDR_RELEASE, CDR_RFU_A, CDR_RFU_B, CDR_RFU_E, CDR_VERSION, RECORD_SIZE, RECORD_TYPE,
};

/// The bytes of the fields that are read.
const HEAD_SIZE: usize = CDR_COPYRIGHT as usize;

/// The CDF Descriptor Record, but for its Copyright.
#[derive(Clone, Copy, Debug, PartialEq, Eq)]
pub struct Cdr {
    pub record_size: u64,
    pub record_type: i32,
    pub gdr_offset: u64,
    pub version: i32,
    pub release: i32,
    pub encoding: i32,
    pub flags: u32,
    pub rfu_a: i32,
    pub rfu_b: i32,
    pub increment: i32,
    pub identifier: i32,
    pub rfu_e: i32,
}

/// The fields in the bytes of a record.
fn cdr_in(bytes: &[u8]) -> Cdr
    requires { cdr_copyright.place ≤ length bytes.now }
    ensures { (field : ℕ → ℕ → ℕ) (start : ℕ) → Shows bytes.now field start → result ≡ cdr_by field start }
{
    Cdr {
        record_size: unsigned8(bytes, RECORD_SIZE),
        record_type: signed4(bytes, RECORD_TYPE),
        gdr_offset: unsigned8(bytes, CDR_GDR_OFFSET),
        version: signed4(bytes, CDR_VERSION),
        release: signed4(bytes, CDR_RELEASE),
        encoding: signed4(bytes, CDR_ENCODING),
        flags: unsigned4(bytes, CDR_FLAGS),
        rfu_a: signed4(bytes, CDR_RFU_A),
        rfu_b: signed4(bytes, CDR_RFU_B),
        increment: signed4(bytes, CDR_INCREMENT),
        identifier: signed4(bytes, CDR_IDENTIFIER),
        rfu_e: signed4(bytes, CDR_RFU_E),
    }
}

/// The fields of the CDF Descriptor Record at a place.
pub fn read_cdr<A: Area>(area: &mut A, at: u64) -> Result<Cdr, AreaError>
    requires { at + cdr_copyright.place ≤ length (A.image area.old) }
    ensures value { IfOk result (λ head. head ≡ cdr_at (A.image area.old) at) }
    ensures bytes { OnOk result (AreBytes (A.image area.old) at cdr_copyright.place) }
    ensures area { Reads A.image A.frame A.faults A.edited area.old area.new result }
{
    let mut bytes = [0u8; HEAD_SIZE];
    read_piece(area, at, &mut bytes)?;
    Ok(cdr_in(&bytes))
}
