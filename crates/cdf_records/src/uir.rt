//! Unused Internal Records, read.

ghost use Rattle.std.specs.Prelude.{◌≡◌, ◌+◌, ◌≤◌, ℕ, length, IfOk, OnOk};
ghost use Rattle.cdf_area.specs.Calls.{Reads};
ghost use Rattle.cdf_format.specs.Records.{linked_size};
ghost use Rattle.cdf_records.specs.Heads.{uir_at, uir_by};
ghost use Rattle.cdf_records.specs.Pieces.{AreBytes, Shows};

use crate::field::{read_piece, signed4, unsigned8};
use cdf_area::{Area, AreaError};
use cdf_format::fields::{LINKED_SIZE, RECORD_SIZE, RECORD_TYPE, UIR_NEXT_UIR, UIR_PREV_UIR};

/// The bytes of the fields that are read.
const HEAD_SIZE: usize = LINKED_SIZE as usize;

/// An Unused Internal Record that may be listed.
#[derive(Clone, Copy, Debug, PartialEq, Eq)]
pub struct Uir {
    pub record_size: u64,
    pub record_type: i32,
    pub next_uir: u64,
    pub prev_uir: u64,
}

/// The fields in the bytes of a record.
fn uir_in(bytes: &[u8]) -> Uir
    requires { linked_size ≤ length bytes.now }
    ensures { (field : ℕ → ℕ → ℕ) (start : ℕ) → Shows bytes.now field start → result ≡ uir_by field start }
{
    Uir {
        record_size: unsigned8(bytes, RECORD_SIZE),
        record_type: signed4(bytes, RECORD_TYPE),
        next_uir: unsigned8(bytes, UIR_NEXT_UIR),
        prev_uir: unsigned8(bytes, UIR_PREV_UIR),
    }
}

/// The fields of an Unused Internal Record at a place.
pub fn read_uir<A: Area>(area: &mut A, at: u64) -> Result<Uir, AreaError>
    requires { at + linked_size ≤ length (A.image area.old) }
    ensures value { IfOk result (λ head. head ≡ uir_at (A.image area.old) at) }
    ensures bytes { OnOk result (AreBytes (A.image area.old) at linked_size) }
    ensures area { Reads A.image A.frame A.faults A.edited area.old area.new result }
{
    let mut bytes = [0u8; HEAD_SIZE];
    read_piece(area, at, &mut bytes)?;
    Ok(uir_in(&bytes))
}
