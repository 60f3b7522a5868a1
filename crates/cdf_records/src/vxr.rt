//! Variable Index Records, read.

ghost use Rattle.std.specs.Prelude.{◌≡◌, ◌+◌, ◌≤◌, ℕ, length, IfOk, OnOk};
ghost use Rattle.cdf_area.specs.Calls.{Reads};
ghost use Rattle.cdf_format.specs.Records.{vxr_first};
ghost use Rattle.cdf_records.specs.Heads.{vxr_at, vxr_by};
ghost use Rattle.cdf_records.specs.Pieces.{AreBytes, Shows};

use crate::field::{read_piece, signed4, unsigned8};
use crate::steps::Steps;
use cdf_area::{Area, AreaError};
use cdf_format::fields::{
    RECORD_SIZE, RECORD_TYPE, VXR_FIRST, VXR_N_ENTRIES, VXR_N_USED_ENTRIES, VXR_VXR_NEXT,
};
use std::sync::ledger::Ledger;

/// The bytes of the fields that are read.
const HEAD_SIZE: usize = VXR_FIRST as usize;

/// A Variable Index Record, but for its entries.
#[derive(Clone, Copy, Debug, PartialEq, Eq)]
pub struct Vxr {
    pub record_size: u64,
    pub record_type: i32,
    pub vxr_next: u64,
    pub n_entries: i32,
    pub n_used_entries: i32,
}

/// The fields in the bytes of a record.
fn vxr_in(bytes: &[u8]) -> Vxr
    requires { (vxr_first 0).place ≤ length bytes.now }
    ensures { (field : ℕ → ℕ → ℕ) (start : ℕ) → Shows bytes.now field start → result ≡ vxr_by field start }
{
    Vxr {
        record_size: unsigned8(bytes, RECORD_SIZE),
        record_type: signed4(bytes, RECORD_TYPE),
        vxr_next: unsigned8(bytes, VXR_VXR_NEXT),
        n_entries: signed4(bytes, VXR_N_ENTRIES),
        n_used_entries: signed4(bytes, VXR_N_USED_ENTRIES),
    }
}

/// The fields of a Variable Index Record at a place. It takes one step, also where it fails.
pub fn read_vxr<A: Area, L: Ledger>(
    area: &mut A,
    at: u64,
    steps: &mut Steps<L>,
) -> Result<Vxr, AreaError>
    requires { at + (vxr_first 0).place ≤ length (A.image area.old) }
    ensures value { IfOk result (λ head. head ≡ vxr_at (A.image area.old) at) }
    ensures bytes { OnOk result (AreBytes (A.image area.old) at (vxr_first 0).place) }
    ensures step { steps.new ≡ steps.old + 1 }
    ensures area { Reads A.image A.frame A.faults A.edited area.old area.new result }
{
    steps.tick();
    let mut bytes = [0u8; HEAD_SIZE];
    read_piece(area, at, &mut bytes)?;
    Ok(vxr_in(&bytes))
}
