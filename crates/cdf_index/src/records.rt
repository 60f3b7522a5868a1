//! Records, read from their blocks and written into them.

ghost use Rattle.std.specs.Prelude.{◌≡◌, ◌+◌, ◌-◌, ◌*◌, ◌≤◌, ℕ, length, IfOk, OnOk};
ghost use Rattle.cdf_area.specs.Calls.{Overwrites, Reads};
ghost use Rattle.cdf_base.specs.Bytes.{put};
ghost use Rattle.cdf_format.specs.Content.{plain_bytes};
ghost use Rattle.cdf_format.specs.VariableFields.{record_bytes};
ghost use Rattle.cdf_format.specs.Records.{vvr_place};
ghost use Rattle.cdf_model.specs.Limits.{image_limit};
ghost use Rattle.cdf_index.specs.Reading.{HoldsRecords, record_in};
ghost use Rattle.cdf_index.specs.Sight.{seen};

use crate::nodes::Leaf;
use cdf_area::{Area, AreaError};
use cdf_format::fields::VVR_RECORDS;
use cdf_records::read_bytes;
use std::alloc::Global;

/// The bytes of a record, as they are stored, from a block that is not packed.
#[tactic(auto, using(crate::proofs::RecordRead::record_is))]
pub fn read_rec<A: Area>(
    alloc: Global,
    area: &mut A,
    leaf: &Leaf,
    rec_bytes: u64,
    rec: u32,
) -> Result<Vec<u8>, AreaError>
    requires block { HoldsRecords (A.image area.old) leaf.now rec_bytes }
    requires from { leaf.now.first ≤ rec }
    requires upto { rec ≤ leaf.now.last }
    requires short { length (A.image area.old) ≤ image_limit }
    ensures value { IfOk result (λ bytes. (vdr : ℕ) → record_bytes (A.image area.old) vdr ≡ rec_bytes → bytes.items ≡ record_in (plain_bytes (A.image area.old) vdr (seen leaf.now)) rec_bytes (rec - leaf.now.first)) }
    ensures area { Reads A.image A.frame A.faults A.edited area.old area.new result }
{
    let number = (rec - leaf.first) as u64;
    let place = leaf.at + (VVR_RECORDS + number * rec_bytes);
    read_bytes(alloc, area, place, rec_bytes)
}

/// Writes records, from one of a number on, into a block that is not packed. After an error the image stays.
pub fn write_recs<A: Area>(
    area: &mut A,
    leaf: &Leaf,
    rec_bytes: u64,
    rec: u32,
    bytes: &[u8],
) -> Result<(), AreaError>
    requires block { HoldsRecords (A.image area.old) leaf.now rec_bytes }
    requires from { leaf.now.first ≤ rec }
    requires within { (rec - leaf.now.first) * rec_bytes + length bytes.now ≤ (leaf.now.last + 1 - leaf.now.first) * rec_bytes }
    requires short { length (A.image area.old) ≤ image_limit }
    ensures written { OnOk result (A.image area.new ≡ put (A.image area.old) (leaf.now.at + vvr_place ((rec - leaf.now.first) * rec_bytes)) bytes.now) }
    ensures area { Overwrites A.image A.frame A.faults area.old area.new result }
{
    let number = (rec - leaf.first) as u64;
    area.set(leaf.at + (VVR_RECORDS + number * rec_bytes), bytes)
}
