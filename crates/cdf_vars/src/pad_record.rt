//! A pad value is written where a descriptor has room for it, and else in a descriptor that takes the place of the old one.

ghost use Rattle.std.specs.Prelude.{◌≡◌, ◌+◌, ◌-◌, ◌++◌, ◌<◌, ◌≤◌, length, slice_index, None, IfOk, OnOk, OnErr};
ghost use Rattle.std.specs.List.{last_or};
ghost use Rattle.byteorder.specs.Endian.{big_bytes};
ghost use Rattle.cdf_area.specs.Calls.{Edits};
ghost use Rattle.cdf_base.specs.Bytes.{put};
ghost use Rattle.cdf_edits.specs.Commands.Allowances.{shapes_of};
ghost use Rattle.cdf_edits.specs.Space.Chains.{before, members_of};
ghost use Rattle.cdf_edits.specs.Space.VariableChains.{variables_chain};
ghost use Rattle.cdf_format.specs.Fields.{with_field};
ghost use Rattle.cdf_format.specs.Records.{vdr_flags, past, record_size, vdr_name};
ghost use Rattle.cdf_format.specs.Shape.{shape, vdrs};
ghost use Rattle.cdf_format.specs.VariableFields.{value_bytes};
ghost use Rattle.cdf_format.specs.WellFormed.{Good};
ghost use Rattle.cdf_model.specs.Limits.{image_limit};
ghost use Rattle.cdf_var_records.specs.Descriptors.{IsPlace, IsVdr};
ghost use Rattle.cdf_vars.specs.Padding.{IsPadded, MovedTo, Moves, padded_flags};

use crate::chain::chain_of;
use cdf_area::{Area, AreaError};
use cdf_format::fields::{RECORD_TYPE, VDR_FLAGS, VDR_PAD_BIT};
use cdf_model::Kind;
use cdf_records::{read_bytes, read_vdr, set_vdr_flags};
use cdf_space::{exchange_record, free_record};
use cdf_var_records::PadPlace;
use std::alloc::{AllocError, Global};

/// What the bit of Flags counts that says that there is a pad value.
const HAS_PAD: u32 = 1 << VDR_PAD_BIT;

/// Flags of a variable that has a pad value.
fn padded(flags: u32) -> u32
    ensures { result ≡ padded_flags flags }
{
    let others = flags % HAS_PAD + flags / (2 * HAS_PAD) * (2 * HAS_PAD);
    others + HAS_PAD
}

/// Writes a pad value where it belongs, and that there is one. After an error a part of this may have been done.
pub fn write_pad<A: Area>(area: &mut A, place: PadPlace, value: &[u8]) -> Result<(), AreaError>
    requires late { past vdr_name ≤ place.at }
    requires inside { place.vdr + (place.at + length value.now) ≤ length (A.image area.old) }
    ensures written { OnOk result (A.image area.new ≡ put (with_field (A.image area.old) place.vdr vdr_flags (padded_flags place.flags)) (place.vdr + place.at) value.now) }
    ensures area { Edits A.frame A.faults area.old area.new result }
{
    // An image has fewer than 2^64 bytes, so no place in it overflows.
    let _size = area.size();
    set_vdr_flags(area, place.vdr, padded(place.flags))?;
    area.set(place.vdr + place.at, value)
}

/// What follows the size of a descriptor with a pad value, from what does so in the old one up to there.
fn padded_bytes(alloc: Global, old: &[u8], flags: u32, value: &[u8]) -> Result<Vec<u8>, AllocError>
    requires { past vdr_flags - past record_size ≤ length old.now }
    ensures { IfOk result (λ bytes. bytes.items ≡ put old.now (vdr_flags.place - past record_size) (big_bytes vdr_flags.width (padded_flags flags)) ++ value.now) }
{
    let flags_at = (VDR_FLAGS - RECORD_TYPE) as usize;
    let mut bytes = Vec::new(alloc);
    bytes.extend_from_slice(&old[..flags_at])?;
    bytes.extend_from_slice(&padded(flags).to_be_bytes())?;
    bytes.extend_from_slice(&old[flags_at + 4..])?;
    bytes.extend_from_slice(value)?;
    Ok(bytes)
}

/// Makes a descriptor with these bytes behind its size in place of one of a kind, which stands behind another one, or is the first
/// where none is given; and frees the old one after that. Gives the new place. After an error a part of this may have been done.
#[tactic(auto, using(cdf_area::proofs::Calls::edit_done, cdf_area::proofs::Calls::edit_failed, cdf_area::proofs::Calls::edit_more, cdf_area::proofs::Calls::edit_once, cdf_area::proofs::Calls::edits_by_read))]
fn replace_vdr<A: Area>(
    area: &mut A,
    kind: Kind,
    behind: Option<u64>,
    old: u64,
    bytes: &[u8],
) -> Result<u64, AreaError>
    requires good { Good (A.image area.old) }
    requires vdr { IsVdr (A.image area.old) kind old }
    requires behind { behind ≡ last_or None (before old (members_of (A.image area.old) (variables_chain kind))) }
    requires padded { IsPadded (A.image area.old) old bytes.now }
    requires room { length (A.image area.old) + (past record_size + length bytes.now) ≤ (A.frame area.old).limit }
    requires limit { (A.frame area.old).limit ≤ image_limit }
    ensures moved { IfOk result (MovedTo (A.image area.old) (A.image area.new) kind old bytes.now) }
    ensures area { Edits A.frame A.faults area.old area.new result }
{
    let place = exchange_record(area, chain_of(kind), behind, old, bytes)?;
    // What is freed next has to leave the new record whole, and that its fields are bytes is known of what was read.
    let _linked = read_vdr(area, place)?;
    free_record(area, old)?;
    Ok(place)
}

/// Makes a descriptor with a pad value in place of the one of a number among those of a kind, which has no room for it.
/// After an error a part of this may have been done in the area.
#[tactic(auto, using(cdf_area::proofs::Calls::edit_failed, cdf_area::proofs::Calls::edit_without_memory, cdf_area::proofs::Calls::edits_by_read, cdf_area::proofs::Calls::keeps_by_read, cdf_area::proofs::Calls::read_once))]
pub fn move_vdr<A: Area>(
    alloc: Global,
    area: &mut A,
    kind: Kind,
    places: &mut Vec<u64>,
    num: u32,
    place: PadPlace,
    value: &[u8],
) -> Result<(), AreaError>
    requires good { Good (A.image area.old) }
    requires places { places.old.items ≡ vdrs (shapes_of (shape (A.image area.old)) kind) }
    requires within { num < length places.old.items }
    requires vdr { place.vdr ≡ slice_index places.old.items num }
    requires place { IsPlace (A.image area.old) place.vdr place }
    requires long { length value.now ≡ value_bytes (A.image area.old) place.vdr }
    requires short { place.size < place.at + length value.now }
    requires room { length (A.image area.old) + (place.at + length value.now) ≤ (A.frame area.old).limit }
    requires limit { (A.frame area.old).limit ≤ image_limit }
    ensures moves { OnOk result (Moves (A.image area.old) (A.image area.new) kind place value.now places.old.items places.new.items num) }
    ensures stays { OnErr result (places.new.items ≡ places.old.items) }
    ensures area { Edits A.frame A.faults area.old area.new result }
{
    let behind = places[..num as usize].last().copied();
    let old = read_bytes(alloc, area, place.vdr + RECORD_TYPE, place.at - RECORD_TYPE)?;
    let bytes = padded_bytes(alloc, &old, place.flags, value)?;
    let by = replace_vdr(area, kind, behind, place.vdr, &bytes)?;
    places[num as usize] = by;
    Ok(())
}
