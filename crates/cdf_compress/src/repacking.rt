//! Packing of a variable that has no block and no node turned on or off.

ghost use Rattle.std.specs.Prelude.{◌≡◌, ◌≤◌, ◌+◌, List, length, true, false, IfOk, OnOk};
ghost use Rattle.cdf_area.specs.Calls.{Edits};
ghost use Rattle.cdf_compress.specs.Repacking.{IsRepacked, cpr_body, packed_flags, with_packing};
ghost use Rattle.cdf_edits.specs.Edits.Standing.{StandsAmong};
ghost use Rattle.cdf_format.specs.Fields.{number};
ghost use Rattle.cdf_format.specs.Records.{cpr_bytes, past, vdr_cpr_or_spr_offset, vdr_flags, vdr_vxr_head};
ghost use Rattle.cdf_format.specs.Shape.{VariableShape, is_compressed, shape, variables, vdrs};
ghost use Rattle.cdf_format.specs.Tiles.{In};
ghost use Rattle.cdf_format.specs.WellFormed.{Good};
ghost use Rattle.cdf_model.specs.Limits.{image_limit};
ghost use Rattle.cdf_model.specs.declared.kinds.Kind.{Kind};

use cdf_area::{Area, AreaError};
use cdf_format::fields::{CPR_TYPE, VDR_COMPRESSION_BIT, VDR_CPR_OR_SPR_OFFSET};
use cdf_format::flags::has_bit;
use cdf_records::{read_unsigned8, set_unsigned8, set_vdr_flags};
use cdf_space::{free_records, place_record};
use std::alloc::{AllocError, Global};

/// What the bit of Flags counts that says that records are packed.
const PACKED: u32 = 1 << VDR_COMPRESSION_BIT;

/// Flags that say whether records are packed, their other bits as they were.
fn packed_flags(flags: u32, rle: bool) -> u32
    ensures { result ≡ packed_flags flags rle }
{
    let others = flags % PACKED + flags / (2 * PACKED) * (2 * PACKED);
    if rle { others + PACKED } else { others }
}

/// Lets a descriptor say whether records are packed, and where the parameters stand.
fn write_packing<A: Area>(
    area: &mut A,
    vdr: u64,
    flags: u32,
    rle: bool,
    link: u64,
) -> Result<(), AreaError>
    requires flags { flags ≡ number (A.image area.old) vdr vdr_flags }
    requires inside { vdr + past vdr_cpr_or_spr_offset ≤ length (A.image area.old) }
    ensures written { OnOk result (A.image area.new ≡ with_packing (A.image area.old) vdr rle link) }
    ensures area { Edits A.frame A.faults area.old area.new result }
{
    set_vdr_flags(area, vdr, packed_flags(flags, rle))?;
    set_unsigned8(area, vdr, VDR_CPR_OR_SPR_OFFSET, link)
}

/// Turns packing off of the variable whose descriptor stands at a place, which has no block and no node, and frees its parameters, if it has any.
/// After an error a part of this may have been done.
#[tactic(auto, using(cdf_area::proofs::Calls::edit_done, cdf_area::proofs::Calls::edit_failed, cdf_area::proofs::Calls::edit_more, cdf_area::proofs::Calls::edits_by_read, cdf_area::proofs::Calls::keeps_by_read, cdf_area::proofs::Calls::read_failed, cdf_area::proofs::Calls::read_more, cdf_area::proofs::Calls::read_once))]
pub fn turn_off<A: Area>(area: &mut A, vdr: u64, flags: u32) -> Result<(), AreaError>
    requires good { Good (A.image area.old) }
    requires vdr { In vdr (vdrs (variables (shape (A.image area.old)))) }
    requires empty { number (A.image area.old) vdr vdr_vxr_head ≡ 0 }
    requires flags { flags ≡ number (A.image area.old) vdr vdr_flags }
    requires short { length (A.image area.old) ≤ image_limit }
    ensures repacked { OnOk result ((kind : Kind) (before : List VariableShape) (own : VariableShape) (after : List VariableShape) → StandsAmong (A.image area.old) kind before own after → own.vdr ≡ vdr → IsRepacked (A.image area.old) (A.image area.new) kind before own after false) }
    ensures area { Edits A.frame A.faults area.old area.new result }
{
    // An image has fewer than 2^64 bytes, so no place in it overflows.
    let _size = area.size();
    let cpr = read_unsigned8(area, vdr + VDR_CPR_OR_SPR_OFFSET)?;
    write_packing(area, vdr, flags, false, u64::MAX)?;
    if has_bit(flags, VDR_COMPRESSION_BIT) {
        return free_records(area, &[cpr]);
    }
    Ok(())
}

/// The parameters of run lengths of zeros, behind the size of their record.
fn cpr_body(alloc: Global) -> Result<Vec<u8>, AllocError>
    ensures { IfOk result (λ body. body.items ≡ cpr_body) }
{
    let mut body = Vec::new(alloc);
    body.extend_from_slice(&CPR_TYPE.to_be_bytes())?;
    // cType, rfuA, pCount and the parameter
    body.extend_from_slice(&1u32.to_be_bytes())?;
    body.extend_from_slice(&0u32.to_be_bytes())?;
    body.extend_from_slice(&1u32.to_be_bytes())?;
    body.extend_from_slice(&0u32.to_be_bytes())?;
    Ok(body)
}

/// Turns packing on of the variable whose descriptor stands at a place, which has no block, no node and no parameters, and takes a record for these.
/// After an error a part of this may have been done.
#[tactic(auto, using(cdf_area::proofs::Calls::edit_done, cdf_area::proofs::Calls::edit_failed, cdf_area::proofs::Calls::edit_more, cdf_area::proofs::Calls::edit_once, cdf_area::proofs::Calls::edit_without_memory))]
pub fn turn_on<A: Area>(alloc: Global, area: &mut A, vdr: u64, flags: u32) -> Result<(), AreaError>
    requires good { Good (A.image area.old) }
    requires vdr { In vdr (vdrs (variables (shape (A.image area.old)))) }
    requires empty { number (A.image area.old) vdr vdr_vxr_head ≡ 0 }
    requires loose { is_compressed (A.image area.old) vdr ≡ false }
    requires flags { flags ≡ number (A.image area.old) vdr vdr_flags }
    requires fits { length (A.image area.old) + cpr_bytes 1 ≤ (A.frame area.old).limit }
    requires limit { (A.frame area.old).limit ≤ image_limit }
    ensures repacked { OnOk result ((kind : Kind) (before : List VariableShape) (own : VariableShape) (after : List VariableShape) → StandsAmong (A.image area.old) kind before own after → own.vdr ≡ vdr → IsRepacked (A.image area.old) (A.image area.new) kind before own after true) }
    ensures area { Edits A.frame A.faults area.old area.new result }
{
    let body = cpr_body(alloc)?;
    let place = place_record(area, &body)?;
    write_packing(area, vdr, flags, true, place)
}
