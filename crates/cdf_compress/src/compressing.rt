//! Whether the records of a variable are packed is set: the call that carries out `set-compress`.

ghost use Rattle.std.specs.Prelude.{◌≡◌, ◌≤◌, ◌+◌, List, length, OnOk};
ghost use Rattle.cdf_area.specs.Calls.{Edits};
ghost use Rattle.cdf_compress.specs.Compressing.{CompressionSet, packing_room};
ghost use Rattle.cdf_compress.specs.Repacking.{IsRepacked};
ghost use Rattle.cdf_edits.specs.Edits.Standing.{StandsAmong};
ghost use Rattle.cdf_format.specs.Fields.{number};
ghost use Rattle.cdf_format.specs.Records.{vdr_vxr_head};
ghost use Rattle.cdf_format.specs.Shape.{VariableShape, shape, variables, vdrs};
ghost use Rattle.cdf_format.specs.Tiles.{In};
ghost use Rattle.cdf_format.specs.VariableFields.{max_rec_at};
ghost use Rattle.cdf_format.specs.WellFormed.{Good};
ghost use Rattle.cdf_model.specs.DataSet.{extent};
ghost use Rattle.cdf_model.specs.Limits.{image_limit};
ghost use Rattle.cdf_model.specs.declared.kinds.Kind.{Kind};

use crate::emptying::cut_all;
use crate::repacking::{turn_off, turn_on};
use cdf_area::{Area, AreaError};
use cdf_format::fields::{VDR_COMPRESSION_BIT, VDR_FLAGS};
use cdf_format::flags::has_bit;
use cdf_records::read_unsigned4;
use std::alloc::Global;

/// Turns packing on or off of the variable whose descriptor stands at a place, which has no block and no node. One that is packed already and is
/// to be stays as it is. After an error a part of this may have been done.
#[tactic(auto, using(cdf_area::proofs::Calls::edit_done, cdf_area::proofs::Calls::edit_failed, cdf_area::proofs::Calls::edit_more, cdf_area::proofs::Calls::edits_by_read, cdf_area::proofs::Calls::keeps_by_read, cdf_area::proofs::Calls::read_failed, cdf_area::proofs::Calls::read_more, cdf_area::proofs::Calls::read_once))]
fn set_packing<A: Area>(alloc: Global, area: &mut A, vdr: u64, rle: bool) -> Result<(), AreaError>
    requires good { Good (A.image area.old) }
    requires vdr { In vdr (vdrs (variables (shape (A.image area.old)))) }
    requires empty { number (A.image area.old) vdr vdr_vxr_head ≡ 0 }
    requires fits { length (A.image area.old) + packing_room (A.image area.old) vdr rle ≤ (A.frame area.old).limit }
    requires limit { (A.frame area.old).limit ≤ image_limit }
    ensures repacked { OnOk result ((kind : Kind) (before : List VariableShape) (own : VariableShape) (after : List VariableShape) → StandsAmong (A.image area.old) kind before own after → own.vdr ≡ vdr → IsRepacked (A.image area.old) (A.image area.new) kind before own after rle) }
    ensures area { Edits A.frame A.faults area.old area.new result }
{
    // An image has fewer than 2^64 bytes, so no place in it overflows.
    let _size = area.size();
    let flags = read_unsigned4(area, vdr + VDR_FLAGS)?;
    if !rle {
        return turn_off(area, vdr, flags);
    }
    if has_bit(flags, VDR_COMPRESSION_BIT) {
        return Ok(());
    }
    turn_on(alloc, area, vdr, flags)
}

/// Sets whether records are packed of the variable whose descriptor stands at a place, and which has no records: the command `set-compress`. Blocks
/// and nodes that it has yet go, and the record of its parameters is taken where there is none, or freed. After an error a part of this may have
/// been done.
#[tactic(auto, using(cdf_area::proofs::Calls::edit_done, cdf_area::proofs::Calls::edit_failed, cdf_area::proofs::Calls::edit_more))]
pub fn set_compression<A: Area>(
    alloc: Global,
    area: &mut A,
    vdr: u64,
    rle: bool,
) -> Result<(), AreaError>
    requires good { Good (A.image area.old) }
    requires vdr { In vdr (vdrs (variables (shape (A.image area.old)))) }
    requires none { extent (max_rec_at (A.image area.old) vdr) ≡ 0 }
    requires fits { length (A.image area.old) + packing_room (A.image area.old) vdr rle ≤ (A.frame area.old).limit }
    requires limit { (A.frame area.old).limit ≤ image_limit }
    ensures set { OnOk result ((kind : Kind) (before : List VariableShape) (own : VariableShape) (after : List VariableShape) → StandsAmong (A.image area.old) kind before own after → own.vdr ≡ vdr → CompressionSet (A.image area.old) (A.image area.new) kind before own rle) }
    ensures area { Edits A.frame A.faults area.old area.new result }
{
    cut_all(alloc, area, vdr)?;
    set_packing(alloc, area, vdr, rle)
}
