//! Records cut out at the end of an index of which no node is empty.

ghost use Rattle.std.specs.Prelude.{◌≡◌, ◌≤◌, List, length, true, IfOk, OnOk, false};
ghost use Rattle.cdf_area.specs.Calls.{Edits};
ghost use Rattle.cdf_cuts.specs.Past.{CutPast, cut_off};
ghost use Rattle.cdf_edits.specs.Edits.Standing.{StandsAmong};
ghost use Rattle.cdf_format.specs.Fields.{number};
ghost use Rattle.cdf_format.specs.Records.{vdr_vxr_head};
ghost use Rattle.cdf_format.specs.Shape.{VariableShape, shape, variables, vdrs, is_compressed};
ghost use Rattle.cdf_format.specs.Tiles.{In};
ghost use Rattle.cdf_format.specs.WellFormed.{Good};
ghost use Rattle.cdf_index.specs.Finding.{index_at};
ghost use Rattle.cdf_model.specs.Limits.{image_limit};
ghost use Rattle.cdf_model.specs.declared.kinds.Kind.{Kind};
ghost use Rattle.cdf_puts.specs.Starts.{IsKnownStart};
ghost use Rattle.cdf_puts.specs.TidyIndex.{IsTidy};
ghost use Rattle.cdf_trim.specs.Trimming.{KeepsBlocks};

use crate::last_entry::find_last_entry;
use cdf_area::{Area, AreaError};
use cdf_cuts::cut_past;
use cdf_format::fields::VDR_VXR_HEAD;
use cdf_index::{Entry, set_entry};
use cdf_records::read_unsigned8;
use std::alloc::Global;

/// Takes all records from a first one on out of the index of the variable whose descriptor stands at a place, as `cut_past` does, where no node of
/// the index is empty, and a node of its top chain may be known. Where these are records of the last block alone, and not all of it, one field of a
/// node is written. Says whether it is known that each block stays. After an error a part of this may have been done.
pub fn trim_past<A: Area>(
    alloc: Global,
    area: &mut A,
    vdr: u64,
    known: Option<u64>,
    first: u32,
) -> Result<bool, AreaError>
    requires good { Good (A.image area.old) }
    requires vdr { In vdr (vdrs (variables (shape (A.image area.old)))) }
    requires unpacked { is_compressed (A.image area.old) vdr ≡ false }
    requires start { IsKnownStart (A.image area.old) vdr known }
    requires tidy { IsTidy (index_at (A.image area.old) (number (A.image area.old) vdr vdr_vxr_head)) }
    requires short { length (A.image area.old) ≤ image_limit }
    ensures past { OnOk result ((kind : Kind) (before : List VariableShape) (own : VariableShape) (after : List VariableShape) → StandsAmong (A.image area.old) kind before own after → own.vdr ≡ vdr → CutPast (A.image area.old) (A.image area.new) kind before own (cut_off own first) after first) }
    ensures stays { IfOk result (λ stays. stays ≡ true → KeepsBlocks first (index_at (A.image area.old) (number (A.image area.old) vdr vdr_vxr_head))) }
    ensures area { Edits A.frame A.faults area.old area.new result }
{
    // An image has fewer than 2^64 bytes, so no place in it overflows.
    let _size = area.size();
    let head = read_unsigned8(area, vdr + VDR_VXR_HEAD)?;
    let Some(last) = find_last_entry(area, head, known)? else {
        return Ok(true);
    };
    if last.leaf.last < first {
        return Ok(true);
    }
    if first <= last.leaf.first {
        cut_past(alloc, area, vdr, first)?;
        return Ok(false);
    }
    let shorter = Entry {
        first: last.leaf.first,
        last: first - 1,
        place: last.leaf.at,
    };
    set_entry(area, last.node, last.room, last.number, shorter)?;
    Ok(true)
}
