//! How many records a variable has once some are gone and later ones keep their numbers.

ghost use Rattle.std.specs.Prelude.{◌≡◌, ◌<◌, ◌≤◌, List, length, true, IfOk};
ghost use Rattle.cdf_area.specs.Calls.{Reads};
ghost use Rattle.cdf_edits.specs.Edits.Standing.{StandsAmong};
ghost use Rattle.cdf_edits.specs.Index.Blocks.{extent_after, is_sparse};
ghost use Rattle.cdf_format.specs.Content.{variable_of};
ghost use Rattle.cdf_format.specs.Index.{leaves_of};
ghost use Rattle.cdf_format.specs.Shape.{VariableShape, shape, variables, vdrs};
ghost use Rattle.cdf_format.specs.Tiles.{In};
ghost use Rattle.cdf_format.specs.VariableFields.{max_rec_at};
ghost use Rattle.cdf_format.specs.WellFormed.{Good};
ghost use Rattle.cdf_index.specs.Finding.{HasIndex, index_at};
ghost use Rattle.cdf_model.specs.DataSet.{extent};
ghost use Rattle.cdf_model.specs.Limits.{image_limit};
ghost use Rattle.cdf_model.specs.declared.kinds.Kind.{Kind};
ghost use Rattle.cdf_sparse_reads.specs.Left.{IsEnd};

use cdf_area::{Area, AreaError};
use cdf_format::fields::VDR_VXR_HEAD;
use cdf_records::read_unsigned8;
use cdf_var_records::last_before;

/// One past the last record before a bound that the index has to which a link leads, or 0 where it has none there.
fn read_end_before<A: Area>(area: &mut A, head: u64, bound: u32) -> Result<u32, AreaError>
    requires index { HasIndex (A.image area.old) head }
    requires short { length (A.image area.old) ≤ image_limit }
    ensures end { IfOk result (IsEnd (leaves_of (index_at (A.image area.old) head)) bound) }
    ensures area { Reads A.image A.frame A.faults A.edited area.old area.new result }
{
    if bound == 0 {
        return Ok(0);
    }
    let found = last_before(area, head, None, bound - 1)?;
    match found {
        Some(leaf) => Ok(leaf.last.min(bound - 1) + 1),
        None => Ok(0),
    }
}

/// How many records the variable whose descriptor stands at a place has by its rule for missing records, one past its last stored one, once those
/// from a first to a last are gone, of so many.
#[tactic(auto, using(cdf_area::proofs::Calls::read_done, cdf_area::proofs::Calls::read_failed, cdf_area::proofs::Calls::read_more, cdf_area::proofs::Calls::read_once))]
pub fn read_extent_after<A: Area>(
    area: &mut A,
    vdr: u64,
    first: u32,
    last: u32,
    count: u32,
) -> Result<u32, AreaError>
    requires good { Good (A.image area.old) }
    requires vdr { In vdr (vdrs (variables (shape (A.image area.old)))) }
    requires order { first ≤ last }
    requires has { last < count }
    requires count { count ≡ extent (max_rec_at (A.image area.old) vdr) }
    requires short { length (A.image area.old) ≤ image_limit }
    ensures left { IfOk result (λ n. (kind : Kind) (before : List VariableShape) (own : VariableShape) (after : List VariableShape) → StandsAmong (A.image area.old) kind before own after → own.vdr ≡ vdr → is_sparse (variable_of (A.image area.old) own).sparse ≡ true → n ≡ extent_after (variable_of (A.image area.old) own) first last) }
    ensures few { IfOk result (λ n. n ≤ count) }
    ensures area { Reads A.image A.frame A.faults A.edited area.old area.new result }
{
    // An image has fewer than 2^64 bytes, so no place in it overflows.
    let _size = area.size();
    let head = read_unsigned8(area, vdr + VDR_VXR_HEAD)?;
    let end = read_end_before(area, head, count)?;
    if end > last + 1 {
        return Ok(end);
    }
    read_end_before(area, head, first)
}
