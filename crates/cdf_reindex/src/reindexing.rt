//! The index of a variable, built anew in the place of the old one.

ghost use Rattle.std.specs.Prelude.{◌≡◌, ◌+◌, ◌*◌, ◌≤◌, List, length, map, IfOk, OnOk};
ghost use Rattle.cdf_area.specs.Calls.{Edits};
ghost use Rattle.cdf_edits.specs.Edits.Standing.{StandsAmong};
ghost use Rattle.cdf_edits.specs.Commands.Room.{node_size, nodes_above, reindex_room};
ghost use Rattle.cdf_format.specs.Fields.{eof, gdr_offset, number};
ghost use Rattle.cdf_format.specs.Index.{leaves_of, nodes_of};
ghost use Rattle.cdf_format.specs.Records.{vdr_vxr_head};
ghost use Rattle.cdf_format.specs.Shape.{VariableShape, shape, variables, vdrs};
ghost use Rattle.cdf_format.specs.Sound.{IsSound};
ghost use Rattle.cdf_format.specs.Tiles.{In};
ghost use Rattle.cdf_format.specs.WellFormed.{Good};
ghost use Rattle.cdf_index.specs.Finding.{index_at};
ghost use Rattle.cdf_index.specs.Whole.{leaf_words};
ghost use Rattle.cdf_model.specs.Limits.{image_limit, level_limit};
ghost use Rattle.cdf_model.specs.declared.kinds.Kind.{Kind};
ghost use Rattle.cdf_reindex.specs.Reindexed.{IsRebuilt, Reindexed};
ghost use Rattle.cdf_reindex.specs.Reindexing.{IndexMade, index_of};

use crate::pyramid::write_levels;
use cdf_area::{Area, AreaError};
use cdf_format::fields::VDR_VXR_HEAD;
use cdf_index::{Entry, index_parts};
use cdf_records::{read_unsigned8, set_vdr_vxr_head, set_vdr_vxr_tail};
use cdf_space::free_records;
use std::alloc::Global;

/// Makes the nodes over entries. Gives the place of the top one, 0 where there are no entries.
/// After an error a part of this may have been done.
fn write_index<A: Area>(alloc: Global, area: &mut A, entries: &[Entry]) -> Result<u64, AreaError>
    requires sound { IsSound (A.image area.old) (shape (A.image area.old)) }
    requires eof { eof (A.image area.old) (gdr_offset (A.image area.old)) ≡ length (A.image area.old) }
    requires few { length entries.now ≤ 2147483648 }
    requires room { length (A.image area.old) + node_size * nodes_above level_limit (length entries.now) ≤ (A.frame area.old).limit }
    requires limit { (A.frame area.old).limit ≤ image_limit }
    ensures made { IfOk result (λ top. IndexMade (A.image area.old) (A.image area.new) entries.now top) }
    ensures area { Edits A.frame A.faults area.old area.new result }
{
    if entries.is_empty() {
        return Ok(0);
    }
    write_levels(alloc, area, entries)
}

/// Builds the index of the variable anew whose VDR stands at a place, with these leaves and nodes: full nodes name the leaves, level by level, and the old nodes are freed.
/// After an error a part of this may have been done.
#[tactic(auto, using(cdf_format::proofs::GoodSound::good_eof, crate::proofs::ReindexCalls::few, crate::proofs::ReindexCalls::head_written_there, crate::proofs::ReindexCalls::tail_written_there))]
fn rebuild<A: Area>(
    alloc: Global,
    area: &mut A,
    vdr: u64,
    leaves: &[Entry],
    nodes: &[u64],
) -> Result<(), AreaError>
    requires good { Good (A.image area.old) }
    requires vdr { In vdr (vdrs (variables (shape (A.image area.old)))) }
    requires leaves { leaves.now ≡ map leaf_words (leaves_of (index_of (A.image area.old) vdr)) }
    requires nodes { nodes.now ≡ nodes_of (index_of (A.image area.old) vdr) }
    requires room { length (A.image area.old) + reindex_room (index_of (A.image area.old) vdr) ≤ (A.frame area.old).limit }
    requires limit { (A.frame area.old).limit ≤ image_limit }
    ensures rebuilt { OnOk result ((kind : Kind) (before : List VariableShape) (own : VariableShape) (after : List VariableShape) → StandsAmong (A.image area.old) kind before own after → own.vdr ≡ vdr → IsRebuilt (A.image area.old) (A.image area.new) own) }
    ensures area { Edits A.frame A.faults area.old area.new result }
{
    let top = write_index(alloc, area, leaves)?;
    set_vdr_vxr_head(area, vdr, top)?;
    set_vdr_vxr_tail(area, vdr, top)?;
    free_records(area, nodes)
}

/// Makes the index anew of the variable whose VDR stands at a place; one without nodes stays.
/// After an error a part of this may have been done.
pub fn reindex<A: Area>(alloc: Global, area: &mut A, vdr: u64) -> Result<(), AreaError>
    requires good { Good (A.image area.old) }
    requires vdr { In vdr (vdrs (variables (shape (A.image area.old)))) }
    requires room { length (A.image area.old) + reindex_room (index_at (A.image area.old) (number (A.image area.old) vdr vdr_vxr_head)) ≤ (A.frame area.old).limit }
    requires limit { (A.frame area.old).limit ≤ image_limit }
    ensures made { OnOk result ((kind : Kind) (before : List VariableShape) (own : VariableShape) (after : List VariableShape) → StandsAmong (A.image area.old) kind before own after → own.vdr ≡ vdr → Reindexed (A.image area.old) (A.image area.new) own) }
    ensures good { OnOk result (Good (A.image area.new)) }
    ensures area { Edits A.frame A.faults area.old area.new result }
{
    // An image has fewer than 2^64 bytes, so no place in it overflows.
    let _size = area.size();
    let head = read_unsigned8(area, vdr + VDR_VXR_HEAD)?;
    let parts = index_parts(alloc, area, head)?;
    if parts.nodes.is_empty() {
        return Ok(());
    }
    rebuild(alloc, area, vdr, &parts.leaves, &parts.nodes)
}
