//! Records cut out of the index of a variable, where later ones keep their numbers or close up.

ghost use Rattle.std.specs.Prelude.{◌≡◌, ◌<◌, ◌≤◌, suc, ◌^◌, ◌++◌, ◌+◌, ◌-◌, ◌*◌, List, length, IfOk, OnOk, false};
ghost use Rattle.cdf_area.specs.Calls.{Edits, Reads};
ghost use Rattle.cdf_edits.specs.Edits.Standing.{Ascending, StandsAmong};
ghost use Rattle.cdf_format.specs.Fields.{LiesIn, number};
ghost use Rattle.cdf_format.specs.Index.{leaves_of};
ghost use Rattle.cdf_format.specs.Records.{vdr_vxr_head, vdr_vxr_tail, vvr_place};
ghost use Rattle.cdf_format.specs.Shape.{Each, VariableShape, shape, variables, vdrs, is_compressed};
ghost use Rattle.cdf_format.specs.Tiles.{In};
ghost use Rattle.cdf_format.specs.VariableFields.{record_bytes};
ghost use Rattle.cdf_format.specs.WellFormed.{Good};
ghost use Rattle.cdf_index.specs.Finding.{HasIndex, index_at};
ghost use Rattle.cdf_index.specs.Sight.{seen};
ghost use Rattle.cdf_model.specs.Limits.{image_limit, record_number_limit};
ghost use Rattle.cdf_model.specs.declared.kinds.Kind.{Kind};
ghost use Rattle.cdf_cuts.specs.Closing.{RecordsClosed};
ghost use Rattle.cdf_cuts.specs.Moving.{IsLater, JoinsFront};
ghost use Rattle.cdf_cuts.specs.Past.{CutPast, EndCut, PlainOrUncut, cut_off};
ghost use Rattle.cdf_cuts.specs.Cut.{IsCut, heads_led, link_found};

use crate::moving::move_down;
use crate::planning::{Left, Plan, Span, plan_chain};
use crate::writing::{relink_nodes, rewrite_nodes};
use cdf_area::{Area, AreaError};
use cdf_format::fields::{VDR_VXR_HEAD, VVR_RECORDS};
use cdf_index::{Entry, Leaf};
use cdf_model::limits::{LEVEL_LIMIT, RECORD_NUMBER_LIMIT};
use cdf_puts::find_leaf;
use cdf_records::{read_unsigned8, set_vdr_vxr_head, set_vdr_vxr_tail};
use cdf_space::free_records;
use std::alloc::{AllocError, Global};

/// The place of what was found, 0 for nothing.
fn link_of(found: Option<Entry>) -> u64
    ensures { result ≡ link_found found }
{
    match found {
        Some(entry) => entry.place,
        None => 0,
    }
}

/// Adds places behind others.
fn push_all(places: &mut Vec<u64>, more: &[u64]) -> Result<(), AllocError>
    ensures { OnOk result (places.new.items ≡ places.old.items ++ more.now) }
{
    places.extend_from_slice(more)?;
    Ok(())
}

/// Lets VXRhead lead to what the top chain keeps, and VXRtail to its last node where a node goes.
fn lead_to<A: Area>(area: &mut A, vdr: u64, left: Left) -> Result<(), AreaError>
    requires head { LiesIn (A.image area.old) vdr vdr_vxr_head }
    requires tail { LiesIn (A.image area.old) vdr vdr_vxr_tail }
    ensures led { OnOk result (A.image area.new ≡ heads_led (A.image area.old) vdr left) }
    ensures small { link_found left.found < 256 ^ 8 }
    ensures small_last { left.prev < 256 ^ 8 }
    ensures area { Edits A.frame A.faults area.old area.new result }
{
    set_vdr_vxr_head(area, vdr, link_of(left.found))?;
    if !left.whole {
        set_vdr_vxr_tail(area, vdr, left.prev)?;
    }
    Ok(())
}

/// Cuts records out of the index of the variable whose descriptor stands at a place: each block keeps what is left of its records, the nodes that
/// stay are written, and what has no record left is freed, the blocks by record number and then the nodes, lower ones first. The bytes of blocks
/// that stay are not touched. After an error a part of this may have been done.
pub fn cut_index<A: Area>(
    alloc: Global,
    area: &mut A,
    vdr: u64,
    span: Span,
) -> Result<(), AreaError>
    requires good { Good (A.image area.old) }
    requires vdr { In vdr (vdrs (variables (shape (A.image area.old)))) }
    requires order { span.first ≤ span.last }
    requires short { length (A.image area.old) ≤ image_limit }
    ensures cut { OnOk result ((kind : Kind) (before : List VariableShape) (own : VariableShape) (after : List VariableShape) → StandsAmong (A.image area.old) kind before own after → own.vdr ≡ vdr → IsCut (A.image area.old) (A.image area.new) kind own span) }
    ensures area { Edits A.frame A.faults area.old area.new result }
{
    // An image has fewer than 2^64 bytes, so no place in it overflows.
    let _size = area.size();
    let head = read_unsigned8(area, vdr + VDR_VXR_HEAD)?;
    let mut plan = Plan {
        nodes: Vec::new(alloc),
        links: Vec::new(alloc),
        blocks: Vec::new(alloc),
        emptied: Vec::new(alloc),
    };
    let left = plan_chain(alloc, area, head, LEVEL_LIMIT, span, &mut plan)?;
    rewrite_nodes(area, &plan.nodes)?;
    relink_nodes(area, &plan.links)?;
    lead_to(area, vdr, left)?;
    push_all(&mut plan.blocks, &plan.emptied)?;
    free_records(area, &plan.blocks)
}

/// The leaf of an index that has a record and later ones, if there is one.
pub fn find_later<A: Area>(area: &mut A, head: u64, last: u32) -> Result<Option<Leaf>, AreaError>
    requires index { HasIndex (A.image area.old) head }
    requires order { Ascending 0 (suc record_number_limit) (leaves_of (index_at (A.image area.old) head)) }
    requires short { length (A.image area.old) ≤ image_limit }
    ensures later { IfOk result (IsLater last (leaves_of (index_at (A.image area.old) head))) }
    ensures area { Reads A.image A.frame A.faults A.edited area.old area.new result }
{
    let Some(leaf) = find_leaf(area, head, None, last)? else {
        return Ok(None);
    };
    if last < leaf.last {
        Ok(Some(leaf))
    } else {
        Ok(None)
    }
}

/// Moves the later records of a leaf, from one behind a last on, to where the first one that goes stands in its block, or to its front.
pub fn join_later<A: Area>(
    alloc: Global,
    area: &mut A,
    leaf: &Leaf,
    rec_bytes: u64,
    first: u32,
    last: u32,
) -> Result<(), AreaError>
    requires order { first ≤ last }
    requires reaches { leaf.now.first ≤ last }
    requires later { last < leaf.now.last }
    requires room { leaf.now.at + vvr_place ((leaf.now.last + 1 - leaf.now.first) * rec_bytes) ≤ length (A.image area.old) }
    ensures joins { OnOk result (JoinsFront (A.image area.old) (A.image area.new) rec_bytes first last (seen leaf.now)) }
    ensures area { Edits A.frame A.faults area.old area.new result }
{
    let _size = area.size();
    let records = leaf.at + VVR_RECORDS;
    let from = records + u64::from(last + 1 - leaf.first) * rec_bytes;
    let to = records + u64::from(first.max(leaf.first) - leaf.first) * rec_bytes;
    let count = u64::from(leaf.last - last) * rec_bytes;
    move_down(alloc, area, from, to, count)
}

/// Takes the records from a first to a last out of the index of the variable whose descriptor stands at a place, and out of its blocks, which are
/// not packed: later records close up, in the index and within a block. After an error a part of this may have been done.
#[tactic(auto, using(cdf_area::proofs::Calls::edit_done, cdf_area::proofs::Calls::edit_failed, cdf_area::proofs::Calls::edit_more, cdf_area::proofs::Calls::edits_by_read, cdf_area::proofs::Calls::keeps_by_read, cdf_area::proofs::Calls::read_failed, cdf_area::proofs::Calls::read_more, cdf_area::proofs::Calls::read_once))]
pub fn close_records<A: Area>(
    alloc: Global,
    area: &mut A,
    vdr: u64,
    rec_bytes: u64,
    first: u32,
    last: u32,
) -> Result<(), AreaError>
    requires good { Good (A.image area.old) }
    requires vdr { In vdr (vdrs (variables (shape (A.image area.old)))) }
    requires unpacked { is_compressed (A.image area.old) vdr ≡ false }
    requires size { rec_bytes ≡ record_bytes (A.image area.old) vdr }
    requires order { first ≤ last }
    requires short { length (A.image area.old) ≤ image_limit }
    ensures closed { OnOk result ((kind : Kind) (before : List VariableShape) (own : VariableShape) (after : List VariableShape) → StandsAmong (A.image area.old) kind before own after → own.vdr ≡ vdr → RecordsClosed (A.image area.old) (A.image area.new) kind before own after first last) }
    ensures area { Edits A.frame A.faults area.old area.new result }
{
    // An image has fewer than 2^64 bytes, so no place in it overflows.
    let _size = area.size();
    let head = read_unsigned8(area, vdr + VDR_VXR_HEAD)?;
    let later = find_later(area, head, last)?;
    let span = Span {
        first,
        last,
        close: true,
    };
    cut_index(alloc, area, vdr, span)?;
    match later {
        Some(leaf) => join_later(alloc, area, &leaf, rec_bytes, first, last),
        None => Ok(()),
    }
}

/// Takes all records from a first one on out of the index of the variable whose descriptor stands at a place, of which no packed block has records
/// before them and this one too: a block that has records before them keeps these where they are, the blocks that have none are freed, and then the
/// nodes that are left without entries. The first record may be past all that there are. After an error a part of this may have been done.
pub fn cut_end<A: Area>(alloc: Global, area: &mut A, vdr: u64, first: u32) -> Result<(), AreaError>
    requires good { Good (A.image area.old) }
    requires vdr { In vdr (vdrs (variables (shape (A.image area.old)))) }
    requires uncut { Each (PlainOrUncut first) (leaves_of (index_at (A.image area.old) (number (A.image area.old) vdr vdr_vxr_head))) }
    requires short { length (A.image area.old) ≤ image_limit }
    ensures cut { OnOk result ((kind : Kind) (before : List VariableShape) (own : VariableShape) (after : List VariableShape) → StandsAmong (A.image area.old) kind before own after → own.vdr ≡ vdr → EndCut (A.image area.old) (A.image area.new) kind before own (cut_off own first) after first) }
    ensures area { Edits A.frame A.faults area.old area.new result }
{
    let span = Span {
        first,
        last: first.max(RECORD_NUMBER_LIMIT),
        close: false,
    };
    cut_index(alloc, area, vdr, span)
}

/// Likewise of a variable of which no block is packed.
pub fn cut_past<A: Area>(alloc: Global, area: &mut A, vdr: u64, first: u32) -> Result<(), AreaError>
    requires good { Good (A.image area.old) }
    requires vdr { In vdr (vdrs (variables (shape (A.image area.old)))) }
    requires unpacked { is_compressed (A.image area.old) vdr ≡ false }
    requires short { length (A.image area.old) ≤ image_limit }
    ensures past { OnOk result ((kind : Kind) (before : List VariableShape) (own : VariableShape) (after : List VariableShape) → StandsAmong (A.image area.old) kind before own after → own.vdr ≡ vdr → CutPast (A.image area.old) (A.image area.new) kind before own (cut_off own first) after first) }
    ensures area { Edits A.frame A.faults area.old area.new result }
{
    cut_end(alloc, area, vdr, first)
}
