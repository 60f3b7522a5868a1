//! A leaf added to the index of a variable.

ghost use Rattle.std.specs.Prelude.{◌≡◌, ◌≢◌, ◌⊎◌, ◌+◌, ◌≤◌, ◌<◌, ℕ, List, length, max, IfOk, OnOk};
ghost use Rattle.std.specs.Vec.{vec_len};
ghost use Rattle.cdf_area.specs.Calls.{Edits, Reads};
ghost use Rattle.cdf_edits.specs.Commands.Room.{widest};
ghost use Rattle.cdf_edits.specs.Index.Grown.{new_entries};
ghost use Rattle.cdf_edits.specs.Space.Placing.{IsBody, type_of_body};
ghost use Rattle.cdf_edits.specs.Edits.Standing.{StandsAmong};
ghost use Rattle.cdf_format.specs.Fields.{eof, gdr_offset, number};
ghost use Rattle.cdf_format.specs.Records.{vdr_vxr_head, vxr_bytes};
ghost use Rattle.cdf_format.specs.RecordTypes.{cvvr_type, vvr_type};
ghost use Rattle.cdf_format.specs.Shape.{VariableShape, shape, variables, vdrs};
ghost use Rattle.cdf_format.specs.Tiles.{In};
ghost use Rattle.cdf_format.specs.WellFormed.{Good};
ghost use Rattle.cdf_model.specs.Limits.{image_limit};
ghost use Rattle.cdf_model.specs.declared.kinds.Kind.{Kind};
ghost use Rattle.cdf_index.specs.Adding.{AddsLeaf};
ghost use Rattle.cdf_index.specs.Finding.{HasIndex, index_at};
ghost use Rattle.cdf_index.specs.Starting.{IsStart};
ghost use Rattle.cdf_leaves.specs.Added.{Added, IsWay, MayAdd, PutAlong, entry};
ghost use Rattle.cdf_leaves.specs.Putting.{EntryPut, MayPut};
ghost use Rattle.cdf_leaves.specs.Widening.{WayStands};

use crate::putting::{put_entry, start_index};
use crate::tail::set_tail;
use crate::widening::widen_way;
use cdf_area::{Area, AreaError};
use cdf_index::{Entry, Way, way_down};
use cdf_records::Steps;
use cdf_space::place_record;
use std::alloc::Global;
use std::marker::Brand;
use std::sync::ledger::{Blank, Ledger};

/// The way down to the place of a new entry, as `way_down` counts it in steps.
fn way_counted<A: Area, L: Ledger>(
    alloc: Global,
    area: &mut A,
    start: u64,
    first: u32,
    blank: Blank,
) -> Result<Way, AreaError>
    requires name { blank.name ≡ L.name }
    requires parts { blank.parts ≡ L.parts }
    requires some { 0 < L.parts }
    requires index { HasIndex (A.image area.old) start }
    requires there { start ≢ 0 }
    requires short { length (A.image area.old) ≤ image_limit }
    ensures way { IfOk result (IsWay (A.image area.old) start first) }
    ensures area { Reads A.image A.frame A.faults A.edited area.old area.new result }
{
    let mut steps = Steps::<L>::new(blank);
    way_down(alloc, area, start, first, &mut steps)
}

/// The way down to the place of a new entry.
fn find_way<A: Area>(alloc: Global, area: &mut A, start: u64, first: u32) -> Result<Way, AreaError>
    requires index { HasIndex (A.image area.old) start }
    requires there { start ≢ 0 }
    requires short { length (A.image area.old) ≤ image_limit }
    ensures way { IfOk result (IsWay (A.image area.old) start first) }
    ensures area { Reads A.image A.frame A.faults A.edited area.old area.new result }
{
    way_counted::<A, Brand>(alloc, area, start, first, Blank::new(1))
}

/// Puts the entry of a block at the end of the way to it, and lets the entries on the way reach as far. Gives the new node that this takes, 0 for none.
/// After an error a part of this may have been done.
#[tactic(auto, using(cdf_area::proofs::Calls::edit_done, cdf_area::proofs::Calls::edit_failed, cdf_area::proofs::Calls::edit_more, cdf_area::proofs::Calls::edit_once))]
fn put_along<A: Area>(
    alloc: Global,
    area: &mut A,
    way: &Way,
    first: u32,
    last: u32,
    place: u64,
) -> Result<u64, AreaError>
    requires eof { eof (A.image area.old) (gdr_offset (A.image area.old)) ≡ length (A.image area.old) }
    requires end { MayPut (A.image area.old) way.now.end }
    requires stands { (now : List ℕ) (at : ℕ) → EntryPut (A.image area.old) now way.now.end (entry first last place) at → WayStands now way.now.steps.items }
    requires room { length (A.image area.old) + vxr_bytes (max new_entries way.now.end.room) ≤ (A.frame area.old).limit }
    requires limit { (A.frame area.old).limit ≤ image_limit }
    ensures short { OnOk result (length (A.image area.new) ≤ (A.frame area.old).limit) }
    ensures counted { OnOk result (vec_len way.now.steps ≡ length way.now.steps.items) }
    ensures put { IfOk result (PutAlong (A.image area.old) (A.image area.new) way.now (entry first last place)) }
    ensures area { Edits A.frame A.faults area.old area.new result }
{
    let at = put_entry(alloc, area, way.end, Entry { first, last, place })?;
    widen_way(area, &way.steps, last)?;
    Ok(at)
}

/// Adds a leaf to an index, the way to whose place is known. After an error a part of this may have been done.
#[tactic(auto, using(cdf_area::proofs::Calls::edit_done, cdf_area::proofs::Calls::edit_failed, cdf_area::proofs::Calls::edit_more, cdf_area::proofs::Calls::edit_once))]
fn hang_leaf<A: Area>(
    alloc: Global,
    area: &mut A,
    vdr: u64,
    way: &Way,
    first: u32,
    last: u32,
    body: &[u8],
) -> Result<(), AreaError>
    requires may_add { MayAdd (A.image area.old) (A.frame area.old).limit vdr body.now }
    requires way { IsWay (A.image area.old) (number (A.image area.old) vdr vdr_vxr_head) first way.now }
    ensures added { OnOk result (Added (A.image area.old) (A.image area.new) vdr first last body.now) }
    ensures area { Edits A.frame A.faults area.old area.new result }
{
    let place = place_record(area, body)?;
    let at = put_along(alloc, area, way, first, last, place)?;
    if at == 0 || !way.steps.is_empty() {
        return Ok(());
    }
    set_tail(area, vdr, way.end.place)?;
    Ok(())
}

/// Adds a leaf to an index that has a node. After an error a part of this may have been done.
#[tactic(auto, using(cdf_area::proofs::Calls::edit_done, cdf_area::proofs::Calls::edit_failed, cdf_area::proofs::Calls::edit_more, cdf_area::proofs::Calls::edits_by_read, cdf_area::proofs::Calls::keeps_by_read, cdf_area::proofs::Calls::read_once))]
fn grow_index<A: Area>(
    alloc: Global,
    area: &mut A,
    vdr: u64,
    start: u64,
    first: u32,
    last: u32,
    body: &[u8],
) -> Result<(), AreaError>
    requires may_add { MayAdd (A.image area.old) (A.frame area.old).limit vdr body.now }
    requires start { IsStart (A.image area.old) (number (A.image area.old) vdr vdr_vxr_head) first start }
    requires there { start ≢ 0 }
    ensures added { OnOk result (Added (A.image area.old) (A.image area.new) vdr first last body.now) }
    ensures area { Edits A.frame A.faults area.old area.new result }
{
    let way = find_way(alloc, area, start, first)?;
    hang_leaf(alloc, area, vdr, &way, first, last, body)?;
    Ok(())
}

/// Adds a leaf to an index that has no node. After an error a part of this may have been done.
#[tactic(auto, using(cdf_area::proofs::Calls::edit_done, cdf_area::proofs::Calls::edit_failed, cdf_area::proofs::Calls::edit_more, cdf_area::proofs::Calls::edit_once))]
fn begin_index<A: Area>(
    area: &mut A,
    vdr: u64,
    first: u32,
    last: u32,
    body: &[u8],
) -> Result<(), AreaError>
    requires may_add { MayAdd (A.image area.old) (A.frame area.old).limit vdr body.now }
    requires none { number (A.image area.old) vdr vdr_vxr_head ≡ 0 }
    ensures added { OnOk result (Added (A.image area.old) (A.image area.new) vdr first last body.now) }
    ensures area { Edits A.frame A.faults area.old area.new result }
{
    let place = place_record(area, body)?;
    start_index(area, vdr, Entry { first, last, place })?;
    Ok(())
}

/// Adds a leaf to the index of the variable whose descriptor stands at a place: its block, packed or not, with these bytes behind its size, and its entry, with a node more where one is needed.
/// The search for the place of the entry begins where it may start, at 0 where the index has no node. After an error a part of this may have been done.
#[tactic(auto, using(crate::proofs::AddCalls::may_add))]
pub fn add_leaf<A: Area>(
    alloc: Global,
    area: &mut A,
    vdr: u64,
    start: u64,
    first: u32,
    last: u32,
    body: &[u8],
) -> Result<(), AreaError>
    requires good { Good (A.image area.old) }
    requires vdr { In vdr (vdrs (variables (shape (A.image area.old)))) }
    requires start { IsStart (A.image area.old) (number (A.image area.old) vdr vdr_vxr_head) first start }
    requires body { IsBody body.now }
    requires block { (type_of_body body.now ≡ vvr_type) ⊎ (type_of_body body.now ≡ cvvr_type) }
    requires room { length (A.image area.old) + (8 + length body.now) + vxr_bytes (widest (index_at (A.image area.old) (number (A.image area.old) vdr vdr_vxr_head))) ≤ (A.frame area.old).limit }
    requires limit { (A.frame area.old).limit ≤ image_limit }
    ensures added { OnOk result ((kind : Kind) (before : List VariableShape) (own : VariableShape) (after : List VariableShape) → StandsAmong (A.image area.old) kind before own after → own.vdr ≡ vdr → AddsLeaf (A.image area.old) (A.image area.new) own first last body.now) }
    ensures area { Edits A.frame A.faults area.old area.new result }
{
    if start != 0 {
        return grow_index(alloc, area, vdr, start, first, last, body);
    }
    begin_index(area, vdr, first, last, body)
}
