//! Records cut out of the index of a variable and out of its blocks, where later ones keep their numbers.

ghost use Rattle.std.specs.Prelude.{◌≡◌, ◌<◌, ◌≤◌, ◌+◌, ◌-◌, ◌*◌, ◌++◌, List, length, replicate, Some, IfOk, OnOk, false};
ghost use Rattle.cdf_area.specs.Calls.{Edits, Reads};
ghost use Rattle.cdf_edits.specs.Edits.Standing.{StandsAmong};
ghost use Rattle.cdf_edits.specs.Commands.Room.{widest};
ghost use Rattle.cdf_edits.specs.Space.Placing.{IsBody, type_of_body};
ghost use Rattle.cdf_format.specs.Fields.{number};
ghost use Rattle.cdf_format.specs.Index.{leaves_of};
ghost use Rattle.cdf_format.specs.Records.{vdr_vxr_head, vvr_place, vxr_bytes};
ghost use Rattle.cdf_format.specs.RecordTypes.{vvr_type};
ghost use Rattle.cdf_format.specs.Shape.{VariableShape, shape, variables, vdrs, is_compressed};
ghost use Rattle.cdf_format.specs.Tiles.{In};
ghost use Rattle.cdf_format.specs.VariableFields.{record_bytes};
ghost use Rattle.cdf_format.specs.WellFormed.{Good};
ghost use Rattle.cdf_index.specs.Adding.{AddsLeaf};
ghost use Rattle.cdf_index.specs.Finding.{index_at};
ghost use Rattle.cdf_index.specs.Sight.{seen};
ghost use Rattle.cdf_model.specs.Limits.{image_limit};
ghost use Rattle.cdf_model.specs.declared.kinds.Kind.{Kind};
ghost use Rattle.cdf_puts.specs.Putting.{block_type};
ghost use Rattle.cdf_puts.specs.Steps.{IsBlockBody};
ghost use Rattle.cdf_cuts.specs.Moving.{IsLater};
ghost use Rattle.cdf_sparse.specs.Opening.{CutOpen, later_records, opening_room};

use cdf_area::{Area, AreaError};
use cdf_cuts::{Span, cut_index, find_later, join_later};
use cdf_format::fields::{VDR_VXR_HEAD, VVR_RECORDS, VVR_TYPE};
use cdf_index::{Leaf, start_of};
use cdf_leaves::add_leaf;
use cdf_records::{read_bytes, read_unsigned8};
use std::alloc::{AllocError, Global};

/// The least bytes of a block behind its size.
const LEAST_BODY: usize = 20;

/// These bytes, and bytes 0 behind them up to the least size of a record.
fn filled_up(mut body: Vec<u8>) -> Result<Vec<u8>, AllocError>
    ensures { IfOk result (λ filled. filled.items ≡ body.items ++ replicate (20 - length body.items) 0) }
{
    if body.len() < LEAST_BODY {
        body.resize(LEAST_BODY, 0)?;
    }
    Ok(body)
}

/// The type of a block, and these records.
fn typed_records(alloc: Global, records: &[u8]) -> Result<Vec<u8>, AllocError>
    ensures records { IfOk result (λ body. body.items ≡ block_type ++ records.now) }
{
    let mut body = Vec::new(alloc);
    body.extend_from_slice(&VVR_TYPE.to_be_bytes())?;
    body.extend_from_slice(records)?;
    Ok(body)
}

/// What is written for a new block with these records, behind its size.
fn block_body(alloc: Global, records: &[u8]) -> Result<Vec<u8>, AllocError>
    ensures body { IfOk result (λ body. IsBlockBody body.items records.now) }
{
    let body = typed_records(alloc, records)?;
    filled_up(body)
}

/// What is written for a new block with the later records of a leaf, from one behind a last on.
fn later_body<A: Area>(
    alloc: Global,
    area: &mut A,
    leaf: &Leaf,
    rec_bytes: u64,
    last: u32,
) -> Result<Vec<u8>, AreaError>
    requires reaches { leaf.now.first ≤ last }
    requires later { last < leaf.now.last }
    requires room { leaf.now.at + vvr_place ((leaf.now.last + 1 - leaf.now.first) * rec_bytes) ≤ length (A.image area.old) }
    ensures body { IfOk result (λ body. IsBlockBody body.items (later_records (A.image area.old) rec_bytes last (seen leaf.now))) }
    ensures area { Reads A.image A.frame A.faults A.edited area.old area.new result }
{
    let _size = area.size();
    let from = leaf.at + VVR_RECORDS + u64::from(last + 1 - leaf.first) * rec_bytes;
    let count = u64::from(leaf.last - last) * rec_bytes;
    let records = read_bytes(alloc, area, from, count)?;
    let body = block_body(alloc, &records)?;
    Ok(body)
}

/// Adds a leaf to the index of the variable whose descriptor stands at a place. After an error a part of this may have been done.
#[tactic(auto, using(cdf_area::proofs::Calls::edit_done, cdf_area::proofs::Calls::edit_failed, cdf_area::proofs::Calls::edit_more, cdf_area::proofs::Calls::edits_by_read, cdf_area::proofs::Calls::keeps_by_read, cdf_area::proofs::Calls::read_failed, cdf_area::proofs::Calls::read_more, cdf_area::proofs::Calls::read_once))]
fn add_part<A: Area>(
    alloc: Global,
    area: &mut A,
    vdr: u64,
    first: u32,
    last: u32,
    body: &[u8],
) -> Result<(), AreaError>
    requires good { Good (A.image area.old) }
    requires vdr { In vdr (vdrs (variables (shape (A.image area.old)))) }
    requires body { IsBody body.now }
    requires block { type_of_body body.now ≡ vvr_type }
    requires room { length (A.image area.old) + (8 + length body.now) + vxr_bytes (widest (index_at (A.image area.old) (number (A.image area.old) vdr vdr_vxr_head))) ≤ (A.frame area.old).limit }
    requires limit { (A.frame area.old).limit ≤ image_limit }
    ensures added { OnOk result ((kind : Kind) (before : List VariableShape) (own : VariableShape) (after : List VariableShape) → StandsAmong (A.image area.old) kind before own after → own.vdr ≡ vdr → AddsLeaf (A.image area.old) (A.image area.new) own first last body.now) }
    ensures area { Edits A.frame A.faults area.old area.new result }
{
    // An image has fewer than 2^64 bytes, so no place in it overflows.
    let _size = area.size();
    let head = read_unsigned8(area, vdr + VDR_VXR_HEAD)?;
    let start = start_of(area, head, None, first)?;
    add_leaf(alloc, area, vdr, start, first, last, body)
}

/// Takes records out, of which a leaf has some, and others before them and behind them: those before them stay in its block, and those behind them
/// get a leaf of their own. After an error a part of this may have been done.
#[tactic(auto, using(cdf_area::proofs::Calls::edit_done, cdf_area::proofs::Calls::edit_failed, cdf_area::proofs::Calls::edit_more, cdf_area::proofs::Calls::edits_by_read, cdf_area::proofs::Calls::keeps_by_read, cdf_area::proofs::Calls::read_failed, cdf_area::proofs::Calls::read_more, cdf_area::proofs::Calls::read_once))]
fn divide_leaf<A: Area>(
    alloc: Global,
    area: &mut A,
    vdr: u64,
    rec_bytes: u64,
    first: u32,
    last: u32,
    leaf: &Leaf,
) -> Result<(), AreaError>
    requires good { Good (A.image area.old) }
    requires vdr { In vdr (vdrs (variables (shape (A.image area.old)))) }
    requires unpacked { is_compressed (A.image area.old) vdr ≡ false }
    requires size { rec_bytes ≡ record_bytes (A.image area.old) vdr }
    requires order { first ≤ last }
    requires leaf { IsLater last (leaves_of (index_at (A.image area.old) (number (A.image area.old) vdr vdr_vxr_head))) (Some leaf.now) }
    requires begins { leaf.now.first < first }
    requires room { length (A.image area.old) + opening_room first last rec_bytes (index_at (A.image area.old) (number (A.image area.old) vdr vdr_vxr_head)) ≤ (A.frame area.old).limit }
    requires limit { (A.frame area.old).limit ≤ image_limit }
    ensures opened { OnOk result ((kind : Kind) (before : List VariableShape) (own : VariableShape) (after : List VariableShape) → StandsAmong (A.image area.old) kind before own after → own.vdr ≡ vdr → CutOpen (A.image area.old) (A.image area.new) kind before own after first last) }
    ensures area { Edits A.frame A.faults area.old area.new result }
{
    let end = leaf.last;
    let body = later_body(alloc, area, leaf, rec_bytes, last)?;
    let span = Span {
        first,
        last,
        close: false,
    };
    cut_index(alloc, area, vdr, span)?;
    add_part(alloc, area, vdr, last + 1, end, &body)
}

/// Takes the records from a first to a last out of the index of the variable whose descriptor stands at a place, and out of its blocks, which are
/// not packed: later records keep their numbers. A block that has records before those that go keeps these where they are. One that has only later
/// ones keeps them at its front; of one that has both, the later ones get a block of their own. After an error a part of this may have been done.
#[tactic(auto, using(cdf_area::proofs::Calls::edit_done, cdf_area::proofs::Calls::edit_failed, cdf_area::proofs::Calls::edit_more, cdf_area::proofs::Calls::edits_by_read, cdf_area::proofs::Calls::keeps_by_read, cdf_area::proofs::Calls::read_failed, cdf_area::proofs::Calls::read_more, cdf_area::proofs::Calls::read_once))]
pub fn open_records<A: Area>(
    alloc: Global,
    area: &mut A,
    vdr: u64,
    rec_bytes: u64,
    first: u32,
    last: u32,
) -> Result<(), AreaError>
    requires good { Good (A.image area.old) }
    requires vdr { In vdr (vdrs (variables (shape (A.image area.old)))) }
    requires unpacked { is_compressed (A.image area.old) vdr ≡ false }
    requires size { rec_bytes ≡ record_bytes (A.image area.old) vdr }
    requires order { first ≤ last }
    requires room { length (A.image area.old) + opening_room first last rec_bytes (index_at (A.image area.old) (number (A.image area.old) vdr vdr_vxr_head)) ≤ (A.frame area.old).limit }
    requires limit { (A.frame area.old).limit ≤ image_limit }
    ensures opened { OnOk result ((kind : Kind) (before : List VariableShape) (own : VariableShape) (after : List VariableShape) → StandsAmong (A.image area.old) kind before own after → own.vdr ≡ vdr → CutOpen (A.image area.old) (A.image area.new) kind before own after first last) }
    ensures area { Edits A.frame A.faults area.old area.new result }
{
    // An image has fewer than 2^64 bytes, so no place in it overflows.
    let _size = area.size();
    let head = read_unsigned8(area, vdr + VDR_VXR_HEAD)?;
    let later = find_later(area, head, last)?;
    let span = Span {
        first,
        last,
        close: false,
    };
    let Some(leaf) = later else {
        return cut_index(alloc, area, vdr, span);
    };
    if leaf.first < first {
        return divide_leaf(alloc, area, vdr, rec_bytes, first, last, &leaf);
    }
    cut_index(alloc, area, vdr, span)?;
    join_later(alloc, area, &leaf, rec_bytes, first, last)
}
