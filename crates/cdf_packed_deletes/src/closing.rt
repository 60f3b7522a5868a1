//! Records taken out of a packed variable, where later ones close up.

ghost use Rattle.std.specs.Prelude.{◌≡◌, ◌≤◌, ◌<◌, ◌+◌, ◌-◌, ◌*◌, ◌++◌, List, length, take, drop, true, IfOk, OnOk};
ghost use Rattle.cdf_area.specs.Calls.{Edits};
ghost use Rattle.cdf_blocks.specs.Reading.{block_size};
ghost use Rattle.cdf_edits.specs.Edits.Standing.{StandsAmong};
ghost use Rattle.cdf_format.specs.Fields.{number};
ghost use Rattle.cdf_format.specs.Index.{leaves_of};
ghost use Rattle.cdf_format.specs.Records.{vdr_vxr_head};
ghost use Rattle.cdf_format.specs.Shape.{Each, VariableShape, is_compressed, shape, variables, vdrs};
ghost use Rattle.cdf_format.specs.Tiles.{In};
ghost use Rattle.cdf_format.specs.VariableFields.{record_bytes};
ghost use Rattle.cdf_format.specs.WellFormed.{Good};
ghost use Rattle.cdf_index.specs.Finding.{index_at};
ghost use Rattle.cdf_index.specs.Sight.{seen};
ghost use Rattle.cdf_model.specs.Limits.{image_limit, record_number_limit};
ghost use Rattle.cdf_model.specs.declared.kinds.Kind.{Kind};
ghost use Rattle.cdf_packed_deletes.specs.Closing.{PackedClosed, keeping, keeping_room};
ghost use Rattle.cdf_packed_deletes.specs.Keeping.{HasKeepingRoom, HasKept, IsAllOrNone, IsCutIn, IsEdge, IsKeptOf, KeptAt, PartsLeft, SomeKept, WholeClosed, back_count, first_kept, front_count, later_end, outer_bytes};

use cdf_area::{Area, AreaError};
use cdf_blocks::{Part, SitedLeaf, block_size, read_plain, shorten_block};
use cdf_cuts::{Span, cut_index};
use cdf_index::Leaf;
use cdf_packed_cuts::find_split;
use std::alloc::{AllocError, Global};

/// Takes the leaves of which all records go out of the index of the variable whose descriptor stands at a place, and later records close up. No leaf
/// has some of the records that go and others. After an error a part of this may have been done.
fn close_whole<A: Area>(
    alloc: Global,
    area: &mut A,
    vdr: u64,
    first: u32,
    last: u32,
) -> Result<(), AreaError>
    requires good { Good (A.image area.old) }
    requires vdr { In vdr (vdrs (variables (shape (A.image area.old)))) }
    requires order { first ≤ last }
    requires whole { Each (IsAllOrNone first last) (leaves_of (index_at (A.image area.old) (number (A.image area.old) vdr vdr_vxr_head))) }
    requires short { length (A.image area.old) ≤ image_limit }
    ensures closed { OnOk result ((kind : Kind) (before : List VariableShape) (own : VariableShape) (after : List VariableShape) → StandsAmong (A.image area.old) kind before own after → own.vdr ≡ vdr → WholeClosed (A.image area.old) (A.image area.new) kind before own after first last) }
    ensures area { Edits A.frame A.faults area.old area.new result }
{
    let span = Span {
        first,
        last,
        close: true,
    };
    cut_index(alloc, area, vdr, span)
}

/// Which records a leaf has once some go and later ones close up: it begins with the first one that stays in it.
fn part_kept(leaf: &Leaf, first: u32, last: u32) -> Part
    requires cut { IsCutIn first last (seen leaf.now) }
    requires order { first ≤ last }
    requires small { leaf.now.last ≤ record_number_limit }
    ensures first { result.first ≡ first_kept first last (seen leaf.now) }
    ensures last { result.last + 1 ≡ result.first + (front_count first (seen leaf.now) + back_count last (seen leaf.now)) }
{
    let count = first.saturating_sub(leaf.first) + leaf.last.saturating_sub(last);
    let start = if leaf.first < first {
        leaf.first
    } else {
        last + 1
    };
    Part {
        first: start,
        last: start + (count - 1),
    }
}

/// So many bytes at the front, and so many at the end.
fn both_ends(alloc: Global, bytes: &[u8], front: usize, back: usize) -> Result<Vec<u8>, AllocError>
    requires { front + back ≤ length bytes.now }
    ensures { IfOk result (λ ends. ends.items ≡ take front bytes.now ++ drop (length bytes.now - back) bytes.now) }
{
    let mut ends = Vec::new(alloc);
    ends.extend_from_slice(&bytes[..front])?;
    ends.extend_from_slice(&bytes[bytes.len() - back..])?;
    Ok(ends)
}

/// The bytes of the records of a leaf before those that go and behind them, of the bytes of all.
fn kept_bytes(
    alloc: Global,
    leaf: &Leaf,
    rec_bytes: u64,
    first: u32,
    last: u32,
    plain: &[u8],
) -> Result<Vec<u8>, AllocError>
    requires cut { IsCutIn first last (seen leaf.now) }
    requires order { first ≤ last }
    requires long { length plain.now ≡ block_size (seen leaf.now) rec_bytes }
    ensures { IfOk result (λ kept. kept.items ≡ outer_bytes rec_bytes first last (seen leaf.now) plain.now) }
{
    let front = u64::from(first.saturating_sub(leaf.first)) * rec_bytes;
    let back = u64::from(leaf.last.saturating_sub(last)) * rec_bytes;
    both_ends(alloc, plain, front as usize, back as usize)
}

/// Gives the block of a leaf, of which some records go and others stay, the plain bytes of those that stay alone. After an error a part of this may
/// have been done.
#[tactic(auto, using(cdf_area::proofs::Calls::edit_done, cdf_area::proofs::Calls::edit_failed, cdf_area::proofs::Calls::edit_more, cdf_area::proofs::Calls::edits_by_read, cdf_area::proofs::Calls::keeps_by_read, cdf_area::proofs::Calls::read_failed, cdf_area::proofs::Calls::read_more, cdf_area::proofs::Calls::read_once))]
fn keep_parts<A: Area>(
    alloc: Global,
    area: &mut A,
    rec_bytes: u64,
    found: &SitedLeaf,
    first: u32,
    last: u32,
) -> Result<(), AreaError>
    requires kept { HasKept (A.image area.old) found.now.site (seen found.now.leaf) first last rec_bytes (A.frame area.old).limit }
    requires limit { (A.frame area.old).limit ≤ image_limit }
    ensures parts { OnOk result ((kind : Kind) (before : List VariableShape) (own : VariableShape) (after : List VariableShape) → IsKeptOf (A.image area.old) kind before own after found.now.site (seen found.now.leaf) first last rec_bytes (A.frame area.old).limit → PartsLeft (A.image area.old) (A.image area.new) kind before own after (seen found.now.leaf) first last) }
    ensures area { Edits A.frame A.faults area.old area.new result }
{
    let leaf = &found.leaf;
    let size = block_size(leaf, rec_bytes);
    let plain = read_plain(alloc, area, leaf, size)?;
    let kept = kept_bytes(alloc, leaf, rec_bytes, first, last, &plain)?;
    let part = part_kept(leaf, first, last);
    shorten_block(alloc, area, found.site, leaf, part, &kept)?;
    Ok(())
}

/// Gives the block of the leaf that has the record before an edge and the one behind it, if there is one, the plain bytes of the records that stay
/// alone. The edge stands before the first record that goes, or behind the last one. After an error a part of this may have been done.
#[tactic(auto, using(cdf_area::proofs::Calls::edit_done, cdf_area::proofs::Calls::edit_failed, cdf_area::proofs::Calls::edit_more, cdf_area::proofs::Calls::edits_by_read, cdf_area::proofs::Calls::keeps_by_read, cdf_area::proofs::Calls::read_failed, cdf_area::proofs::Calls::read_more, cdf_area::proofs::Calls::read_once))]
fn keep_at<A: Area>(
    alloc: Global,
    area: &mut A,
    vdr: u64,
    rec_bytes: u64,
    edge: u32,
    first: u32,
    last: u32,
) -> Result<Option<SitedLeaf>, AreaError>
    requires good { Good (A.image area.old) }
    requires vdr { In vdr (vdrs (variables (shape (A.image area.old)))) }
    requires packed { is_compressed (A.image area.old) vdr ≡ true }
    requires size { rec_bytes ≡ record_bytes (A.image area.old) vdr }
    requires order { first ≤ last }
    requires edge { IsEdge edge first last }
    requires room { HasKeepingRoom (A.image area.old) (leaves_of (index_at (A.image area.old) (number (A.image area.old) vdr vdr_vxr_head))) rec_bytes first last (A.frame area.old).limit }
    requires short { length (A.image area.old) ≤ image_limit }
    requires limit { (A.frame area.old).limit ≤ image_limit }
    ensures kept { IfOk result (λ found. (kind : Kind) (before : List VariableShape) (own : VariableShape) (after : List VariableShape) → StandsAmong (A.image area.old) kind before own after → own.vdr ≡ vdr → KeptAt (A.image area.old) (A.image area.new) kind before own after edge first last found) }
    ensures area { Edits A.frame A.faults area.old area.new result }
{
    let split = find_split(alloc, area, vdr, edge)?;
    match split {
        Some(found) => {
            keep_parts(alloc, area, rec_bytes, &found, first, last)?;
            Ok(Some(found))
        }
        None => Ok(None),
    }
}

/// The last record of a leaf that was found, where it has later ones than a last one.
fn later_end(found: Option<SitedLeaf>, last: u32) -> Option<u32>
    ensures { result ≡ later_end last found }
{
    let leaf = found?.leaf;
    if last < leaf.last {
        Some(leaf.last)
    } else {
        None
    }
}

/// Gives the block of each leaf of which some records go and others stay the plain bytes of those that stay alone, the earlier one first. Gives the
/// first of as many numbers as go that no leaf has any more, or whole leaves. After an error a part of this may have been done.
#[tactic(auto, using(cdf_area::proofs::Calls::edit_done, cdf_area::proofs::Calls::edit_failed, cdf_area::proofs::Calls::edit_more, cdf_area::proofs::Calls::edits_by_read, cdf_area::proofs::Calls::keeps_by_read, cdf_area::proofs::Calls::read_failed, cdf_area::proofs::Calls::read_more, cdf_area::proofs::Calls::read_once))]
fn keep_some<A: Area>(
    alloc: Global,
    area: &mut A,
    vdr: u64,
    rec_bytes: u64,
    first: u32,
    last: u32,
) -> Result<u32, AreaError>
    requires good { Good (A.image area.old) }
    requires vdr { In vdr (vdrs (variables (shape (A.image area.old)))) }
    requires packed { is_compressed (A.image area.old) vdr ≡ true }
    requires size { rec_bytes ≡ record_bytes (A.image area.old) vdr }
    requires order { first ≤ last }
    requires small { last ≤ record_number_limit }
    requires room { length (A.image area.old) + keeping_room rec_bytes (keeping first last (leaves_of (index_at (A.image area.old) (number (A.image area.old) vdr vdr_vxr_head)))) ≤ (A.frame area.old).limit }
    requires limit { (A.frame area.old).limit ≤ image_limit }
    ensures kept { IfOk result (λ from. (kind : Kind) (before : List VariableShape) (own : VariableShape) (after : List VariableShape) → StandsAmong (A.image area.old) kind before own after → own.vdr ≡ vdr → SomeKept (A.image area.old) (A.image area.new) kind before own after first last from) }
    ensures upto { IfOk result (λ from. from + (last - first) ≤ record_number_limit) }
    ensures area { Edits A.frame A.faults area.old area.new result }
{
    let front = keep_at(alloc, area, vdr, rec_bytes, first, first, last)?;
    let end = later_end(front, last);
    match end {
        Some(end) => Ok(end - (last - first)),
        None => {
            keep_at(alloc, area, vdr, rec_bytes, last + 1, first, last)?;
            Ok(first)
        }
    }
}

/// Takes the records from a first to a last out of a packed variable, and later ones close up: of a leaf of which some records stay the block gets
/// the plain bytes of these alone, packed or not, in its record or in a new one; the other blocks and the nodes without entries are freed after.
/// After an error a part of this may have been done.
#[tactic(auto, using(cdf_area::proofs::Calls::edit_done, cdf_area::proofs::Calls::edit_failed, cdf_area::proofs::Calls::edit_more, cdf_area::proofs::Calls::edits_by_read, cdf_area::proofs::Calls::keeps_by_read, cdf_area::proofs::Calls::read_failed, cdf_area::proofs::Calls::read_more, cdf_area::proofs::Calls::read_once))]
pub fn close_packed<A: Area>(
    alloc: Global,
    area: &mut A,
    vdr: u64,
    rec_bytes: u64,
    first: u32,
    last: u32,
) -> Result<(), AreaError>
    requires good { Good (A.image area.old) }
    requires vdr { In vdr (vdrs (variables (shape (A.image area.old)))) }
    requires packed { is_compressed (A.image area.old) vdr ≡ true }
    requires size { rec_bytes ≡ record_bytes (A.image area.old) vdr }
    requires order { first ≤ last }
    requires small { last ≤ record_number_limit }
    requires room { length (A.image area.old) + keeping_room rec_bytes (keeping first last (leaves_of (index_at (A.image area.old) (number (A.image area.old) vdr vdr_vxr_head)))) ≤ (A.frame area.old).limit }
    requires limit { (A.frame area.old).limit ≤ image_limit }
    ensures closed { OnOk result ((kind : Kind) (before : List VariableShape) (own : VariableShape) (after : List VariableShape) → StandsAmong (A.image area.old) kind before own after → own.vdr ≡ vdr → PackedClosed (A.image area.old) (A.image area.new) kind before own after first last) }
    ensures area { Edits A.frame A.faults area.old area.new result }
{
    let from = keep_some(alloc, area, vdr, rec_bytes, first, last)?;
    close_whole(alloc, area, vdr, from, from + (last - first))
}
