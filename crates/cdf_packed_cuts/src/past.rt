//! All records from a first one on, taken out of a packed variable.

ghost use Rattle.std.specs.Prelude.{◌≡◌, ◌≤◌, List, length, true, IfOk, OnOk};
ghost use Rattle.cdf_area.specs.Calls.{Edits, Reads};
ghost use Rattle.cdf_edits.specs.Edits.Standing.{StandsAmong};
ghost use Rattle.cdf_format.specs.Fields.{number};
ghost use Rattle.cdf_format.specs.Index.{leaves_of};
ghost use Rattle.cdf_format.specs.Records.{vdr_vxr_head};
ghost use Rattle.cdf_format.specs.Shape.{VariableShape, is_compressed, shape, variables, vdrs};
ghost use Rattle.cdf_format.specs.Tiles.{In};
ghost use Rattle.cdf_format.specs.VariableFields.{record_bytes};
ghost use Rattle.cdf_format.specs.WellFormed.{Good};
ghost use Rattle.cdf_index.specs.Finding.{index_at};
ghost use Rattle.cdf_index.specs.Sight.{seen};
ghost use Rattle.cdf_model.specs.Limits.{image_limit};
ghost use Rattle.cdf_model.specs.declared.kinds.Kind.{Kind};
ghost use Rattle.cdf_packed_cuts.specs.Past.{HasRoom, PackedPast};
ghost use Rattle.cdf_packed_cuts.specs.Splitting.{FrontKept, FrontLeft, HasSplit, IsSplitOf, SplitIs};

use cdf_area::{Area, AreaError};
use cdf_blocks::{Part, SitedLeaf, block_size, find_site, read_plain, shorten_block};
use cdf_cuts::cut_end;
use cdf_format::fields::VDR_VXR_HEAD;
use cdf_puts::Search;
use cdf_records::read_unsigned8;
use std::alloc::Global;

/// The leaf that has the record before a first one and this one too, and the entry that names its block; none where no leaf has both.
#[tactic(auto, using(cdf_area::proofs::Calls::edit_done, cdf_area::proofs::Calls::edit_failed, cdf_area::proofs::Calls::edit_more, cdf_area::proofs::Calls::edits_by_read, cdf_area::proofs::Calls::keeps_by_read, cdf_area::proofs::Calls::read_failed, cdf_area::proofs::Calls::read_more, cdf_area::proofs::Calls::read_once))]
pub fn find_split<A: Area>(
    alloc: Global,
    area: &mut A,
    vdr: u64,
    first: u32,
) -> Result<Option<SitedLeaf>, AreaError>
    requires good { Good (A.image area.old) }
    requires vdr { In vdr (vdrs (variables (shape (A.image area.old)))) }
    requires short { length (A.image area.old) ≤ image_limit }
    ensures split { IfOk result (λ found. (kind : Kind) (before : List VariableShape) (own : VariableShape) (after : List VariableShape) → StandsAmong (A.image area.old) kind before own after → own.vdr ≡ vdr → SplitIs (A.image area.old) own.index first found) }
    ensures area { Reads A.image A.frame A.faults A.edited area.old area.new result }
{
    if first == 0 {
        return Ok(None);
    }
    // An image has fewer than 2^64 bytes, so no place in it overflows.
    let _size = area.size();
    let head = read_unsigned8(area, vdr + VDR_VXR_HEAD)?;
    let search = Search::begin(area, head, None, first - 1)?;
    let Some(found) = find_site(alloc, area, &search)? else {
        return Ok(None);
    };
    if found.leaf.last < first {
        return Ok(None);
    }
    Ok(Some(found))
}

/// Gives the block of a leaf the plain bytes of its records before a first one alone. After an error a part of this may have been done.
#[tactic(auto, using(cdf_area::proofs::Calls::edit_done, cdf_area::proofs::Calls::edit_failed, cdf_area::proofs::Calls::edit_more, cdf_area::proofs::Calls::edits_by_read, cdf_area::proofs::Calls::keeps_by_read, cdf_area::proofs::Calls::read_failed, cdf_area::proofs::Calls::read_more, cdf_area::proofs::Calls::read_once))]
fn shorten_leaf<A: Area>(
    alloc: Global,
    area: &mut A,
    rec_bytes: u64,
    found: &SitedLeaf,
    first: u32,
) -> Result<(), AreaError>
    requires split { HasSplit (A.image area.old) found.now.site (seen found.now.leaf) first rec_bytes (A.frame area.old).limit }
    requires limit { (A.frame area.old).limit ≤ image_limit }
    ensures front { OnOk result ((kind : Kind) (before : List VariableShape) (own : VariableShape) (after : List VariableShape) → IsSplitOf (A.image area.old) kind before own after found.now.site (seen found.now.leaf) first rec_bytes (A.frame area.old).limit → FrontLeft (A.image area.old) (A.image area.new) kind before own after (seen found.now.leaf) first) }
    ensures area { Edits A.frame A.faults area.old area.new result }
{
    let leaf = &found.leaf;
    let size = block_size(leaf, rec_bytes);
    let plain = read_plain(alloc, area, leaf, size)?;
    let front = u64::from(first - leaf.first) * rec_bytes;
    let part = Part {
        first: leaf.first,
        last: first - 1,
    };
    shorten_block(
        alloc,
        area,
        found.site,
        leaf,
        part,
        &plain[..front as usize],
    )?;
    Ok(())
}

/// Gives the block of the leaf that has the record before a first one and this one too, if there is one, the plain bytes of its records before this
/// one alone. After an error a part of this may have been done.
#[tactic(auto, using(cdf_area::proofs::Calls::edit_done, cdf_area::proofs::Calls::edit_failed, cdf_area::proofs::Calls::edit_more, cdf_area::proofs::Calls::edits_by_read, cdf_area::proofs::Calls::keeps_by_read, cdf_area::proofs::Calls::read_failed, cdf_area::proofs::Calls::read_more, cdf_area::proofs::Calls::read_once))]
fn keep_front<A: Area>(
    alloc: Global,
    area: &mut A,
    vdr: u64,
    rec_bytes: u64,
    first: u32,
) -> Result<(), AreaError>
    requires good { Good (A.image area.old) }
    requires vdr { In vdr (vdrs (variables (shape (A.image area.old)))) }
    requires packed { is_compressed (A.image area.old) vdr ≡ true }
    requires size { rec_bytes ≡ record_bytes (A.image area.old) vdr }
    requires room { HasRoom (A.image area.old) (leaves_of (index_at (A.image area.old) (number (A.image area.old) vdr vdr_vxr_head))) rec_bytes first (A.frame area.old).limit }
    requires short { length (A.image area.old) ≤ image_limit }
    requires limit { (A.frame area.old).limit ≤ image_limit }
    ensures front { OnOk result ((kind : Kind) (before : List VariableShape) (own : VariableShape) (after : List VariableShape) → StandsAmong (A.image area.old) kind before own after → own.vdr ≡ vdr → FrontKept (A.image area.old) (A.image area.new) kind before own after first) }
    ensures area { Edits A.frame A.faults area.old area.new result }
{
    let split = find_split(alloc, area, vdr, first)?;
    match split {
        Some(found) => shorten_leaf(alloc, area, rec_bytes, &found, first),
        None => Ok(()),
    }
}

/// Takes all records from a first one on out of a packed variable: of a leaf that has records before them too, the block gets the plain bytes of
/// these alone, packed or not, in its record or in a new one; the other blocks and the nodes without entries are freed after. After an error a part
/// of this may have been done.
#[tactic(auto, using(cdf_area::proofs::Calls::edit_done, cdf_area::proofs::Calls::edit_failed, cdf_area::proofs::Calls::edit_more, cdf_area::proofs::Calls::edits_by_read, cdf_area::proofs::Calls::keeps_by_read, cdf_area::proofs::Calls::read_failed, cdf_area::proofs::Calls::read_more, cdf_area::proofs::Calls::read_once))]
pub fn cut_packed_past<A: Area>(
    alloc: Global,
    area: &mut A,
    vdr: u64,
    rec_bytes: u64,
    first: u32,
) -> Result<(), AreaError>
    requires good { Good (A.image area.old) }
    requires vdr { In vdr (vdrs (variables (shape (A.image area.old)))) }
    requires packed { is_compressed (A.image area.old) vdr ≡ true }
    requires size { rec_bytes ≡ record_bytes (A.image area.old) vdr }
    requires room { HasRoom (A.image area.old) (leaves_of (index_at (A.image area.old) (number (A.image area.old) vdr vdr_vxr_head))) rec_bytes first (A.frame area.old).limit }
    requires short { length (A.image area.old) ≤ image_limit }
    requires limit { (A.frame area.old).limit ≤ image_limit }
    ensures past { OnOk result ((kind : Kind) (before : List VariableShape) (own : VariableShape) (after : List VariableShape) → StandsAmong (A.image area.old) kind before own after → own.vdr ≡ vdr → PackedPast (A.image area.old) (A.image area.new) kind before own after first) }
    ensures area { Edits A.frame A.faults area.old area.new result }
{
    keep_front(alloc, area, vdr, rec_bytes, first)?;
    cut_end(alloc, area, vdr, first)
}
