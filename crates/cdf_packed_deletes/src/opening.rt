//! Records taken out of a packed variable, where later ones keep their numbers.

ghost use Rattle.std.specs.Prelude.{◌≡◌, ◌≤◌, ◌+◌, List, length, true, IfOk, OnOk};
ghost use Rattle.cdf_area.specs.Calls.{Edits};
ghost use Rattle.cdf_blocks.specs.Blocks.{LiesIn};
ghost use Rattle.cdf_blocks.specs.Reading.{block_size};
ghost use Rattle.cdf_edits.specs.Edits.Standing.{StandsAmong};
ghost use Rattle.cdf_format.specs.Fields.{number};
ghost use Rattle.cdf_format.specs.Index.{leaves_of};
ghost use Rattle.cdf_format.specs.Records.{vdr_vxr_head};
ghost use Rattle.cdf_format.specs.Shape.{Each, VariableShape, is_compressed, shape, variables, vdrs};
ghost use Rattle.cdf_format.specs.Tiles.{In};
ghost use Rattle.cdf_format.specs.VariableFields.{record_bytes};
ghost use Rattle.cdf_format.specs.WellFormed.{Good};
ghost use Rattle.cdf_index.specs.Finding.{index_at};
ghost use Rattle.cdf_index.specs.Sight.{seen};
ghost use Rattle.cdf_model.specs.Limits.{image_limit, record_number_limit};
ghost use Rattle.cdf_model.specs.declared.kinds.Kind.{Kind};
ghost use Rattle.cdf_packed_deletes.specs.Keeping.{IsAllOrNone, IsCutIn, IsEdge, first_kept};
ghost use Rattle.cdf_packed_deletes.specs.OpenKeeping.{HasLater, HasOpen, HasOpenRoom, IsLater, IsLaterPart, IsOpenOf, Opened, OpenedAt, SomeOpened, WholeOpened, last_open, part_bytes};
ghost use Rattle.cdf_packed_deletes.specs.Opening.{PackedOpened, keeping_open, keeping_open_room, opening_room};
ghost use Rattle.cdf_packed_puts.specs.Adding.{BlockAdded};

use cdf_area::{Area, AreaError};
use cdf_blocks::{Part, SitedLeaf, block_size, read_plain, shorten_block};
use cdf_cuts::{Span, cut_index};
use cdf_format::fields::VDR_VXR_HEAD;
use cdf_index::Leaf;
use cdf_packed_cuts::find_split;
use cdf_packed_puts::{Vacancy, add_packed};
use cdf_puts::Search;
use cdf_records::read_unsigned8;
use std::alloc::{AllocError, Global};

/// Records that are to get a new block: the last one, and their bytes.
#[derive(Drop)]
pub struct Later {
    /// The last record.
    pub last: u32,
    /// The plain bytes of them all.
    pub plain: Vec<u8>,
}

/// Which records a leaf keeps in its block once some go and later ones keep their numbers: those before them, or else those behind them.
fn part_open(leaf: &Leaf, first: u32, last: u32) -> Part
    requires cut { IsCutIn first last (seen leaf.now) }
    requires order { first ≤ last }
    requires small { leaf.now.last ≤ record_number_limit }
    ensures first { result.first ≡ first_kept first last (seen leaf.now) }
    ensures last { result.last ≡ last_open first last (seen leaf.now) }
{
    if leaf.first < first {
        Part {
            first: leaf.first,
            last: first - 1,
        }
    } else {
        Part {
            first: last + 1,
            last: leaf.last,
        }
    }
}

/// The bytes of some records of a leaf, of the bytes of all.
fn bytes_of_part<'a>(leaf: &Leaf, rec_bytes: u64, part: Part, plain: &'a [u8]) -> &'a [u8]
    requires lies { LiesIn (seen leaf.now) part.first part.last }
    requires long { length plain.now ≡ block_size (seen leaf.now) rec_bytes }
    ensures { result.now ≡ part_bytes rec_bytes (seen leaf.now) part.first part.last plain.now }
{
    let from = u64::from(part.first - leaf.first) * rec_bytes;
    let count = (u64::from(part.last - part.first) + 1) * rec_bytes;
    let behind = &plain[from as usize..];
    &behind[..count as usize]
}

/// The records of a leaf behind those that go, where it has others before them too.
fn later_part(
    alloc: Global,
    leaf: &Leaf,
    rec_bytes: u64,
    first: u32,
    last: u32,
    plain: &[u8],
) -> Result<Option<Later>, AllocError>
    requires cut { IsCutIn first last (seen leaf.now) }
    requires order { first ≤ last }
    requires long { length plain.now ≡ block_size (seen leaf.now) rec_bytes }
    ensures { IfOk result (λ later. IsLaterPart rec_bytes first last (seen leaf.now) plain.now later) }
{
    if leaf.first < first && last < leaf.last {
        let part = Part {
            first: last + 1,
            last: leaf.last,
        };
        let mut later = Vec::new(alloc);
        later.extend_from_slice(bytes_of_part(leaf, rec_bytes, part, plain))?;
        Ok(Some(Later {
            last: leaf.last,
            plain: later,
        }))
    } else {
        Ok(None)
    }
}

/// Gives the block of a leaf, of which some records go and others stay, the plain bytes of those before the ones that go alone, or else of those
/// behind them. Gives those behind them, where there are others before. After an error a part of this may have been done.
#[tactic(auto, using(cdf_area::proofs::Calls::edit_done, cdf_area::proofs::Calls::edit_failed, cdf_area::proofs::Calls::edit_more, cdf_area::proofs::Calls::edits_by_read, cdf_area::proofs::Calls::keeps_by_read, cdf_area::proofs::Calls::read_failed, cdf_area::proofs::Calls::read_more, cdf_area::proofs::Calls::read_once))]
fn open_parts<A: Area>(
    alloc: Global,
    area: &mut A,
    rec_bytes: u64,
    found: &SitedLeaf,
    first: u32,
    last: u32,
) -> Result<Option<Later>, AreaError>
    requires kept { HasOpen (A.image area.old) found.now.site (seen found.now.leaf) first last rec_bytes (A.frame area.old).limit }
    requires limit { (A.frame area.old).limit ≤ image_limit }
    ensures parts { IfOk result (λ later. (kind : Kind) (before : List VariableShape) (own : VariableShape) (after : List VariableShape) → IsOpenOf (A.image area.old) kind before own after found.now.site (seen found.now.leaf) first last rec_bytes (A.frame area.old).limit → Opened (A.image area.old) (A.image area.new) kind before own after (seen found.now.leaf) first last later) }
    ensures area { Edits A.frame A.faults area.old area.new result }
{
    let leaf = &found.leaf;
    let size = block_size(leaf, rec_bytes);
    let plain = read_plain(alloc, area, leaf, size)?;
    let later = later_part(alloc, leaf, rec_bytes, first, last, &plain)?;
    let part = part_open(leaf, first, last);
    let kept = bytes_of_part(leaf, rec_bytes, part, &plain);
    shorten_block(alloc, area, found.site, leaf, part, kept)?;
    Ok(later)
}

/// Gives the block of the leaf that has the record before an edge and the one behind it, if there is one, the plain bytes of the records that stay in
/// it alone. The edge stands before the first record that goes, or behind the last one. Gives those that are to be split off. After an error a part of
/// this may have been done.
#[tactic(auto, using(cdf_area::proofs::Calls::edit_done, cdf_area::proofs::Calls::edit_failed, cdf_area::proofs::Calls::edit_more, cdf_area::proofs::Calls::edits_by_read, cdf_area::proofs::Calls::keeps_by_read, cdf_area::proofs::Calls::read_failed, cdf_area::proofs::Calls::read_more, cdf_area::proofs::Calls::read_once))]
fn open_at<A: Area>(
    alloc: Global,
    area: &mut A,
    vdr: u64,
    rec_bytes: u64,
    edge: u32,
    first: u32,
    last: u32,
) -> Result<Option<Later>, AreaError>
    requires good { Good (A.image area.old) }
    requires vdr { In vdr (vdrs (variables (shape (A.image area.old)))) }
    requires packed { is_compressed (A.image area.old) vdr ≡ true }
    requires size { rec_bytes ≡ record_bytes (A.image area.old) vdr }
    requires order { first ≤ last }
    requires edge { IsEdge edge first last }
    requires room { HasOpenRoom (A.image area.old) (leaves_of (index_at (A.image area.old) (number (A.image area.old) vdr vdr_vxr_head))) rec_bytes first last (A.frame area.old).limit }
    requires short { length (A.image area.old) ≤ image_limit }
    requires limit { (A.frame area.old).limit ≤ image_limit }
    ensures opened { IfOk result (λ later. (kind : Kind) (before : List VariableShape) (own : VariableShape) (after : List VariableShape) → StandsAmong (A.image area.old) kind before own after → own.vdr ≡ vdr → OpenedAt (A.image area.old) (A.image area.new) kind before own after edge first last later) }
    ensures area { Edits A.frame A.faults area.old area.new result }
{
    let split = find_split(alloc, area, vdr, edge)?;
    match split {
        Some(found) => {
            let later = open_parts(alloc, area, rec_bytes, &found, first, last)?;
            Ok(later)
        }
        None => Ok(None),
    }
}

/// Gives the block of each leaf of which some records go and others stay the plain bytes of those that stay in it alone, the earlier one first. Gives
/// those that are to be split off, where a leaf has records on both sides. After an error a part of this may have been done.
#[tactic(auto, using(cdf_area::proofs::Calls::edit_done, cdf_area::proofs::Calls::edit_failed, cdf_area::proofs::Calls::edit_more, cdf_area::proofs::Calls::edits_by_read, cdf_area::proofs::Calls::keeps_by_read, cdf_area::proofs::Calls::read_failed, cdf_area::proofs::Calls::read_more, cdf_area::proofs::Calls::read_once))]
fn open_some<A: Area>(
    alloc: Global,
    area: &mut A,
    vdr: u64,
    rec_bytes: u64,
    first: u32,
    last: u32,
) -> Result<Option<Later>, AreaError>
    requires good { Good (A.image area.old) }
    requires vdr { In vdr (vdrs (variables (shape (A.image area.old)))) }
    requires packed { is_compressed (A.image area.old) vdr ≡ true }
    requires size { rec_bytes ≡ record_bytes (A.image area.old) vdr }
    requires order { first ≤ last }
    requires small { last ≤ record_number_limit }
    requires room { length (A.image area.old) + keeping_open_room rec_bytes first last (keeping_open first last (leaves_of (index_at (A.image area.old) (number (A.image area.old) vdr vdr_vxr_head)))) ≤ (A.frame area.old).limit }
    requires limit { (A.frame area.old).limit ≤ image_limit }
    ensures opened { IfOk result (λ later. (kind : Kind) (before : List VariableShape) (own : VariableShape) (after : List VariableShape) → StandsAmong (A.image area.old) kind before own after → own.vdr ≡ vdr → SomeOpened (A.image area.old) (A.image area.new) kind before own after first last later) }
    ensures area { Edits A.frame A.faults area.old area.new result }
{
    let front = open_at(alloc, area, vdr, rec_bytes, first, first, last)?;
    match front {
        Some(later) => Ok(Some(later)),
        None => {
            open_at(alloc, area, vdr, rec_bytes, last + 1, first, last)?;
            Ok(None)
        }
    }
}

/// Takes the leaves of which all records go out of the index of the variable whose descriptor stands at a place, and later records keep their
/// numbers. No leaf has some of the records that go and others. After an error a part of this may have been done.
fn open_whole<A: Area>(
    alloc: Global,
    area: &mut A,
    vdr: u64,
    first: u32,
    last: u32,
) -> Result<(), AreaError>
    requires good { Good (A.image area.old) }
    requires vdr { In vdr (vdrs (variables (shape (A.image area.old)))) }
    requires order { first ≤ last }
    requires whole { Each (IsAllOrNone first last) (leaves_of (index_at (A.image area.old) (number (A.image area.old) vdr vdr_vxr_head))) }
    requires short { length (A.image area.old) ≤ image_limit }
    ensures opened { OnOk result ((kind : Kind) (before : List VariableShape) (own : VariableShape) (after : List VariableShape) → StandsAmong (A.image area.old) kind before own after → own.vdr ≡ vdr → WholeOpened (A.image area.old) (A.image area.new) kind before own after first last) }
    ensures area { Edits A.frame A.faults area.old area.new result }
{
    let span = Span {
        first,
        last,
        close: false,
    };
    cut_index(alloc, area, vdr, span)
}

/// Gives the records behind a last one that went, which are split off, a block of their own. After an error a part of this may have been done.
#[tactic(auto, using(cdf_area::proofs::Calls::edit_done, cdf_area::proofs::Calls::edit_failed, cdf_area::proofs::Calls::edit_more, cdf_area::proofs::Calls::edits_by_read, cdf_area::proofs::Calls::keeps_by_read, cdf_area::proofs::Calls::read_failed, cdf_area::proofs::Calls::read_more, cdf_area::proofs::Calls::read_once))]
fn add_later<A: Area>(
    alloc: Global,
    area: &mut A,
    vdr: u64,
    last: u32,
    later: &Later,
) -> Result<(), AreaError>
    requires later { HasLater (A.image area.old) vdr last later.now (A.frame area.old).limit }
    requires small { last ≤ record_number_limit }
    requires limit { (A.frame area.old).limit ≤ image_limit }
    ensures added { OnOk result ((kind : Kind) (before : List VariableShape) (own : VariableShape) (after : List VariableShape) → IsLater (A.image area.old) kind before own after vdr last later.now (A.frame area.old).limit → BlockAdded (A.image area.old) (A.image area.new) kind before own after (last + 1) later.now.last later.now.plain.items) }
    ensures area { Edits A.frame A.faults area.old area.new result }
{
    let head = read_unsigned8(area, vdr + VDR_VXR_HEAD)?;
    let search = Search::begin(area, head, None, last + 1)?;
    let vacancy = Vacancy {
        vdr,
        start: search.start,
        first: last + 1,
        last: later.last,
    };
    add_packed(alloc, area, vacancy, &later.plain)
}

/// Takes the records from a first to a last out of a packed variable, and later ones keep their numbers: of a leaf of which some records stay the
/// block gets the plain bytes of those before the ones that go alone, or else of those behind them; then the blocks of which all records go are freed,
/// and the nodes without entries; where a leaf has records on both sides, those behind get a new block last. After an error a part of this may have
/// been done.
#[tactic(auto, using(cdf_area::proofs::Calls::edit_done, cdf_area::proofs::Calls::edit_failed, cdf_area::proofs::Calls::edit_more, cdf_area::proofs::Calls::edits_by_read, cdf_area::proofs::Calls::keeps_by_read, cdf_area::proofs::Calls::read_failed, cdf_area::proofs::Calls::read_more, cdf_area::proofs::Calls::read_once))]
pub fn open_packed<A: Area>(
    alloc: Global,
    area: &mut A,
    vdr: u64,
    rec_bytes: u64,
    first: u32,
    last: u32,
) -> Result<(), AreaError>
    requires good { Good (A.image area.old) }
    requires vdr { In vdr (vdrs (variables (shape (A.image area.old)))) }
    requires packed { is_compressed (A.image area.old) vdr ≡ true }
    requires size { rec_bytes ≡ record_bytes (A.image area.old) vdr }
    requires order { first ≤ last }
    requires small { last ≤ record_number_limit }
    requires room { length (A.image area.old) + opening_room rec_bytes first last (index_at (A.image area.old) (number (A.image area.old) vdr vdr_vxr_head)) ≤ (A.frame area.old).limit }
    requires limit { (A.frame area.old).limit ≤ image_limit }
    ensures opened { OnOk result ((kind : Kind) (before : List VariableShape) (own : VariableShape) (after : List VariableShape) → StandsAmong (A.image area.old) kind before own after → own.vdr ≡ vdr → PackedOpened (A.image area.old) (A.image area.new) kind before own after first last) }
    ensures area { Edits A.frame A.faults area.old area.new result }
{
    let later = open_some(alloc, area, vdr, rec_bytes, first, last)?;
    open_whole(alloc, area, vdr, first, last)?;
    match later {
        Some(later) => add_later(alloc, area, vdr, last, &later),
        None => Ok(()),
    }
}
