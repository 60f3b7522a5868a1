//! Whether there is room for a put.

ghost use Rattle.std.specs.Prelude.{◌≡◌, ◌≤◌, ◌<◌, ◌+◌, ◌-◌, ◌^◌, suc, length, true, false, IfOk, IfSome, if◌then◌else◌};
ghost use Rattle.cdf_area.specs.Calls.{Reads};
ghost use Rattle.cdf_edits.specs.Edits.Standing.{Ascending};
ghost use Rattle.cdf_edits.specs.Commands.Room.{uncovered};
ghost use Rattle.cdf_edits.specs.Index.Blocks.{block_count, covered, first_written, is_sparse, ranges_of, wanted_count};
ghost use Rattle.cdf_format.specs.Fields.{LiesIn, integer4, number};
ghost use Rattle.cdf_format.specs.Index.{leaves_of};
ghost use Rattle.cdf_format.specs.Records.{vdr_blocking_factor, vdr_vxr_head, past, vdr_name};
ghost use Rattle.cdf_format.specs.VariableFields.{max_rec_at};
ghost use Rattle.cdf_format.specs.WellFormed.{Good};
ghost use Rattle.cdf_index.specs.Finding.{index_at, HasIndex};
ghost use Rattle.cdf_model.specs.DataSet.{extent};
ghost use Rattle.cdf_model.specs.Limits.{image_limit, record_number_limit};
ghost use Rattle.cdf_model.specs.Place.{record_limit};
ghost use Rattle.cdf_puts.specs.Searching.{IsSearch};
ghost use Rattle.cdf_puts.specs.Starts.{InTopChain, IsKnownStart, IsWithin, KnowsStarts};
ghost use Rattle.cdf_var_records.specs.Room.{ExpectsPut, IsStretch, count_in_block, put_room_at, room_by, room_in};
ghost use Rattle.cdf_var_records.specs.Records.{IsForm, variable_at};

use crate::extent::read_extent;
use crate::form::Form;
use crate::packed_room::read_packed_room;
use crate::record::{record_size_of, says_vary};
use crate::variable::read_sparse;
use cdf_area::{Area, AreaError};
use cdf_format::fields::{
    LINKED_SIZE, VDR_BLOCKING_FACTOR, VDR_VXR_HEAD, VXR_ENTRY_SIZE, VXR_FIRST,
};
use cdf_index::index_size;
use cdf_model::Sparse;
use cdf_model::limits::RECORD_NUMBER_LIMIT;
use cdf_puts::{IndexBound, Search, Starts};
use cdf_records::{read_signed4, read_unsigned8};

/// The most bytes of the records of a block that has more than one.
const BLOCK_LIMIT: u64 = 1_048_576;

/// The records of a block where BlockingFactor is not positive.
const USUAL_COUNT: u64 = 64;

/// Records that stand one after the other and have a block each, or have none.
#[derive(Clone, Copy)]
pub struct Stretch {
    /// The record behind them.
    pub end: u32,
    /// How many of them have no block.
    pub missing: u32,
}

/// New blocks for records that have none.
#[derive(Clone, Copy)]
pub struct NewBlocks {
    /// How many records a block has.
    pub count: u32,
    /// How many bytes a record has.
    pub size: u64,
    /// How many records have no block.
    pub missing: u32,
}

/// The first record that is written where one past MaxRec + 1 is put, by the rule for missing records and by how many records there are.
fn first_past(rule: Sparse, rec: u32, count: u32) -> u32
    ensures { result ≡ (if is_sparse rule then rec else count) }
{
    match rule {
        Sparse::NoRule => count,
        Sparse::Pad | Sparse::Previous => rec,
    }
}

/// The first record that is written where a record is put of the variable whose descriptor stands at a place, and which has so many
/// records: without a rule for missing records, those past MaxRec are written too.
pub fn read_first_written<A: Area>(
    area: &mut A,
    vdr: u64,
    rec: u32,
    count: u32,
) -> Result<u32, AreaError>
    requires lies { LiesIn (A.image area.old) vdr vdr_name }
    requires count { count ≡ extent (max_rec_at (A.image area.old) vdr) }
    ensures first { IfOk result (λ from. from ≡ first_written (variable_at (A.image area.old) vdr) rec) }
    ensures area { Reads A.image A.frame A.faults A.edited area.old area.new result }
{
    if rec <= count {
        return Ok(rec);
    }
    let rule = read_sparse(area, vdr)?;
    Ok(first_past(rule, rec, count))
}

/// How many records a block is to have, by BlockingFactor.
fn wanted(blocking: i32) -> u64
    ensures { result ≡ wanted_count blocking }
{
    if blocking > 0 {
        blocking as u64
    } else {
        USUAL_COUNT
    }
}

/// How many records a block of the variable is to have whose descriptor stands at a place.
fn read_wanted<A: Area>(area: &mut A, vdr: u64) -> Result<u64, AreaError>
    requires { vdr + past vdr_name ≤ length (A.image area.old) }
    ensures wanted { IfOk result (λ n. n ≡ wanted_count (integer4 (A.image area.old) vdr vdr_blocking_factor)) }
    ensures area { Reads A.image A.frame A.faults A.edited area.old area.new result }
{
    // An image has fewer than 2^64 bytes, so no place in it overflows.
    let _size = area.size();
    let blocking = read_signed4(area, vdr + VDR_BLOCKING_FACTOR)?;
    Ok(wanted(blocking))
}

/// How many records a new block has, whose records have so many bytes.
fn count_of(vary: bool, wanted: u64, length: u64) -> u32
    ensures count { result ≡ count_in_block vary wanted length }
    ensures some { 1 ≤ result }
    ensures few { result ≤ 1048576 }
{
    if vary {
        let most = BLOCK_LIMIT.checked_div(length).unwrap_or(0);
        wanted.min(most).max(1) as u32
    } else {
        1
    }
}

/// How many records a new block of a variable has.
#[tactic(auto, using(cdf_area::proofs::Calls::read_done, cdf_area::proofs::Calls::read_failed, cdf_area::proofs::Calls::read_more, cdf_area::proofs::Calls::read_once))]
pub fn read_block_count<A: Area>(area: &mut A, form: &Form) -> Result<u32, AreaError>
    requires good { Good (A.image area.old) }
    requires form { IsForm (A.image area.old) form.now }
    ensures count { IfOk result (λ count. count ≡ block_count (variable_at (A.image area.old) form.now.place.vdr)) }
    ensures some { IfOk result (λ count. 1 ≤ count) }
    ensures few { IfOk result (λ count. count ≤ 1048576) }
    ensures area { Reads A.image A.frame A.faults A.edited area.old area.new result }
{
    let wanted = read_wanted(area, form.place.vdr)?;
    let vary = says_vary(form.place.flags);
    Ok(count_of(vary, wanted, record_size_of(&form.shape)))
}

/// Records from the one on that is searched for, up to a last, that all have a block, or all have none.
fn read_stretch<A: Area>(area: &mut A, search: &Search, rec: u32) -> Result<Stretch, AreaError>
    requires search { IsSearch (A.image area.old) search.now }
    requires order { Ascending 0 (suc record_number_limit) (leaves_of (index_at (A.image area.old) search.now.head)) }
    requires short { length (A.image area.old) ≤ image_limit }
    requires more { search.now.rec ≤ rec }
    requires within { rec ≤ record_number_limit }
    ensures stretch { IfOk result (IsStretch (ranges_of (index_at (A.image area.old) search.now.head)) search.now.rec rec) }
    ensures area { Reads A.image A.frame A.faults A.edited area.old area.new result }
{
    let found = search.leaf(area)?;
    if let Some(leaf) = found {
        return Ok(Stretch {
            end: leaf.last.min(rec) + 1,
            missing: 0,
        });
    }
    let next = search.next_first(area)?;
    let end = next.unwrap_or(RECORD_NUMBER_LIMIT + 1).min(rec + 1);
    Ok(Stretch {
        end,
        missing: end - search.rec,
    })
}

/// How many records from one on up to a last have no block.
fn count_missing<A: Area>(
    area: &mut A,
    head: u64,
    known: Option<u64>,
    from: u32,
    rec: u32,
) -> Result<u32, AreaError>
    requires index { HasIndex (A.image area.old) head }
    requires known { InTopChain (index_at (A.image area.old) head) known }
    requires order { Ascending 0 (suc record_number_limit) (leaves_of (index_at (A.image area.old) head)) }
    requires short { length (A.image area.old) ≤ image_limit }
    requires more { from ≤ rec }
    requires within { rec ≤ record_number_limit }
    ensures count { IfOk result (λ missing. missing ≡ (rec + 1 - from) - covered from rec (ranges_of (index_at (A.image area.old) head))) }
    ensures few { IfOk result (λ missing. missing ≤ 2 ^ 31) }
    ensures area { Reads A.image A.frame A.faults A.edited area.old area.new result }
{
    let mut k = from;
    let mut node = known;
    let mut missing = 0;
    for turn in 0..rec - from + 1 {
        if rec < k {
            return Ok(missing);
        }
        let search = Search::begin(area, head, node, k)?;
        let stretch = read_stretch(area, &search, rec)?;
        missing += stretch.missing;
        k = stretch.end;
        node = search.node();
    }
    Ok(missing)
}

/// How many of the records that a put writes from a first on have no block by then. A first one past MaxRec + 1 is written under a rule for
/// missing records alone, and this has what is past MaxRec cut before.
#[tactic(auto, using(cdf_area::proofs::Calls::read_done, cdf_area::proofs::Calls::read_failed, cdf_area::proofs::Calls::read_more, cdf_area::proofs::Calls::read_once))]
fn count_uncovered<A: Area>(
    area: &mut A,
    vdr: u64,
    head: u64,
    known: Option<u64>,
    from: u32,
    rec: u32,
) -> Result<u32, AreaError>
    requires lies { LiesIn (A.image area.old) vdr vdr_name }
    requires index { HasIndex (A.image area.old) head }
    requires known { InTopChain (index_at (A.image area.old) head) known }
    requires order { Ascending 0 (suc record_number_limit) (leaves_of (index_at (A.image area.old) head)) }
    requires short { length (A.image area.old) ≤ image_limit }
    requires from { from ≡ first_written (variable_at (A.image area.old) vdr) rec }
    requires within { rec ≤ record_number_limit }
    ensures count { IfOk result (λ missing. missing ≡ uncovered (variable_at (A.image area.old) vdr) (index_at (A.image area.old) head) rec) }
    ensures few { IfOk result (λ missing. missing ≤ 2 ^ 31) }
    ensures area { Reads A.image A.frame A.faults A.edited area.old area.new result }
{
    let extent = read_extent(area, vdr)?;
    if extent < from {
        return Ok(rec - from + 1);
    }
    count_missing(area, head, known, from, rec)
}

/// How many bytes new blocks take at most, in an index that is no larger than a bound.
fn room_of(blocks: NewBlocks, bound: IndexBound) -> u128
    requires some { 1 ≤ blocks.count }
    requires short { blocks.size ≤ record_limit }
    ensures { result ≡ room_by blocks bound.entries bound.widest }
{
    if blocks.missing == 0 {
        return 0;
    }
    let (count, missing) = (u128::from(blocks.count), u128::from(blocks.missing));
    let records = (missing - 1 + count) * u128::from(blocks.size);
    let blocks = (missing + count - 1) / count + u128::from(bound.entries) + 1;
    let node = VXR_FIRST as u128 + VXR_ENTRY_SIZE as u128 * u128::from(bound.widest);
    records + blocks * (LINKED_SIZE as u128 + node)
}

/// A bound of the index that a link leads to: the one that is known, where new blocks then take no more than so many bytes; else the
/// size of the index.
#[tactic(auto, using(cdf_area::proofs::Calls::read_done, cdf_area::proofs::Calls::read_failed, cdf_area::proofs::Calls::read_more, cdf_area::proofs::Calls::read_once))]
fn read_bound<A: Area>(
    area: &mut A,
    head: u64,
    known: Option<IndexBound>,
    blocks: NewBlocks,
    left: u128,
) -> Result<IndexBound, AreaError>
    requires index { HasIndex (A.image area.old) head }
    requires short { length (A.image area.old) ≤ image_limit }
    requires known { IfSome known (IsWithin (index_at (A.image area.old) head)) }
    requires some { 1 ≤ blocks.count }
    requires size { blocks.size ≤ record_limit }
    ensures within { IfOk result (IsWithin (index_at (A.image area.old) head)) }
    ensures large { IfOk result (λ bound. left < room_by blocks bound.entries bound.widest → left < room_in (index_at (A.image area.old) head) blocks) }
    ensures area { Reads A.image A.frame A.faults A.edited area.old area.new result }
{
    if let Some(bound) = known {
        if room_of(blocks, bound) <= left {
            return Ok(bound);
        }
    }
    let size = index_size(area, head)?;
    Ok(IndexBound {
        entries: size.entries,
        widest: size.widest,
    })
}

/// Whether a put of a record, where one is written from a first on, takes no more than so many bytes. What bounds the index by then is
/// known afterwards, if there is memory for it. Of its top chain a node may be known.
#[tactic(auto, using(cdf_area::proofs::Calls::read_done, cdf_area::proofs::Calls::read_failed, cdf_area::proofs::Calls::read_more, cdf_area::proofs::Calls::read_once))]
pub fn has_put_room<A: Area>(
    area: &mut A,
    starts: &mut Starts,
    form: &Form,
    known: Option<u64>,
    rec: u32,
    from: u32,
    left: u64,
) -> Result<bool, AreaError>
    requires good { Good (A.image area.old) }
    requires short { length (A.image area.old) ≤ image_limit }
    requires form { IsForm (A.image area.old) form.now }
    requires known { IsKnownStart (A.image area.old) form.now.place.vdr known }
    requires starts { KnowsStarts (A.image area.old) starts.old }
    requires within { rec ≤ record_number_limit }
    requires from { from ≡ first_written (variable_at (A.image area.old) form.now.place.vdr) rec }
    ensures fits { IfOk result (λ fits. fits ≡ true → put_room_at (A.image area.old) form.now.place.vdr rec ≤ left) }
    ensures large { IfOk result (λ fits. fits ≡ false → left < put_room_at (A.image area.old) form.now.place.vdr rec) }
    ensures starts { KnowsStarts (A.image area.old) starts.new }
    ensures expects { IfOk result (λ fits. fits ≡ true → ExpectsPut (A.image area.old) form.now.place.vdr rec starts.new) }
    ensures area { Reads A.image A.frame A.faults A.edited area.old area.new result }
{
    // An image has fewer than 2^64 bytes, so no place in it overflows.
    let _size = area.size();
    let vdr = form.place.vdr;
    let head = read_unsigned8(area, vdr + VDR_VXR_HEAD)?;
    let missing = count_uncovered(area, vdr, head, known, from, rec)?;
    let rewritten = read_packed_room(area, form, head, known, from, rec)?;
    let left = u128::from(left);
    if left < rewritten {
        return Ok(false);
    }
    if missing == 0 {
        return Ok(true);
    }
    let rest = left - rewritten;
    let count = read_block_count(area, form)?;
    let size = record_size_of(&form.shape);
    let blocks = NewBlocks {
        count,
        size,
        missing,
    };
    let bound = read_bound(area, head, starts.bound_of(vdr), blocks, rest)?;
    starts.keep_bound(vdr, bound, missing);
    Ok(room_of(blocks, bound) <= rest)
}
