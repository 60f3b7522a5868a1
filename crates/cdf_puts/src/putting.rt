//! A record is put into a variable, and those before it that are not stored: each into the block that has it, or into a new one.

ghost use Rattle.std.specs.Prelude.{◌≡◌, ◌≤◌, ◌<◌, ◌+◌, ◌-◌, ◌++◌, List, length, replicate, Some, None, IfOk, OnOk};
ghost use Rattle.cdf_area.specs.Calls.{Edits, Reads};
ghost use Rattle.cdf_format.specs.Fields.{number};
ghost use Rattle.cdf_format.specs.Index.{leaves_of};
ghost use Rattle.cdf_format.specs.Records.{vdr_vxr_head};
ghost use Rattle.cdf_index.specs.Finding.{index_at};
ghost use Rattle.cdf_index.specs.Order.{leaf_of};
ghost use Rattle.cdf_index.specs.Sight.{seen};
ghost use Rattle.cdf_model.specs.Limits.{image_limit, record_number_limit};
ghost use Rattle.cdf_puts.specs.Putting.{block_type, last_in_new, record_put, records_put, PutsOn, PutsUpTo, SomePut, SomePutting};
ghost use Rattle.cdf_puts.specs.Searching.{IsSearch, SearchesIn};
ghost use Rattle.cdf_puts.specs.Starts.{IsKnownStart};
ghost use Rattle.cdf_puts.specs.Steps.{IsBlockBody};

use crate::searching::Search;
use cdf_area::{Area, AreaError};
use cdf_format::fields::{VDR_VXR_HEAD, VVR_TYPE};
use cdf_index::{Leaf, write_recs};
use cdf_leaves::add_leaf;
use cdf_model::limits::RECORD_NUMBER_LIMIT;
use cdf_records::read_unsigned8;
use std::alloc::{AllocError, Global};

/// The least bytes of a block behind its size.
const LEAST_BODY: usize = 20;

/// A record that is put.
#[derive(Drop)]
pub struct NewRecord {
    /// Where the descriptor of its variable stands.
    pub vdr: u64,
    /// Its number.
    pub rec: u32,
    /// Its bytes, as they are stored.
    pub raw: Vec<u8>,
    /// The bytes of each record before it that is not stored.
    pub pad: Vec<u8>,
    /// How many records a new block has at most.
    pub most: u32,
}

/// These bytes, and bytes 0 behind them up to the least size of a record.
fn filled_up(mut body: Vec<u8>) -> Result<Vec<u8>, AllocError>
    ensures { IfOk result (λ filled. filled.items ≡ body.items ++ replicate (20 - length body.items) 0) }
{
    if body.len() < LEAST_BODY {
        body.resize(LEAST_BODY, 0)?;
    }
    Ok(body)
}

impl NewRecord {
    /// The bytes of the record of a number.
    fn bytes_of(&self, k: u32) -> &[u8]
        ensures { result.now ≡ record_put self.now.raw.items self.now.pad.items self.now.rec k }
    {
        if k == self.rec { &self.raw } else { &self.pad }
    }

    /// The type of a block, and these records one after the other.
    #[tactic(auto, using(crate::proofs::PutSpot::one_more, std::proofs::Common::append_assoc))]
    fn typed_records(&self, alloc: Global, first: u32, last: u32) -> Result<Vec<u8>, AllocError>
        requires order { first ≤ last }
        requires small { last ≤ record_number_limit }
        ensures records { IfOk result (λ body. body.items ≡ block_type ++ records_put self.now.raw.items self.now.pad.items self.now.rec (last + 1 - first) first) }
    {
        let mut body = Vec::new(alloc);
        body.extend_from_slice(&VVR_TYPE.to_be_bytes())?;
        for i in 0..last - first + 1 {
            body.extend_from_slice(self.bytes_of(first + i))?;
        }
        Ok(body)
    }

    /// What is written for a new block with these records, behind its size.
    fn block_body(&self, alloc: Global, first: u32, last: u32) -> Result<Vec<u8>, AllocError>
        requires order { first ≤ last }
        requires small { last ≤ record_number_limit }
        ensures body { IfOk result (λ body. IsBlockBody body.items (records_put self.now.raw.items self.now.pad.items self.now.rec (last + 1 - first) first)) }
    {
        let records = self.typed_records(alloc, first, last)?;
        filled_up(records)
    }
}

/// The last record of a new block from the one on that is searched for, which ends before the next First.
#[tactic(auto, using(crate::proofs::CoveringRanges::bound_is, crate::proofs::CoveringRanges::next_past))]
pub fn last_of_new<A: Area>(area: &mut A, search: &Search, most: u32) -> Result<u32, AreaError>
    requires search { IsSearch (A.image area.old) search.now }
    requires short { length (A.image area.old) ≤ image_limit }
    requires within { search.now.rec ≤ record_number_limit }
    requires some { 1 ≤ most }
    requires few { most ≤ 1048576 }
    ensures last { IfOk result (λ last. last ≡ last_in_new most (index_at (A.image area.old) search.now.head) search.now.rec) }
    ensures order { IfOk result (λ last. search.now.rec ≤ last) }
    ensures small { IfOk result (λ last. last ≤ record_number_limit) }
    ensures area { Reads A.image A.frame A.faults A.edited area.old area.new result }
{
    let next = search.next_first(area)?;
    let bound = next.unwrap_or(RECORD_NUMBER_LIMIT + 1);
    Ok(bound.min(search.rec + most) - 1)
}

/// Writes a record into the block that has it.
fn write_one<A: Area>(area: &mut A, leaf: &Leaf, put: &NewRecord, k: u32) -> Result<(), AreaError>
    requires some { SomePut (A.image area.old) put.now k (A.frame area.old).limit }
    requires more { k ≤ put.now.rec }
    requires limit { (A.frame area.old).limit ≤ image_limit }
    requires found { Some (seen leaf.now) ≡ leaf_of k (leaves_of (index_at (A.image area.old) (number (A.image area.old) put.now.vdr vdr_vxr_head))) }
    ensures put { OnOk result (PutsOn (A.image area.old) (A.image area.new) (A.frame area.old).limit put.now k (k + 1)) }
    ensures area { Edits A.frame A.faults area.old area.new result }
{
    write_recs(area, leaf, put.raw.len() as u64, k, put.bytes_of(k))
}

/// Makes a new block for records from the one on that is searched for, which no block has. Gives the next one to be put.
#[tactic(auto, using(crate::proofs::PutSpot::body_is))]
fn add_block<A: Area>(
    alloc: Global,
    area: &mut A,
    put: &NewRecord,
    search: &Search,
) -> Result<u32, AreaError>
    requires some { SomePut (A.image area.old) put.now search.now.rec (A.frame area.old).limit }
    requires more { search.now.rec ≤ put.now.rec }
    requires limit { (A.frame area.old).limit ≤ image_limit }
    requires search { SearchesIn (A.image area.old) put.now.vdr search.now }
    requires none { leaf_of search.now.rec (leaves_of (index_at (A.image area.old) search.now.head)) ≡ None }
    ensures put { IfOk result (λ next. PutsOn (A.image area.old) (A.image area.new) (A.frame area.old).limit put.now search.now.rec next) }
    ensures further { IfOk result (λ next. search.now.rec < next) }
    ensures area { Edits A.frame A.faults area.old area.new result }
{
    let last = last_of_new(area, search, put.most)?;
    let body = put.block_body(alloc, search.rec, last)?;
    add_leaf(alloc, area, put.vdr, search.start, search.rec, last, &body)?;
    Ok(last.min(put.rec) + 1)
}

/// Puts the record that is searched for, into the block that has it or into a new one, which has those behind it too. Gives the next one
/// to be put.
fn put_found<A: Area>(
    alloc: Global,
    area: &mut A,
    put: &NewRecord,
    search: &Search,
) -> Result<u32, AreaError>
    requires some { SomePut (A.image area.old) put.now search.now.rec (A.frame area.old).limit }
    requires more { search.now.rec ≤ put.now.rec }
    requires limit { (A.frame area.old).limit ≤ image_limit }
    requires search { SearchesIn (A.image area.old) put.now.vdr search.now }
    ensures put { IfOk result (λ next. PutsOn (A.image area.old) (A.image area.new) (A.frame area.old).limit put.now search.now.rec next) }
    ensures further { IfOk result (λ next. search.now.rec < next) }
    ensures area { Edits A.frame A.faults area.old area.new result }
{
    let found = search.leaf(area)?;
    match found {
        Some(leaf) => {
            write_one(area, &leaf, put, search.rec)?;
            Ok(search.rec + 1)
        }
        None => add_block(alloc, area, put, search),
    }
}

/// How far a put has come.
#[derive(Clone, Copy)]
pub struct Progress {
    /// The next record to be put.
    pub next: u32,
    /// A node of the top chain of the index, from which the next search goes on, if one is known.
    pub node: Option<u64>,
}

/// Puts the next record that is not put yet, and those behind it that get a block with it.
fn put_next<A: Area>(
    alloc: Global,
    area: &mut A,
    put: &NewRecord,
    from: Progress,
) -> Result<Progress, AreaError>
    requires some { SomePut (A.image area.old) put.now from.next (A.frame area.old).limit }
    requires more { from.next ≤ put.now.rec }
    requires known { IsKnownStart (A.image area.old) put.now.vdr from.node }
    requires limit { (A.frame area.old).limit ≤ image_limit }
    ensures put { IfOk result (λ to. PutsOn (A.image area.old) (A.image area.new) (A.frame area.old).limit put.now from.next to.next) }
    ensures known { IfOk result (λ to. IsKnownStart (A.image area.new) put.now.vdr to.node) }
    ensures further { IfOk result (λ to. from.next < to.next) }
    ensures area { Edits A.frame A.faults area.old area.new result }
{
    let head = read_unsigned8(area, put.vdr + VDR_VXR_HEAD)?;
    let search = Search::begin(area, head, from.node, from.next)?;
    let next = put_found(alloc, area, put, &search)?;
    Ok(Progress {
        next,
        node: search.node(),
    })
}

/// Puts a record into a variable, and from one on those before it that are not stored. Of the top chain of its index a node may be known. After an error a part of this may have been done.
#[tactic(auto, using(cdf_area::proofs::Calls::edit_done, cdf_area::proofs::Calls::edit_failed, cdf_area::proofs::Calls::edit_more))]
pub fn put_records<A: Area>(
    alloc: Global,
    area: &mut A,
    put: &NewRecord,
    known: Option<u64>,
    from: u32,
) -> Result<(), AreaError>
    requires some { SomePutting (A.image area.old) put.now from (A.frame area.old).limit }
    requires known { IsKnownStart (A.image area.old) put.now.vdr known }
    requires limit { (A.frame area.old).limit ≤ image_limit }
    ensures put { OnOk result (PutsUpTo (A.image area.old) (A.image area.new) (A.frame area.old).limit put.now (put.now.rec + 1)) }
    ensures area { Edits A.frame A.faults area.old area.new result }
{
    let mut so_far = Progress {
        next: from,
        node: known,
    };
    while so_far.next <= put.rec {
        so_far = put_next(alloc, area, put, so_far)?;
    }
    Ok(())
}
