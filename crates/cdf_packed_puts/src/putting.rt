//! A record is put into a packed variable, and those before it that are not stored: those of a leaf together, into its block or into a new one.

ghost use Rattle.std.specs.Prelude.{◌≡◌, ◌≤◌, ◌<◌, ◌+◌, ◌-◌, List, length, None, IfOk, OnOk};
ghost use Rattle.cdf_area.specs.Calls.{Edits};
ghost use Rattle.cdf_format.specs.Index.{leaves_of};
ghost use Rattle.cdf_format.specs.Shape.{VariableShape};
ghost use Rattle.cdf_index.specs.Finding.{index_at};
ghost use Rattle.cdf_index.specs.Order.{leaf_of};
ghost use Rattle.cdf_model.specs.Limits.{image_limit, record_number_limit};
ghost use Rattle.cdf_model.specs.declared.kinds.Kind.{Kind};
ghost use Rattle.cdf_puts.specs.Putting.{records_put};
ghost use Rattle.cdf_puts.specs.Searching.{SearchesIn};
ghost use Rattle.cdf_puts.specs.Starts.{IsKnownStart};
ghost use Rattle.cdf_packed_puts.specs.Putting.{PackedPut, Packing, PacksOn, SomePacked, SomePacking};

use crate::adding::{Vacancy, add_packed};
use crate::rewriting::{bytes_of, rewrite_leaf};
use cdf_area::{Area, AreaError};
use cdf_blocks::find_site;
use cdf_format::fields::VDR_VXR_HEAD;
use cdf_puts::{NewRecord, Progress, Search, last_of_new};
use cdf_records::read_unsigned8;
use std::alloc::{AllocError, Global};

/// These records, one after the other.
#[tactic(auto, using(cdf_puts::proofs::PutSpot::one_more))]
fn plain_records(
    alloc: Global,
    put: &NewRecord,
    first: u32,
    last: u32,
) -> Result<Vec<u8>, AllocError>
    requires order { first ≤ last }
    requires small { last ≤ record_number_limit }
    ensures records { IfOk result (λ plain. plain.items ≡ records_put put.now.raw.items put.now.pad.items put.now.rec (last + 1 - first) first) }
{
    let mut plain = Vec::new(alloc);
    for i in 0..last - first + 1 {
        plain.extend_from_slice(bytes_of(put, first + i))?;
    }
    Ok(plain)
}

/// Makes a new block for records from the one on that is searched for, which no block has. Gives the one behind its last.
fn add_block<A: Area>(
    alloc: Global,
    area: &mut A,
    put: &NewRecord,
    search: &Search,
) -> Result<u32, AreaError>
    requires some { SomePacked (A.image area.old) put.now search.now.rec (A.frame area.old).limit }
    requires more { search.now.rec ≤ put.now.rec }
    requires limit { (A.frame area.old).limit ≤ image_limit }
    requires search { SearchesIn (A.image area.old) put.now.vdr search.now }
    requires none { leaf_of search.now.rec (leaves_of (index_at (A.image area.old) search.now.head)) ≡ None }
    ensures put { IfOk result (λ next. PacksOn (A.image area.old) (A.image area.new) (A.frame area.old).limit put.now search.now.rec next) }
    ensures further { IfOk result (λ next. search.now.rec < next) }
    ensures area { Edits A.frame A.faults area.old area.new result }
{
    let last = last_of_new(area, search, put.most)?;
    let plain = plain_records(alloc, put, search.rec, last)?;
    let vacancy = Vacancy {
        vdr: put.vdr,
        start: search.start,
        first: search.rec,
        last,
    };
    add_packed(alloc, area, vacancy, &plain)?;
    Ok(last + 1)
}

/// Puts the record that is searched for, and those behind it that its block has, into that block or into a new one. Gives the next one to be put.
fn put_found<A: Area>(
    alloc: Global,
    area: &mut A,
    put: &NewRecord,
    search: &Search,
) -> Result<u32, AreaError>
    requires some { SomePacked (A.image area.old) put.now search.now.rec (A.frame area.old).limit }
    requires more { search.now.rec ≤ put.now.rec }
    requires limit { (A.frame area.old).limit ≤ image_limit }
    requires search { SearchesIn (A.image area.old) put.now.vdr search.now }
    ensures put { IfOk result (λ next. PacksOn (A.image area.old) (A.image area.new) (A.frame area.old).limit put.now search.now.rec next) }
    ensures further { IfOk result (λ next. search.now.rec < next) }
    ensures area { Edits A.frame A.faults area.old area.new result }
{
    let site = find_site(alloc, area, search)?;
    match site {
        Some(found) => rewrite_leaf(alloc, area, put, &found, search.rec),
        None => add_block(alloc, area, put, search),
    }
}

/// Puts the next record that is not put yet, and those behind it that its block has.
fn put_next<A: Area>(
    alloc: Global,
    area: &mut A,
    put: &NewRecord,
    from: Progress,
) -> Result<Progress, AreaError>
    requires some { SomePacked (A.image area.old) put.now from.next (A.frame area.old).limit }
    requires more { from.next ≤ put.now.rec }
    requires known { IsKnownStart (A.image area.old) put.now.vdr from.node }
    requires limit { (A.frame area.old).limit ≤ image_limit }
    ensures put { IfOk result (λ to. PacksOn (A.image area.old) (A.image area.new) (A.frame area.old).limit put.now from.next to.next) }
    ensures known { IfOk result (λ to. IsKnownStart (A.image area.new) put.now.vdr to.node) }
    ensures further { IfOk result (λ to. from.next < to.next) }
    ensures area { Edits A.frame A.faults area.old area.new result }
{
    let head = read_unsigned8(area, put.vdr + VDR_VXR_HEAD)?;
    let search = Search::begin(area, head, from.node, from.next)?;
    let next = put_found(alloc, area, put, &search)?;
    Ok(Progress {
        next,
        node: search.node(),
    })
}

/// Puts a record into a packed variable, and from one on those before it that are not stored: those of a leaf together, into its block or into a
/// new one. What would be cut first is gone. Of the top chain of its index a node may be known. After an error a part of this may have been done.
#[tactic(auto, using(cdf_area::proofs::Calls::edit_done, cdf_area::proofs::Calls::edit_failed, cdf_area::proofs::Calls::edit_more))]
pub fn put_packed<A: Area>(
    alloc: Global,
    area: &mut A,
    put: &NewRecord,
    known: Option<u64>,
    from: u32,
) -> Result<(), AreaError>
    requires some { SomePacking (A.image area.old) put.now from (A.frame area.old).limit }
    requires known { IsKnownStart (A.image area.old) put.now.vdr known }
    requires limit { (A.frame area.old).limit ≤ image_limit }
    ensures put { OnOk result ((kind : Kind) (before : List VariableShape) (own : VariableShape) (after : List VariableShape) → Packing (A.image area.old) kind before own after put.now (A.frame area.old).limit → PackedPut (A.image area.old) (A.image area.new) kind before own after put.now) }
    ensures area { Edits A.frame A.faults area.old area.new result }
{
    let mut so_far = Progress {
        next: from,
        node: known,
    };
    while so_far.next <= put.rec {
        so_far = put_next(alloc, area, put, so_far)?;
    }
    Ok(())
}
