//! What a missing record reads as. Under one rule it is the record stored before it, which is found by the last leaf of the index that begins before it.

ghost use Rattle.std.specs.Prelude.{◌≡◌, ◌≢◌, ◌≤◌, ◌<◌, ◌+◌, length, None, IfOk};
ghost use Rattle.std.specs.Option.{option_map};
ghost use Rattle.cdf_area.specs.Calls.{Reads};
ghost use Rattle.cdf_edits.specs.Index.Written.{top_chain};
ghost use Rattle.cdf_format.specs.Fields.{number};
ghost use Rattle.cdf_format.specs.Index.{entry_leaves, first_at, leaves_of, used_count};
ghost use Rattle.cdf_format.specs.Records.{past, vdr_name, vdr_vxr_head};
ghost use Rattle.cdf_format.specs.Tiles.{In};
ghost use Rattle.cdf_format.specs.VariableFields.{max_rec_at};
ghost use Rattle.cdf_format.specs.WellFormed.{Good};
ghost use Rattle.cdf_index.specs.Ahead.{Begun};
ghost use Rattle.cdf_index.specs.Finding.{HasIndex, SomeNode, index_at};
ghost use Rattle.cdf_index.specs.Sight.{IsHead, seen};
ghost use Rattle.cdf_model.specs.DataSet.{extent};
ghost use Rattle.cdf_model.specs.Limits.{image_limit};
ghost use Rattle.cdf_model.specs.Numbered.{item_at};
ghost use Rattle.cdf_model.specs.Reading.{missing};
ghost use Rattle.cdf_model.specs.declared.kinds.Sparse.TheVariants as sparse;
ghost use Rattle.cdf_puts.specs.Starts.{InTopChain, IsKnownStart};
ghost use Rattle.cdf_var_records.specs.Next.{leaves_at};
ghost use Rattle.cdf_var_records.specs.Previous.{HasLevels, entries_of, last_begun, leaves_named, leaves_until};
ghost use Rattle.cdf_var_records.specs.Records.{IsForm, variable_at};
ghost use Rattle.cdf_var_records.specs.Unpacked.{IsUnpacked};

use crate::form::Form;
use crate::record::{read_in_leaf, read_pad_record};
use crate::unpacked::Unpacked;
use crate::variable::read_sparse;
use cdf_area::{Area, AreaError};
use cdf_format::fields::{CVVR_TYPE, VDR_VXR_HEAD, VXR_FIRST, VXR_TYPE};
use cdf_index::{Head, Leaf, read_entry, read_head, read_named, start_of};
use cdf_model::Sparse;
use cdf_model::limits::LEVEL_LIMIT;
use cdf_records::{read_unsigned4, read_unsigned8};
use std::alloc::Global;

/// How many of the first entries of a node begin at a record or before it. They are in order, so the last one is looked at first, and then one in the middle of those that are left.
#[tactic(auto, using(cdf_index::proofs::Looking::node_inside))]
fn entries_begun<A: Area>(area: &mut A, at: u64, head: &Head, rec: u32) -> Result<u64, AreaError>
    requires head { IsHead (A.image area.old) at head.now }
    requires node { SomeNode (A.image area.old) at }
    requires short { length (A.image area.old) ≤ image_limit }
    ensures begun { IfOk result (Begun (A.image area.old) at rec) }
    ensures area { Reads A.image A.frame A.faults A.edited area.old area.new result }
{
    let mut low = 0;
    let mut high = head.used;
    let mut middle = head.used.saturating_sub(1);
    while low < high {
        let first = read_unsigned4(area, at + (VXR_FIRST + 4 * middle))?;
        if first <= rec {
            low = middle + 1;
        } else {
            high = middle;
        }
        middle = low + (high - low) / 2;
    }
    Ok(low)
}

/// The last leaf that begins at a record or before it, of those that an entry of a node names. The entry begins so too.
#[cycle(last_leaf)]
fn last_in_entry<A: Area>(
    area: &mut A,
    at: u64,
    head: &Head,
    i: u64,
    levels: u64,
    rec: u32,
) -> Result<Option<Leaf>, AreaError>
    requires index { HasLevels (A.image area.old) levels at }
    requires some { at ≢ 0 }
    requires head { IsHead (A.image area.old) at head.now }
    requires used { i < used_count (A.image area.old) at }
    requires begun { first_at (A.image area.old) at i ≤ rec }
    requires short { length (A.image area.old) ≤ image_limit }
    ensures leaf { IfOk result (λ found. option_map seen found ≡ last_begun rec (leaves_named i (entries_of (index_at (A.image area.old) at)))) }
    ensures area { Reads A.image A.frame A.faults A.edited area.old area.new result }
{
    let named = read_named(area, at, head, i)?;
    if named.kind == VXR_TYPE {
        return last_in_chain(area, named.place, None, levels - 1, rec);
    }
    let entry = read_entry(area, at, head.room, i)?;
    Ok(Some(Leaf {
        first: entry.first,
        last: entry.last,
        at: named.place,
        packed: named.kind == CVVR_TYPE,
    }))
}

/// The last leaf that begins at a record or before it, of those that the entries of a node name.
#[cycle(last_leaf)]
fn last_in_node<A: Area>(
    area: &mut A,
    at: u64,
    levels: u64,
    rec: u32,
) -> Result<Option<Leaf>, AreaError>
    requires index { HasLevels (A.image area.old) levels at }
    requires some { at ≢ 0 }
    requires short { length (A.image area.old) ≤ image_limit }
    ensures leaf { IfOk result (λ found. option_map seen found ≡ last_begun rec (entry_leaves (entries_of (index_at (A.image area.old) at)))) }
    ensures area { Reads A.image A.frame A.faults A.edited area.old area.new result }
{
    let head = read_head(area, at)?;
    let mut i = entries_begun(area, at, &head, rec)?;
    while i > 0 {
        i -= 1;
        let found = last_in_entry(area, at, &head, i, levels, rec)?;
        if found.is_some() {
            return Ok(found);
        }
    }
    Ok(None)
}

/// The last leaf that begins at a record or before it, of the nodes of a chain up to one of them, which is left out. Each of their entries begins so too.
#[cycle(last_leaf)]
fn last_until<A: Area>(
    area: &mut A,
    link: u64,
    end: u64,
    levels: u64,
    rec: u32,
) -> Result<Option<Leaf>, AreaError>
    requires index { HasLevels (A.image area.old) levels link }
    requires end { In end (top_chain (index_at (A.image area.old) link)) }
    requires short { length (A.image area.old) ≤ image_limit }
    ensures leaf { IfOk result (λ found. option_map seen found ≡ last_begun rec (leaves_until end (index_at (A.image area.old) link))) }
    ensures area { Reads A.image A.frame A.faults A.edited area.old area.new result }
{
    let mut found = None;
    let mut at = link;
    while at != end {
        let here = last_in_node(area, at, levels, rec)?;
        found = here.or(found);
        at = read_head(area, at)?.next;
    }
    Ok(found)
}

/// The last leaf of a chain that begins at a record or before it. Of its nodes one may be known.
#[cycle(last_leaf)]
fn last_in_chain<A: Area>(
    area: &mut A,
    link: u64,
    known: Option<u64>,
    levels: u64,
    rec: u32,
) -> Result<Option<Leaf>, AreaError>
    requires index { HasLevels (A.image area.old) levels link }
    requires known { InTopChain (index_at (A.image area.old) link) known }
    requires short { length (A.image area.old) ≤ image_limit }
    ensures leaf { IfOk result (λ found. option_map seen found ≡ last_begun rec (leaves_of (index_at (A.image area.old) link))) }
    ensures area { Reads A.image A.frame A.faults A.edited area.old area.new result }
{
    let start = start_of(area, link, known, rec)?;
    if start == 0 {
        return Ok(None);
    }
    let found = last_in_node(area, start, levels, rec)?;
    if found.is_some() {
        return Ok(found);
    }
    // An entry may begin long before the first leaf below it, so a node before may have the leaf.
    last_until(area, link, start, levels, rec)
}

/// The last leaf that begins at a record or before it, in the index that a link leads to, of whose top chain a node may be known.
pub fn last_before<A: Area>(
    area: &mut A,
    head: u64,
    known: Option<u64>,
    rec: u32,
) -> Result<Option<Leaf>, AreaError>
    requires index { HasIndex (A.image area.old) head }
    requires known { InTopChain (index_at (A.image area.old) head) known }
    requires short { length (A.image area.old) ≤ image_limit }
    ensures leaf { IfOk result (λ found. option_map seen found ≡ last_begun rec (leaves_of (index_at (A.image area.old) head))) }
    ensures area { Reads A.image A.frame A.faults A.edited area.old area.new result }
{
    last_in_chain(area, head, known, LEVEL_LIMIT, rec)
}

/// The last leaf that begins at a record or before it, of the variable whose descriptor stands at a place. Of the top chain of its index a node may be known.
fn find_previous<A: Area>(
    area: &mut A,
    vdr: u64,
    known: Option<u64>,
    rec: u32,
) -> Result<Option<Leaf>, AreaError>
    requires lies { vdr + past vdr_name ≤ length (A.image area.old) }
    requires index { HasIndex (A.image area.old) (number (A.image area.old) vdr vdr_vxr_head) }
    requires known { IsKnownStart (A.image area.old) vdr known }
    requires short { length (A.image area.old) ≤ image_limit }
    ensures leaf { IfOk result (λ found. option_map seen found ≡ last_begun rec (leaves_at (A.image area.old) vdr)) }
    ensures area { Reads A.image A.frame A.faults A.edited area.old area.new result }
{
    // An image has fewer than 2^64 bytes, so no place in it overflows.
    let _size = area.size();
    let head = read_unsigned8(area, vdr + VDR_VXR_HEAD)?;
    last_before(area, head, known, rec)
}

/// The record that is stored last before a missing one, in network order; the pad value throughout where there is none.
#[tactic(auto, using(cdf_area::proofs::Calls::read_done, cdf_area::proofs::Calls::read_failed, cdf_area::proofs::Calls::read_more, cdf_area::proofs::Calls::read_once))]
fn read_previous<A: Area>(
    alloc: Global,
    area: &mut A,
    unpacked: &mut Unpacked,
    form: &Form,
    known: Option<u64>,
    rec: u32,
) -> Result<Vec<u8>, AreaError>
    requires good { Good (A.image area.old) }
    requires short { length (A.image area.old) ≤ image_limit }
    requires form { IsForm (A.image area.old) form.now }
    requires kept { IsUnpacked (A.image area.old) unpacked.old }
    requires known { IsKnownStart (A.image area.old) form.now.place.vdr known }
    requires within { rec < extent (max_rec_at (A.image area.old) form.now.place.vdr) }
    requires gone { None ≡ item_at rec (variable_at (A.image area.old) form.now.place.vdr).recs }
    ensures record { IfOk result (λ bytes. bytes.items ≡ missing sparse.Previous (variable_at (A.image area.old) form.now.place.vdr) rec) }
    ensures kept { IsUnpacked (A.image area.old) unpacked.new }
    ensures area { Reads A.image A.frame A.faults A.edited area.old area.new result }
{
    let found = find_previous(area, form.place.vdr, known, rec)?;
    match found {
        Some(leaf) => read_in_leaf(alloc, area, unpacked, form, &leaf, leaf.last),
        None => read_pad_record(alloc, area, form),
    }
}

/// What a missing record up to MaxRec reads as, in network order, by the rule of its variable. Of the top chain of the index a node may be known.
#[tactic(auto, using(cdf_area::proofs::Calls::read_done, cdf_area::proofs::Calls::read_failed, cdf_area::proofs::Calls::read_more, cdf_area::proofs::Calls::read_once))]
pub fn read_missing<A: Area>(
    alloc: Global,
    area: &mut A,
    unpacked: &mut Unpacked,
    form: &Form,
    known: Option<u64>,
    rec: u32,
) -> Result<Vec<u8>, AreaError>
    requires good { Good (A.image area.old) }
    requires short { length (A.image area.old) ≤ image_limit }
    requires form { IsForm (A.image area.old) form.now }
    requires kept { IsUnpacked (A.image area.old) unpacked.old }
    requires known { IsKnownStart (A.image area.old) form.now.place.vdr known }
    requires within { rec < extent (max_rec_at (A.image area.old) form.now.place.vdr) }
    requires gone { None ≡ item_at rec (variable_at (A.image area.old) form.now.place.vdr).recs }
    ensures record { IfOk result (λ bytes. bytes.items ≡ missing (variable_at (A.image area.old) form.now.place.vdr).sparse (variable_at (A.image area.old) form.now.place.vdr) rec) }
    ensures kept { IsUnpacked (A.image area.old) unpacked.new }
    ensures area { Reads A.image A.frame A.faults A.edited area.old area.new result }
{
    let rule = read_sparse(area, form.place.vdr)?;
    match rule {
        Sparse::Previous => read_previous(alloc, area, unpacked, form, known, rec),
        Sparse::NoRule | Sparse::Pad => read_pad_record(alloc, area, form),
    }
}
