//! The command `put-entry`: an entry is made or replaced.

ghost use Rattle.std.specs.Prelude.{◌≡◌, ◌==◌, ◌+◌, ◌<◌, ◌≤◌, length, None, IfOk};
ghost use Rattle.std.specs.List.{position};
ghost use Rattle.cdf_area.specs.Calls.{Edits};
ghost use Rattle.cdf_attrs.specs.PutValues.{HasOld, IsPut, IsReady};
ghost use Rattle.cdf_format.specs.WellFormed.{Good};
ghost use Rattle.cdf_format.specs.Records.{past, aedr_value};

use crate::chain_fields::{entries_chain, set_greatest};
use crate::entry_bytes::{OldEntry, Reserved, StoredValue, aedr_bytes, field_bytes, read_old};
use crate::entry_chain::EntryChain;
use cdf_area::{Area, AreaError};
use cdf_format::fields::{AEDR_ATTR_NUM, AEDR_SIZE};
use cdf_model::EntryKind;
use cdf_space::{append_record, exchange_record, free_record};
use std::alloc::Global;

/// Where an entry belongs: the chain of a kind of an attribute, by its number and by where its descriptor stands, and the number of the entry.
#[derive(Clone, Copy)]
pub struct Slot {
    pub kind: EntryKind,
    pub attribute: u32,
    pub adr: u64,
    pub num: u32,
}

/// An entry that is to be put: where it belongs, its value, and the greatest number that its chain has with it.
#[derive(Drop)]
pub struct NewEntry {
    pub slot: Slot,
    pub value: StoredValue,
    pub greatest: i32,
}

/// Puts an entry, of a number that there is none of, behind the last one of its chain. Gives the entries as they are then.
/// After an error a part of this may have been done.
fn put_last<A: Area>(
    alloc: Global,
    area: &mut A,
    entry: &NewEntry,
    entries: EntryChain,
) -> Result<EntryChain, AreaError>
    requires good { Good (A.image area.old) }
    requires ready { IsReady (A.image area.old) (A.frame area.old).limit entry.now entries }
    requires absent { position (λ n. n == entry.now.slot.num) entries.numbers ≡ None }
    ensures put { IfOk result (IsPut (A.image area.old) (A.image area.new) entry.now entries) }
    ensures area { Edits A.frame A.faults area.old area.new result }
{
    let slot = entry.slot;
    let bytes = aedr_bytes(
        alloc,
        slot.kind,
        slot.attribute,
        slot.num,
        &entry.value,
        Reserved::new(),
    )?;
    let mut put = entries;
    let last = put.places.last().copied();
    let place = append_record(area, entries_chain(slot.kind, slot.adr), last, &bytes)?;
    set_greatest(area, slot.kind, slot.adr, entry.greatest)?;
    put.push(slot.num, place)?;
    Ok(put)
}

/// Puts an entry over the one of its number, at an index of its chain, whose record has room for it. The numbers in its reserved fields
/// stay. Gives the entries, which are those that they were. After an error a part of this may have been done.
#[tactic(auto, using(cdf_area::proofs::Calls::edit_done, cdf_area::proofs::Calls::edit_failed, cdf_area::proofs::Calls::edit_more, cdf_area::proofs::Calls::edit_once, cdf_area::proofs::Calls::edits_by_write))]
fn put_in_place<A: Area>(
    alloc: Global,
    area: &mut A,
    entry: &NewEntry,
    entries: EntryChain,
    i: usize,
    old: OldEntry,
) -> Result<EntryChain, AreaError>
    requires good { Good (A.image area.old) }
    requires ready { IsReady (A.image area.old) (A.frame area.old).limit entry.now entries }
    requires old { HasOld (A.image area.old) entries i entry.now.slot.num old }
    requires fits { past (aedr_value (length entry.now.value.bytes.items)) ≤ old.size }
    ensures put { IfOk result (IsPut (A.image area.old) (A.image area.new) entry.now entries) }
    ensures area { Edits A.frame A.faults area.old area.new result }
{
    let slot = entry.slot;
    let fields = field_bytes(alloc, slot.attribute, slot.num, &entry.value, old.reserved)?;
    // An image has fewer than 2^64 bytes, so no place in it overflows.
    let _size = area.size();
    area.set(old.place + AEDR_ATTR_NUM, &fields)?;
    set_greatest(area, slot.kind, slot.adr, entry.greatest)?;
    Ok(entries)
}

/// Makes a record with an entry for the one of its number, at an index of its chain, whose record has no room for it, and frees that one.
/// The numbers in its reserved fields stay. Gives the entries as they are then. After an error a part of this may have been done.
#[tactic(auto, using(cdf_area::proofs::Calls::edit_failed))]
fn put_anew<A: Area>(
    alloc: Global,
    area: &mut A,
    entry: &NewEntry,
    entries: EntryChain,
    i: usize,
    old: OldEntry,
) -> Result<EntryChain, AreaError>
    requires good { Good (A.image area.old) }
    requires ready { IsReady (A.image area.old) (A.frame area.old).limit entry.now entries }
    requires old { HasOld (A.image area.old) entries i entry.now.slot.num old }
    requires large { old.size < past (aedr_value (length entry.now.value.bytes.items)) }
    ensures put { IfOk result (IsPut (A.image area.old) (A.image area.new) entry.now entries) }
    ensures area { Edits A.frame A.faults area.old area.new result }
{
    let slot = entry.slot;
    let bytes = aedr_bytes(
        alloc,
        slot.kind,
        slot.attribute,
        slot.num,
        &entry.value,
        old.reserved,
    )?;
    let mut put = entries;
    let behind = put.places[..i].last().copied();
    let was = old.place;
    let chain = entries_chain(slot.kind, slot.adr);
    let place = exchange_record(area, chain, behind, was, &bytes)?;
    set_greatest(area, slot.kind, slot.adr, entry.greatest)?;
    free_record(area, was)?;
    put.set_place(i, place);
    Ok(put)
}

/// Puts an entry in place of the one of its number, at an index of its chain: in its record where that has room for it, else in another one.
/// Gives the entries as they are then. After an error a part of this may have been done.
fn put_over<A: Area>(
    alloc: Global,
    area: &mut A,
    entry: &NewEntry,
    entries: EntryChain,
    i: usize,
    old: OldEntry,
) -> Result<EntryChain, AreaError>
    requires good { Good (A.image area.old) }
    requires ready { IsReady (A.image area.old) (A.frame area.old).limit entry.now entries }
    requires old { HasOld (A.image area.old) entries i entry.now.slot.num old }
    ensures put { IfOk result (IsPut (A.image area.old) (A.image area.new) entry.now entries) }
    ensures area { Edits A.frame A.faults area.old area.new result }
{
    if AEDR_SIZE + entry.value.bytes.len() as u64 <= old.size {
        put_in_place(alloc, area, entry, entries, i, old)
    } else {
        put_anew(alloc, area, entry, entries, i, old)
    }
}

/// Puts an entry into its chain: as a last one, or in place of the one of its number. Gives the entries as they are then.
/// After an error a part of this may have been done.
pub(crate) fn put_new<A: Area>(
    alloc: Global,
    area: &mut A,
    entry: &NewEntry,
    entries: EntryChain,
) -> Result<EntryChain, AreaError>
    requires good { Good (A.image area.old) }
    requires ready { IsReady (A.image area.old) (A.frame area.old).limit entry.now entries }
    ensures put { IfOk result (IsPut (A.image area.old) (A.image area.new) entry.now entries) }
    ensures area { Edits A.frame A.faults area.old area.new result }
{
    let Some(i) = entries.find(entry.slot.num) else {
        return put_last(alloc, area, entry, entries);
    };
    let place = entries.places.as_slice()[i];
    let old = read_old(area, place)?;
    put_over(alloc, area, entry, entries, i, old)
}
