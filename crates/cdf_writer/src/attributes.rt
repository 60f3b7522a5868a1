//! Attributes and their entries.

ghost use Rattle.std.specs.Prelude.{[], ◌≡◌, ◌+◌, ◌<◌, ◌^◌, ◌≤◌, ◌%◌, ◌++◌, ◌∷◌, length, IfOk, OnOk};
ghost use Rattle.cdf_base.specs.Bytes.{put};
ghost use Rattle.cdf_format.specs.Records.{adr_name};
ghost use Rattle.cdf_model.specs.ByteOrder.{turned};
ghost use Rattle.cdf_model.specs.Types.{size_of};
ghost use Rattle.cdf_writer.specs.Bodies.{name_bytes, whole_record};
ghost use Rattle.cdf_writer.specs.Laying.{laid, laid_size};
ghost use Rattle.cdf_writer.specs.Progress.{adr_made, entry_type, held_bodies, held_body, held_next, is_in_z, longer, next_if, with_entry};
ghost use Rattle.cdf_writer.specs.Stops.{Writes};

use crate::appending::{WriteStop, append_record, fill_room};
use crate::bodies::{EntryChain, adr_front, entry_front};
use crate::progress::{FileState, Held, OpenAttribute};
use cdf_area::Area;
use cdf_format::fields::{AEDR_SIZE, AGR_EDR_TYPE, AZ_EDR_TYPE};
use cdf_model::EntryKind;
use std::alloc::{AllocError, Global};

/// Whether an entry is one of a z variable.
pub(crate) fn is_in_z(kind: EntryKind) -> bool
    ensures { result ≡ is_in_z kind }
{
    match kind {
        EntryKind::G | EntryKind::R => false,
        EntryKind::Z => true,
    }
}

/// The type of the records of entries.
fn entry_type(in_z: bool) -> u32
    ensures { result ≡ entry_type in_z }
{
    if in_z { AZ_EDR_TYPE } else { AGR_EDR_TYPE }
}

/// The link to a place from number `n` of so many.
pub(crate) fn next_if(n: u32, count: u32, place: u64) -> u64
    ensures { result ≡ next_if n count place }
{
    if u64::from(n) + 1 < u64::from(count) {
        place
    } else {
        0
    }
}

/// What follows the size of an entry of an attribute, linked to a place.
fn held_body(alloc: Global, attribute: u32, held: &Held, next: u64) -> Result<Vec<u8>, AllocError>
    ensures { IfOk result (λ body. body.items ≡ held_body attribute held.now next) }
{
    let mut body = entry_front(
        alloc,
        entry_type(held.in_z),
        attribute,
        next,
        held.num,
        held.t,
        held.elems,
    )?;
    body.extend_from_slice(held.stored.as_slice())?;
    Ok(body)
}

/// Appends the entry that is held back, if one is, linked to a place.
fn append_held<A: Area>(
    alloc: Global,
    area: &mut A,
    a: &OpenAttribute,
    next: u64,
) -> Result<(), WriteStop>
    requires limit { (A.frame area.old).limit ≤ 2 ^ 62 }
    requires within { length (A.image area.old) ≤ (A.frame area.old).limit }
    ensures appended { OnOk result (A.image area.new ≡ A.image area.old ++ laid (held_bodies a.now next)) }
    ensures area { Writes A.image A.frame A.faults (length (A.image area.old)) area.old area.new (held_bodies a.now next) result }
{
    match &a.held {
        None => Ok(()),
        Some(held) => {
            let body = held_body(alloc, a.num, held, next)?;
            append_record(area, &body)
        }
    }
}

/// How many bytes the record takes of the entry that is held back.
fn held_size(a: &OpenAttribute) -> u64
    ensures size { result ≡ laid_size (held_bodies a.now 0) }
    ensures small { result < 2 ^ 63 + 56 }
{
    match &a.held {
        None => 0,
        Some(held) => AEDR_SIZE + held.stored.as_slice().len() as u64,
    }
}

/// The link of the entry that is held back, where one follows at a place.
fn held_next(held: &Option<Held>, in_z: bool, place: u64) -> u64
    ensures { result ≡ held_next held.now in_z place }
{
    match held {
        None => 0,
        Some(held) => {
            let is_same = if in_z { held.in_z } else { !held.in_z };
            if is_same { place } else { 0 }
        }
    }
}

/// One entry more, at a place.
fn lengthen(chain: &mut EntryChain, place: u64, num: u32)
    ensures { chain.new ≡ longer place num chain.old }
{
    if chain.count == 0 {
        chain.head = place;
    }
    chain.count = chain.count.saturating_add(1);
    chain.greatest = Some(num);
}

/// Holds an entry back, which will stand at a place.
fn hold(a: &mut OpenAttribute, place: u64, held: Held)
    ensures { a.new ≡ with_entry place held a.old }
{
    if held.in_z {
        lengthen(&mut a.z, place, held.num);
    } else {
        lengthen(&mut a.g, place, held.num);
    }
    a.held = Some(held);
}

/// Takes one entry more of an attribute, and appends the one before.
pub(crate) fn add_entry<A: Area>(
    alloc: Global,
    area: &mut A,
    a: &mut OpenAttribute,
    held: Held,
) -> Result<(), WriteStop>
    requires limit { (A.frame area.old).limit ≤ 2 ^ 62 }
    requires within { length (A.image area.old) ≤ (A.frame area.old).limit }
    ensures appended { OnOk result (A.image area.new ≡ A.image area.old ++ laid (held_bodies a.old (held_next a.old.held held.in_z (length (A.image area.old) + laid_size (held_bodies a.old 0))))) }
    ensures attribute { OnOk result (a.new ≡ with_entry (length (A.image area.old) + laid_size (held_bodies a.old 0)) held a.old) }
    ensures area { Writes A.image A.frame A.faults (length (A.image area.old)) area.old area.new (held_bodies a.old (held_next a.old.held held.in_z (length (A.image area.old) + laid_size (held_bodies a.old 0)))) result }
{
    let place = area.size() + held_size(a);
    let next = held_next(&a.held, held.in_z, place);
    append_held(alloc, area, a, next)?;
    hold(a, place, held);
    Ok(())
}

/// The ADR of an attribute that ends at a place.
fn adr_body(
    alloc: Global,
    file: &FileState,
    a: &OpenAttribute,
    end: u64,
) -> Result<Vec<u8>, AllocError>
    ensures { IfOk result (λ body. body.items ≡ adr_made file.now end a.now) }
{
    let next = next_if(a.num, file.counts.attributes, end);
    let mut body = adr_front(alloc, a.num, next, a.scope, a.g, a.z)?;
    body.extend_from_slice(a.name.as_slice())?;
    Ok(body)
}

/// Appends the last entry of an attribute, and writes its ADR.
pub(crate) fn finish_attribute<A: Area>(
    alloc: Global,
    area: &mut A,
    file: &FileState,
    a: &OpenAttribute,
) -> Result<(), WriteStop>
    requires limit { (A.frame area.old).limit ≤ 2 ^ 62 }
    requires within { length (A.image area.old) ≤ (A.frame area.old).limit }
    requires room { a.now.place + 68 + length a.now.name ≤ length (A.image area.old) }
    ensures finished { OnOk result (A.image area.new ≡ put (A.image area.old ++ laid (held_bodies a.now 0)) (a.now.place + 8) (adr_made file.now (length (A.image area.old) + laid_size (held_bodies a.now 0)) a.now)) }
    ensures area { Writes A.image A.frame A.faults (length (A.image area.old)) area.old area.new (held_bodies a.now 0) result }
{
    append_held(alloc, area, a, 0)?;
    let body = adr_body(alloc, file, a, area.size())?;
    fill_room(area, a.place, &body)?;
    Ok(())
}
