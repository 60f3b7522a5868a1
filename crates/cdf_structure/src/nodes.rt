//! The nodes of an index, and their entries, read.

ghost use Rattle.std.specs.Prelude.{◌≡◌, ◌+◌, ◌-◌, ◌/◌, ◌≤◌, ◌<◌, ◌*◌, ◌^◌, ◌&&◌, ℕ, min, length, nat_le, slice_index, IfOk};
ghost use Rattle.cdf_area.specs.Calls.{Reads};
ghost use Rattle.cdf_format.specs.Fields.{size_at, with_sign, word};
ghost use Rattle.cdf_format.specs.VariableFields.{counted4};
ghost use Rattle.cdf_format.specs.Records.{linked_size, vxr_bytes, vxr_entries, vxr_entry_size};
ghost use Rattle.cdf_model.specs.Limits.{signed_limit};
ghost use Rattle.cdf_structure.specs.Indexes.{IsNodeAt, IsEntryAt};

use crate::fields::read_size;
use cdf_area::{Area, AreaError};
use cdf_format::fields::{
    VXR_ENTRY_SIZE, VXR_FIRST, VXR_N_ENTRIES, VXR_N_USED_ENTRIES, VXR_VXR_NEXT,
};
use cdf_model::limits::SIGNED_LIMIT;
use cdf_records::{read_unsigned4, read_unsigned8};

/// What a node says before its entries: how many it has room for, how many of them are used and lie in its record, whether they
/// all do, and the next node.
#[derive(Clone, Copy)]
pub struct Node {
    pub place: u64,
    pub room: u64,
    pub used: u64,
    pub has_room: bool,
    pub next: u64,
}

/// First, Last and Offset of an entry.
#[derive(Clone, Copy)]
pub struct Entry {
    pub first: u32,
    pub last: u32,
    pub offset: u64,
}

/// The byte at a place. One behind the image counts as 0.
fn read_byte<A: Area>(area: &mut A, at: u64) -> Result<u8, AreaError>
    ensures value { IfOk result (λ byte. byte ≡ slice_index (A.image area.old) at) }
    ensures area { Reads A.image A.frame A.faults A.edited area.old area.new result }
{
    if at >= area.size() {
        return Ok(0);
    }
    let mut bytes = [0u8; 1];
    area.get(at, &mut bytes)?;
    Ok(bytes[0])
}

/// The 4 bytes at a place, without a sign. Those behind the image count as 0.
fn read_padded4<A: Area>(area: &mut A, at: u64) -> Result<u32, AreaError>
    requires { at < 2 ^ 63 }
    ensures value { IfOk result (λ number. number ≡ word (A.image area.old) at 4) }
    ensures area { Reads A.image A.frame A.faults A.edited area.old area.new result }
{
    if at + 4 <= area.size() {
        return read_unsigned4(area, at);
    }
    let first = u32::from(read_byte(area, at)?);
    let second = u32::from(read_byte(area, at + 1)?);
    let third = u32::from(read_byte(area, at + 2)?);
    let fourth = u32::from(read_byte(area, at + 3)?);
    Ok(first * 0x100_0000 + second * 0x1_0000 + third * 0x100 + fourth)
}

/// The 8 bytes at a place, without a sign. Those behind the image count as 0.
fn read_padded8<A: Area>(area: &mut A, at: u64) -> Result<u64, AreaError>
    requires { at < 2 ^ 62 }
    ensures value { IfOk result (λ number. number ≡ word (A.image area.old) at 8) }
    ensures area { Reads A.image A.frame A.faults A.edited area.old area.new result }
{
    if at + 8 <= area.size() {
        return read_unsigned8(area, at);
    }
    let high = u64::from(read_padded4(area, at)?);
    let low = u64::from(read_padded4(area, at + 4)?);
    Ok(high * 0x1_0000_0000 + low)
}

/// A number of 4 bytes with its sign.
pub fn with_sign(number: u32) -> i64
    ensures { result ≡ with_sign number }
{
    i64::from(number.cast_signed())
}

/// A number of 4 bytes that has a sign; none below 0.
fn counted(number: u32) -> u64
    ensures { result ≡ counted4 number }
{
    if number > SIGNED_LIMIT {
        0
    } else {
        u64::from(number)
    }
}

/// How many entries are used, of those that a record of this size has room for.
fn used_of(used: u64, room: u64, size: u64) -> u64
    requires { linked_size ≤ size }
    ensures { result ≡ min used (min room ((size - (vxr_entries 0).place) / vxr_entry_size)) }
{
    used.min(room.min((size - VXR_FIRST) / VXR_ENTRY_SIZE))
}

/// Whether a node of this size has no more used entries than entries, and room for these.
fn has_room(used: u32, room: u32, size: u64) -> bool
    ensures { result ≡ ((nat_le used room && nat_le room signed_limit) && nat_le (vxr_bytes room) size) }
{
    used <= room && room <= SIGNED_LIMIT && VXR_FIRST + VXR_ENTRY_SIZE * u64::from(room) <= size
}

/// What the node at a place says before its entries.
pub fn read_node<A: Area>(area: &mut A, place: u64) -> Result<Node, AreaError>
    requires long { linked_size ≤ size_at (A.image area.old) place }
    requires fits { place + size_at (A.image area.old) place ≤ length (A.image area.old) }
    ensures node { IfOk result (IsNodeAt (A.image area.old) place) }
    ensures area { Reads A.image A.frame A.faults A.edited area.old area.new result }
{
    let _size = area.size();
    let size = read_size(area, place)?;
    let next = read_unsigned8(area, place + VXR_VXR_NEXT)?;
    let room = read_unsigned4(area, place + VXR_N_ENTRIES)?;
    let used = read_unsigned4(area, place + VXR_N_USED_ENTRIES)?;
    Ok(Node {
        place,
        room: u64::from(room),
        used: used_of(counted(used), counted(room), size),
        has_room: has_room(used, room, size),
        next,
    })
}

/// The entry of a node that has a number.
pub fn read_entry<A: Area>(area: &mut A, node: &Node, i: u64) -> Result<Entry, AreaError>
    requires node { IsNodeAt (A.image area.old) node.now.place node.now }
    requires used { i < node.now.used }
    requires fits { node.now.place + size_at (A.image area.old) node.now.place ≤ length (A.image area.old) }
    requires small { length (A.image area.old) < 2 ^ 31 }
    ensures entry { IfOk result (IsEntryAt (A.image area.old) node.now.place i) }
    ensures area { Reads A.image A.frame A.faults A.edited area.old area.new result }
{
    let first = read_unsigned4(area, node.place + (VXR_FIRST + 4 * i))?;
    let last = read_padded4(area, node.place + (VXR_FIRST + 4 * node.room + 4 * i))?;
    let offset = read_padded8(area, node.place + (VXR_FIRST + 8 * node.room + 8 * i))?;
    Ok(Entry {
        first,
        last,
        offset,
    })
}
