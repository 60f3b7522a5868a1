//! The nodes of an index, level by level.

ghost use Rattle.std.specs.Prelude.{[], ◌≡◌, ◌+◌, ◌<◌, ◌^◌, ◌≤◌, ◌++◌, ◌∷◌, length, map, IfOk, OnOk};
ghost use Rattle.std.specs.List.{flat_map};
ghost use Rattle.byteorder.specs.Endian.{big_bytes};
ghost use Rattle.cdf_model.specs.Limits.{level_limit};
ghost use Rattle.cdf_writer.specs.Bodies.{vxr_body, whole_record};
ghost use Rattle.cdf_writer.specs.Laying.{first_in, index_bodies, index_root, laid, last_in, link_if, node_bodies, uppers};
ghost use Rattle.cdf_writer.specs.Stops.{Writes};

use crate::appending::{WriteStop, append_record};
use crate::bodies::NodeEntry;
use cdf_area::Area;
use cdf_format::fields::VXR_TYPE;
use cdf_model::limits::LEVEL_LIMIT;
use std::alloc::{AllocError, Global};

/// How many entries a node has at most.
const NODE_ENTRIES: usize = 64;

/// Appends First of each entry.
fn push_firsts(body: &mut Vec<u8>, entries: &[NodeEntry]) -> Result<(), AllocError>
    ensures { OnOk result (body.new.items ≡ body.old.items ++ flat_map (λ entry. big_bytes 4 entry.first) entries.now) }
{
    for entry in entries {
        body.extend_from_slice(&entry.first.to_be_bytes())?;
    }
    Ok(())
}

/// Appends Last of each entry.
fn push_lasts(body: &mut Vec<u8>, entries: &[NodeEntry]) -> Result<(), AllocError>
    ensures { OnOk result (body.new.items ≡ body.old.items ++ flat_map (λ entry. big_bytes 4 entry.last) entries.now) }
{
    for entry in entries {
        body.extend_from_slice(&entry.last.to_be_bytes())?;
    }
    Ok(())
}

/// Appends Offset of each entry.
fn push_places(body: &mut Vec<u8>, entries: &[NodeEntry]) -> Result<(), AllocError>
    ensures { OnOk result (body.new.items ≡ body.old.items ++ flat_map (λ entry. big_bytes 8 entry.place) entries.now) }
{
    for entry in entries {
        body.extend_from_slice(&entry.place.to_be_bytes())?;
    }
    Ok(())
}

/// A node with these entries, and no other one behind it.
#[tactic(auto, unfolding(crate::specs::Bodies::vxr_body))]
fn vxr_body(alloc: Global, entries: &[NodeEntry]) -> Result<Vec<u8>, AllocError>
    requires { length entries.now ≤ 64 }
    ensures { IfOk result (λ body. body.items ≡ vxr_body entries.now) }
{
    let count = entries.len() as u32;
    let mut body = Vec::new(alloc);
    body.extend_from_slice(&VXR_TYPE.to_be_bytes())?;
    body.extend_from_slice(&0u64.to_be_bytes())?;
    body.extend_from_slice(&count.to_be_bytes())?;
    body.extend_from_slice(&count.to_be_bytes())?;
    push_firsts(&mut body, entries)?;
    push_lasts(&mut body, entries)?;
    push_places(&mut body, entries)?;
    Ok(body)
}

/// The entry that names a node with these entries.
fn naming(place: u64, entries: &[NodeEntry]) -> NodeEntry
    requires some { 1 ≤ length entries.now }
    ensures { result ≡ record { first = first_in entries.now; last = last_in entries.now; place = place } }
{
    NodeEntry {
        first: entries[0].first,
        last: entries[entries.len() - 1].last,
        place,
    }
}

/// Appends a node with these entries. Gives the entry that names it.
fn append_node<A: Area>(
    alloc: Global,
    area: &mut A,
    entries: &[NodeEntry],
) -> Result<NodeEntry, WriteStop>
    requires limit { (A.frame area.old).limit ≤ 2 ^ 62 }
    requires within { length (A.image area.old) ≤ (A.frame area.old).limit }
    requires some { 1 ≤ length entries.now }
    requires few { length entries.now ≤ 64 }
    ensures appended { OnOk result (A.image area.new ≡ A.image area.old ++ whole_record (vxr_body entries.now)) }
    ensures entry { IfOk result (λ entry. entry ≡ record { first = first_in entries.now; last = last_in entries.now; place = length (A.image area.old) }) }
    ensures area { Writes A.image A.frame A.faults (length (A.image area.old)) area.old area.new (vxr_body entries.now ∷ []) result }
{
    let place = area.size();
    let body = vxr_body(alloc, entries)?;
    append_record(area, &body)?;
    Ok(naming(place, entries))
}

/// Appends the nodes of a level, which have these entries. Gives the entries that name them.
fn append_level<A: Area>(
    alloc: Global,
    area: &mut A,
    entries: &[NodeEntry],
) -> Result<Vec<NodeEntry>, WriteStop>
    requires limit { (A.frame area.old).limit ≤ 2 ^ 62 }
    requires within { length (A.image area.old) ≤ (A.frame area.old).limit }
    ensures appended { OnOk result (A.image area.new ≡ A.image area.old ++ laid (node_bodies entries.now)) }
    ensures entries { IfOk result (λ upper. upper.items ≡ uppers (length (A.image area.old)) entries.now) }
    ensures area { Writes A.image A.frame A.faults (length (A.image area.old)) area.old area.new (node_bodies entries.now) result }
{
    let mut upper = Vec::new(alloc);
    let mut from = 0;
    while from < entries.len() {
        let end = usize::min(entries.len(), from + NODE_ENTRIES);
        let entry = append_node(alloc, area, &entries[from..end])?;
        upper.push(entry)?;
        from = end;
    }
    Ok(upper)
}

/// The link to nodes over entries that stand at a place, 0 without entries.
fn link_if(place: u64, entries: &[NodeEntry]) -> u64
    ensures { result ≡ link_if place entries.now }
{
    if entries.is_empty() { 0 } else { place }
}

/// Appends the nodes over entries, at most so many levels of them, until one node is left. Gives where this one stands, 0 without entries.
fn append_levels<A: Area>(
    alloc: Global,
    area: &mut A,
    most: u64,
    entries: &[NodeEntry],
) -> Result<u64, WriteStop>
    requires limit { (A.frame area.old).limit ≤ 2 ^ 62 }
    requires within { length (A.image area.old) ≤ (A.frame area.old).limit }
    ensures appended { OnOk result (A.image area.new ≡ A.image area.old ++ laid (index_bodies most (length (A.image area.old)) entries.now)) }
    ensures root { IfOk result (λ root. root ≡ index_root most (length (A.image area.old)) entries.now) }
    ensures area { Writes A.image A.frame A.faults (length (A.image area.old)) area.old area.new (index_bodies most (length (A.image area.old)) entries.now) result }
{
    if most == 0 {
        return Ok(0);
    }
    let place = area.size();
    let upper = append_level(alloc, area, entries)?;
    if upper.len() > 1 {
        return append_levels(alloc, area, most - 1, &upper);
    }
    Ok(link_if(place, entries))
}

/// Appends the index of blocks. Gives where its top node stands, 0 without blocks.
pub(crate) fn append_index<A: Area>(
    alloc: Global,
    area: &mut A,
    leaves: &[NodeEntry],
) -> Result<u64, WriteStop>
    requires limit { (A.frame area.old).limit ≤ 2 ^ 62 }
    requires within { length (A.image area.old) ≤ (A.frame area.old).limit }
    ensures appended { OnOk result (A.image area.new ≡ A.image area.old ++ laid (index_bodies level_limit (length (A.image area.old)) leaves.now)) }
    ensures root { IfOk result (λ root. root ≡ index_root level_limit (length (A.image area.old)) leaves.now) }
    ensures area { Writes A.image A.frame A.faults (length (A.image area.old)) area.old area.new (index_bodies level_limit (length (A.image area.old)) leaves.now) result }
{
    append_levels(alloc, area, LEVEL_LIMIT, leaves)
}
