//! The bytes of a block, stored in its record or in another one.

ghost use Rattle.std.specs.Prelude.{◌≡◌, ◌≤◌, ◌<◌, ◌+◌, ℕ, List, length, true, IfOk, OnOk};
ghost use Rattle.cdf_area.specs.Calls.{Edits, Reads};
ghost use Rattle.cdf_edits.specs.Index.Written.{keeps_record};
ghost use Rattle.cdf_format.specs.Fields.{size_at};
ghost use Rattle.cdf_format.specs.Index.{room_at};
ghost use Rattle.cdf_format.specs.IndexOf.{SaysEntry};
ghost use Rattle.cdf_format.specs.Shape.{VariableShape};
ghost use Rattle.cdf_index.specs.Finding.{NodeInside};
ghost use Rattle.cdf_index.specs.Sight.{seen};
ghost use Rattle.cdf_index.specs.Writing.{EntrySet};
ghost use Rattle.cdf_model.specs.Limits.{image_limit};
ghost use Rattle.cdf_model.specs.declared.kinds.Kind.{Kind};
ghost use Rattle.cdf_blocks.specs.Blocks.{HasLeaf, IsLeafOf, stored_end};
ghost use Rattle.cdf_blocks.specs.Replaced.{Rewritten};
ghost use Rattle.cdf_blocks.specs.Shortened.{BlockShortened};

use crate::overwriting::overwrite_block;
use crate::placing::{Part, Site, place_block};
use cdf_area::{Area, AreaError};
use cdf_format::fields::{CVVR_SIZE, VVR_SIZE};
use cdf_index::{Entry, Leaf, set_entry};
use cdf_records::read_unsigned8;
use std::alloc::Global;

/// Where so many bytes end in a block that is packed or not.
fn stored_end(packed: bool, count: u64) -> u64
    requires { count ≤ image_limit }
    ensures { result ≡ stored_end packed count }
{
    if packed {
        CVVR_SIZE + count
    } else {
        VVR_SIZE + count
    }
}

/// Whether a block that is to be packed or not, and holds so many bytes then, stays in the record of a leaf.
fn keeps_record<A: Area>(
    area: &mut A,
    leaf: &Leaf,
    packed: bool,
    count: u64,
) -> Result<bool, AreaError>
    requires lies { leaf.now.at + 8 ≤ length (A.image area.old) }
    requires few { count ≤ image_limit }
    ensures keeps { IfOk result (λ keeps. keeps ≡ keeps_record true leaf.now.packed packed (stored_end packed count) (size_at (A.image area.old) leaf.now.at)) }
    ensures area { Reads A.image A.frame A.faults A.edited area.old area.new result }
{
    let size = read_unsigned8(area, leaf.at)?;
    Ok(leaf.packed == packed && stored_end(packed, count) <= size)
}

/// Lets the entry of a leaf name these records, if it names others.
fn set_range<A: Area>(area: &mut A, site: Site, leaf: &Leaf, part: Part) -> Result<(), AreaError>
    requires inside { NodeInside (A.image area.old) site.node }
    requires room { site.room ≡ room_at (A.image area.old) site.node }
    requires below { site.number < site.room }
    requires short { length (A.image area.old) ≤ image_limit }
    requires says { SaysEntry (A.image area.old) site.node site.number leaf.now.first leaf.now.last leaf.now.at }
    ensures set { OnOk result (EntrySet (A.image area.old) (A.image area.new) site.node site.number part.first part.last leaf.now.at) }
    ensures area { Edits A.frame A.faults area.old area.new result }
{
    if part.first == leaf.first && part.last == leaf.last {
        return Ok(());
    }
    let entry = Entry {
        first: part.first,
        last: part.last,
        place: leaf.at,
    };
    set_entry(area, site.node, site.room, site.number, entry)
}

/// Writes these bytes into the record of a leaf, which then has these records alone. After an error a part of this may have been done.
fn rewrite_block<A: Area>(
    area: &mut A,
    site: Site,
    leaf: &Leaf,
    part: Part,
    bytes: &[u8],
) -> Result<Leaf, AreaError>
    requires leaf { HasLeaf (A.image area.old) site (seen leaf.now) part leaf.now.packed bytes.now (A.frame area.old).limit }
    requires limit { (A.frame area.old).limit ≤ image_limit }
    requires room { stored_end leaf.now.packed (length bytes.now) ≤ size_at (A.image area.old) leaf.now.at }
    ensures rewritten { IfOk result (λ new. Rewritten (A.image area.old) (A.image area.new) site (seen leaf.now) (seen new) bytes.now) }
    ensures leaf { IfOk result (λ new. seen new ≡ record (seen leaf.now) { first = part.first; last = part.last }) }
    ensures area { Edits A.frame A.faults area.old area.new result }
{
    overwrite_block(area, leaf, bytes)?;
    set_range(area, site, leaf, part)?;
    Ok(Leaf {
        first: part.first,
        last: part.last,
        at: leaf.at,
        packed: leaf.packed,
    })
}

/// Gives the block of a leaf these bytes, packed or not, and the leaf these records: in its record where it keeps its kind and has room, else in
/// another one. After an error a part of this may have been done.
pub(crate) fn store_block<A: Area>(
    alloc: Global,
    area: &mut A,
    site: Site,
    leaf: &Leaf,
    part: Part,
    packed: bool,
    bytes: &[u8],
) -> Result<Leaf, AreaError>
    requires leaf { HasLeaf (A.image area.old) site (seen leaf.now) part packed bytes.now (A.frame area.old).limit }
    requires limit { (A.frame area.old).limit ≤ image_limit }
    ensures shortened { IfOk result (λ new. (kind : Kind) (before : List VariableShape) (own : VariableShape) (after : List VariableShape) (plain : List ℕ) → IsLeafOf (A.image area.old) kind before own after site (seen leaf.now) part plain packed bytes.now (A.frame area.old).limit → BlockShortened (A.image area.old) (A.image area.new) kind before own after (seen leaf.now) (seen new) plain) }
    ensures first { IfOk result (λ new. new.first ≡ part.first) }
    ensures last { IfOk result (λ new. new.last ≡ part.last) }
    ensures area { Edits A.frame A.faults area.old area.new result }
{
    let keeps = keeps_record(area, leaf, packed, bytes.len() as u64)?;
    if keeps {
        let rewritten = rewrite_block(area, site, leaf, part, bytes)?;
        return Ok(rewritten);
    }
    let new = place_block(alloc, area, site, leaf, part, packed, bytes)?;
    Ok(new)
}
