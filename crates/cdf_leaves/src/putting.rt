//! The entry of a new leaf, put into the node at the end of the way, or into a new one behind it.

ghost use Rattle.std.specs.Prelude.{◌≡◌, ◌+◌, ◌-◌, ◌≤◌, ◌<◌, length, max, IfOk, OnOk};
ghost use Rattle.cdf_area.specs.Calls.{Edits};
ghost use Rattle.cdf_edits.specs.Index.Grown.{new_entries};
ghost use Rattle.cdf_format.specs.Sound.{IsSound};
ghost use Rattle.cdf_format.specs.Fields.{eof, gdr_offset};
ghost use Rattle.cdf_format.specs.Shape.{shape};
ghost use Rattle.cdf_format.specs.Records.{past, vdr_vxr_tail, vxr_bytes};
ghost use Rattle.cdf_model.specs.Limits.{image_limit};
ghost use Rattle.cdf_leaves.specs.Putting.{ChainMade, EntryPut, IndexStarted, MayPut, SplitMade};

use crate::making::make_node;
use cdf_area::{Area, AreaError};
use cdf_format::fields::{VDR_VXR_HEAD, VDR_VXR_TAIL, VXR_VXR_NEXT};
use cdf_index::{Entry, NEW_ENTRIES, Spot, insert_entry, read_entries, shorten_node};
use cdf_records::set_unsigned8;
use std::alloc::Global;

/// Puts an entry into a full node before others, which go to a new node behind it. Gives the new node.
/// After an error a part of this may have been done.
#[tactic(auto, using(crate::proofs::PutSteps::inside_before, crate::proofs::PutSteps::inside_made, crate::proofs::PutSteps::room_made, crate::proofs::PutSteps::used_made, cdf_area::proofs::Calls::edit_done, cdf_area::proofs::Calls::edit_failed, cdf_area::proofs::Calls::edit_more, cdf_area::proofs::Calls::keeps_by_read, cdf_area::proofs::Calls::read_once))]
fn split_node<A: Area>(
    alloc: Global,
    area: &mut A,
    end: Spot,
    entry: Entry,
) -> Result<u64, AreaError>
    requires eof { eof (A.image area.old) (gdr_offset (A.image area.old)) ≡ length (A.image area.old) }
    requires end { MayPut (A.image area.old) end }
    requires behind { end.begun < end.used }
    requires room { length (A.image area.old) + vxr_bytes (max new_entries end.room) ≤ (A.frame area.old).limit }
    requires limit { (A.frame area.old).limit ≤ image_limit }
    ensures longest { OnOk result (length (A.image area.new) ≤ length (A.image area.old) + vxr_bytes (max new_entries end.room)) }
    ensures split { IfOk result (SplitMade (A.image area.old) (A.image area.new) end entry) }
    ensures area { Edits A.frame A.faults area.old area.new result }
{
    let behind = read_entries(alloc, area, end.place, end.room, end.begun, end.used)?;
    let room = NEW_ENTRIES.max(end.used - end.begun);
    let at = make_node(area, room, end.next, &behind)?;
    shorten_node(area, end.place, end.room, end.used, end.begun, entry, at)?;
    Ok(at)
}

/// Puts an entry into a new node behind a full one. Gives the new node.
/// After an error a part of this may have been done.
#[tactic(auto, using(crate::proofs::PutSteps::next_lies))]
fn chain_node<A: Area>(area: &mut A, end: Spot, entry: Entry) -> Result<u64, AreaError>
    requires eof { eof (A.image area.old) (gdr_offset (A.image area.old)) ≡ length (A.image area.old) }
    requires end { MayPut (A.image area.old) end }
    requires room { length (A.image area.old) + vxr_bytes new_entries ≤ (A.frame area.old).limit }
    requires limit { (A.frame area.old).limit ≤ image_limit }
    ensures longest { OnOk result (length (A.image area.new) ≤ length (A.image area.old) + vxr_bytes new_entries) }
    ensures chained { IfOk result (ChainMade (A.image area.old) (A.image area.new) end entry) }
    ensures area { Edits A.frame A.faults area.old area.new result }
{
    let at = make_node(area, NEW_ENTRIES, end.next, &[entry])?;
    set_unsigned8(area, end.place, VXR_VXR_NEXT, at)?;
    Ok(at)
}

/// Puts an entry where it belongs into the node at the end of the way. Gives the new node that this takes, 0 for none.
/// After an error a part of this may have been done.
#[tactic(auto, using(crate::proofs::PutSteps::inside_before))]
pub fn put_entry<A: Area>(
    alloc: Global,
    area: &mut A,
    end: Spot,
    entry: Entry,
) -> Result<u64, AreaError>
    requires eof { eof (A.image area.old) (gdr_offset (A.image area.old)) ≡ length (A.image area.old) }
    requires end { MayPut (A.image area.old) end }
    requires room { length (A.image area.old) + vxr_bytes (max new_entries end.room) ≤ (A.frame area.old).limit }
    requires limit { (A.frame area.old).limit ≤ image_limit }
    ensures longest { OnOk result (length (A.image area.new) ≤ length (A.image area.old) + vxr_bytes (max new_entries end.room)) }
    ensures put { IfOk result (EntryPut (A.image area.old) (A.image area.new) end entry) }
    ensures area { Edits A.frame A.faults area.old area.new result }
{
    if end.used < end.room {
        insert_entry(area, end.place, end.room, end.used, end.begun, entry)?;
        return Ok(0);
    }
    if end.begun < end.used {
        split_node(alloc, area, end, entry)
    } else {
        chain_node(area, end, entry)
    }
}

/// Makes the one node of an index that had none, with this entry, and writes VXRhead and VXRtail of the descriptor at a place.
/// After an error a part of this may have been done.
pub fn start_index<A: Area>(area: &mut A, vdr: u64, entry: Entry) -> Result<(), AreaError>
    requires sound { IsSound (A.image area.old) (shape (A.image area.old)) }
    requires eof { eof (A.image area.old) (gdr_offset (A.image area.old)) ≡ length (A.image area.old) }
    requires lies { vdr + past vdr_vxr_tail ≤ length (A.image area.old) }
    requires room { length (A.image area.old) + vxr_bytes new_entries ≤ (A.frame area.old).limit }
    requires limit { (A.frame area.old).limit ≤ image_limit }
    ensures started { OnOk result (IndexStarted (A.image area.old) (A.image area.new) vdr entry) }
    ensures area { Edits A.frame A.faults area.old area.new result }
{
    let at = make_node(area, NEW_ENTRIES, 0, &[entry])?;
    set_unsigned8(area, vdr, VDR_VXR_HEAD, at)?;
    set_unsigned8(area, vdr, VDR_VXR_TAIL, at)
}
