//! Nodes that are made of records taken for them.

ghost use Rattle.std.specs.Prelude.{◌≡◌, ◌+◌, ◌≤◌, ◌<◌, length, OnOk};
ghost use Rattle.cdf_area.specs.Calls.{Edits};
ghost use Rattle.cdf_model.specs.Limits.{image_limit};
ghost use Rattle.cdf_index.specs.Writing.{HasRoomFor, HeadWritten, NodeWritten};

use crate::entries::{Entry, write_entries};
use cdf_area::{Area, AreaError};
use cdf_format::fields::{VXR_N_ENTRIES, VXR_TYPE};
use cdf_records::{set_record_type, set_unsigned4, set_vxr_n_used_entries, set_vxr_vxr_next};

/// Writes what a node says before its entries, with its type.
#[tactic(auto, using(crate::proofs::FieldSet::set_there))]
fn write_head<A: Area>(
    area: &mut A,
    at: u64,
    room: u64,
    used: u64,
    next: u64,
) -> Result<(), AreaError>
    requires place { HasRoomFor (A.image area.old) at room }
    requires few { used ≤ room }
    requires short { length (A.image area.old) ≤ image_limit }
    ensures written { OnOk result (HeadWritten (A.image area.old) (A.image area.new) at room used next) }
    ensures area { Edits A.frame A.faults area.old area.new result }
{
    set_record_type(area, at, VXR_TYPE as i32)?;
    set_vxr_vxr_next(area, at, next)?;
    set_unsigned4(area, at, VXR_N_ENTRIES, room as u32)?;
    set_vxr_n_used_entries(area, at, used as i32)
}

/// Makes a node of a record that has room for just so many entries: its fields, these entries, and -1 throughout in the others.
pub fn write_node<A: Area>(
    area: &mut A,
    at: u64,
    room: u64,
    next: u64,
    entries: &[Entry],
) -> Result<(), AreaError>
    requires place { HasRoomFor (A.image area.old) at room }
    requires few { length entries.now ≤ room }
    requires short { length (A.image area.old) ≤ image_limit }
    ensures written { OnOk result (NodeWritten (A.image area.old) (A.image area.new) at room next entries.now) }
    ensures area { Edits A.frame A.faults area.old area.new result }
{
    write_head(area, at, room, entries.len() as u64, next)?;
    write_entries(area, at, room, 0, room, entries)
}
