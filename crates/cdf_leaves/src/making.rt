//! Nodes that are taken for entries.

ghost use Rattle.std.specs.Prelude.{◌≡◌, ◌+◌, ◌*◌, ◌≤◌, length, IfOk};
ghost use Rattle.cdf_area.specs.Calls.{Edits};
ghost use Rattle.cdf_format.specs.Fields.{eof, gdr_offset};
ghost use Rattle.cdf_format.specs.Shape.{shape};
ghost use Rattle.cdf_format.specs.Sound.{IsSound};
ghost use Rattle.cdf_format.specs.Records.{vxr_bytes};
ghost use Rattle.cdf_model.specs.Limits.{image_limit};
ghost use Rattle.cdf_leaves.specs.Putting.{NodeMade};

use cdf_area::{Area, AreaError};
use cdf_format::fields::{VXR_ENTRY_SIZE, VXR_FIRST};
use cdf_index::{Entry, write_node};
use cdf_space::alloc_record;

/// Takes a record and makes a node of it, with room for so many entries, with these, and with a link to the next one. Gives its place.
/// After an error a part of this may have been done.
#[tactic(auto, using(crate::proofs::PutSteps::node_made, cdf_index::proofs::NodeFilled::has_room))]
pub fn make_node<A: Area>(
    area: &mut A,
    room: u64,
    next: u64,
    entries: &[Entry],
) -> Result<u64, AreaError>
    requires sound { IsSound (A.image area.old) (shape (A.image area.old)) }
    requires eof { eof (A.image area.old) (gdr_offset (A.image area.old)) ≡ length (A.image area.old) }
    requires few { length entries.now ≤ room }
    requires room { length (A.image area.old) + vxr_bytes room ≤ (A.frame area.old).limit }
    requires limit { (A.frame area.old).limit ≤ image_limit }
    ensures made { IfOk result (NodeMade (A.image area.old) (A.image area.new) room next entries.now) }
    ensures area { Edits A.frame A.faults area.old area.new result }
{
    let at = alloc_record(area, VXR_FIRST + VXR_ENTRY_SIZE * room)?;
    write_node(area, at, room, next, entries)?;
    Ok(at)
}
