//! The nodes on the way to a new leaf, whose entries reach as far as it.

ghost use Rattle.std.specs.Prelude.{◌≡◌, ◌≤◌, length, map, OnOk};
ghost use Rattle.cdf_area.specs.Calls.{Edits};
ghost use Rattle.cdf_model.specs.Limits.{image_limit};
ghost use Rattle.cdf_index.specs.Descent.{step_pair};
ghost use Rattle.cdf_leaves.specs.Widening.{WayStands, WidenedAlong};

use cdf_area::{Area, AreaError};
use cdf_index::{Step, widen_entry};

/// Lets the entries on a way end at a record, where they end before it, the lowest one first.
/// After an error a part of this may have been done.
#[tactic(auto, using(crate::proofs::Along::next_inside, crate::proofs::Along::next_room, crate::proofs::Along::next_below))]
pub fn widen_way<A: Area>(area: &mut A, steps: &[Step], last: u32) -> Result<(), AreaError>
    requires stands { WayStands (A.image area.old) steps.now }
    requires short { length (A.image area.old) ≤ image_limit }
    ensures as_long { OnOk result (length (A.image area.new) ≡ length (A.image area.old)) }
    ensures widened { OnOk result (WidenedAlong (A.image area.old) (A.image area.new) last (map step_pair steps.now)) }
    ensures area { Edits A.frame A.faults area.old area.new result }
{
    for turn in 0..steps.len() {
        let step = steps[steps.len() - 1 - turn];
        widen_entry(area, step.place, step.room, step.entry, last)?;
    }
    Ok(())
}
