//! VXRtail of a variable, once a node was put into the top chain of its index.

ghost use Rattle.std.specs.Prelude.{◌≡◌, ◌+◌, ◌≤◌, length, IfOk, OnOk};
ghost use Rattle.cdf_area.specs.Calls.{Edits, Reads};
ghost use Rattle.cdf_format.specs.Records.{past, vdr_vxr_tail};
ghost use Rattle.cdf_model.specs.Limits.{image_limit};
ghost use Rattle.cdf_leaves.specs.Tail.{HasEnd, IsEnd, TailSet};

use cdf_area::{Area, AreaError};
use cdf_format::fields::{VDR_VXR_TAIL, VXR_VXR_NEXT};
use cdf_records::{read_unsigned8, set_unsigned8};

/// The last node of a chain of nodes.
#[tactic(auto, using(crate::proofs::TopChain::follow_done, crate::proofs::TopChain::follow_end, crate::proofs::TopChain::follow_more, crate::proofs::TopChain::inside_now))]
fn last_of_chain<A: Area>(area: &mut A, at: u64) -> Result<u64, AreaError>
    requires chain { HasEnd (A.image area.old) at }
    requires short { length (A.image area.old) ≤ image_limit }
    ensures last { IfOk result (IsEnd (A.image area.old) at) }
    ensures area { Reads A.image A.frame A.faults A.edited area.old area.new result }
{
    let mut here = at;
    for turn in 0..area.size() {
        let next = read_unsigned8(area, here + VXR_VXR_NEXT)?;
        if next == 0 {
            return Ok(here);
        }
        here = next;
    }
    Ok(here)
}

/// Writes VXRtail of the descriptor at a place: the last node of the top chain of its index, found from one of its nodes on.
#[tactic(auto, using(crate::proofs::TopChain::tail_set, cdf_area::proofs::Calls::edit_done, cdf_area::proofs::Calls::edit_failed, cdf_area::proofs::Calls::edit_more, cdf_area::proofs::Calls::edits_by_read, cdf_area::proofs::Calls::edits_by_write, cdf_area::proofs::Calls::keeps_by_read, cdf_area::proofs::Calls::read_once))]
pub fn set_tail<A: Area>(area: &mut A, vdr: u64, at: u64) -> Result<(), AreaError>
    requires chain { HasEnd (A.image area.old) at }
    requires lies { vdr + past vdr_vxr_tail ≤ length (A.image area.old) }
    requires short { length (A.image area.old) ≤ image_limit }
    ensures set { OnOk result (TailSet (A.image area.old) (A.image area.new) vdr at) }
    ensures area { Edits A.frame A.faults area.old area.new result }
{
    let end = last_of_chain(area, at)?;
    set_unsigned8(area, vdr, VDR_VXR_TAIL, end)?;
    Ok(())
}
