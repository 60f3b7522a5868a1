//! A walk over a whole index, for whatever is gathered on it.

ghost use Rattle.std.specs.Prelude.{◌≡◌, ◌∷◌, ◌≤◌, ◌<◌, ℕ, List, [], length, OnOk};
ghost use Rattle.cdf_area.specs.Calls.{Reads};
ghost use Rattle.cdf_format.specs.Index.{Nodes, first_at, last_at, link_to, room_at};
ghost use Rattle.cdf_model.specs.Limits.{image_limit};
ghost use Rattle.cdf_index.specs.Finding.{NodeInside, Stands};
ghost use Rattle.cdf_index.specs.Whole.{Grew, Met, met_block, met_node, SomeChain, met_in};

use crate::nodes::{Head, read_head};
use crate::scanning::read_named;
use cdf_area::{Area, AreaError};
use cdf_format::fields::VXR_TYPE;
use std::alloc::AllocError;

/// What gathers the nodes and the blocks that a walk over an index meets.
pub trait Gather {
    /// It has gathered these.
    ghost has: { Self → List Met → Type 0 };

    /// A node more.
    fn node(&mut self, place: u64, head: &Head) -> Result<(), AllocError>
        requires { head.now.room ≤ u32.MAX }
        ensures { OnOk result (Grew has self.old self.new (met_node place head.now.room head.now.used ∷ [])) };

    /// A block more, which stands at a place that the entry with number `i` of a node names.
    fn block<A: Area>(
        &mut self,
        area: &mut A,
        at: u64,
        room: u64,
        i: u64,
        place: u64,
    ) -> Result<(), AreaError>
        requires inside { NodeInside (A.image area.old) at }
        requires room { room ≡ room_at (A.image area.old) at }
        requires below { i < room }
        requires short { length (A.image area.old) ≤ image_limit }
        ensures grew { OnOk result (Grew has self.old self.new (met_block (first_at (A.image area.old) at i) (last_at (A.image area.old) at i) place ∷ [])) }
        ensures area { Reads A.image A.frame A.faults A.edited area.old area.new result };
}

/// Has the nodes of a chain gathered, and what is below them.
#[tactic(auto, using(crate::proofs::Looking::node_inside, crate::proofs::ChainWalk::walk_node, crate::proofs::ChainWalk::walk_end, crate::proofs::ChainWalk::walk_in, crate::proofs::ChainWalk::lower_chain))]
pub fn gather_chain<A: Area, G: Gather>(
    area: &mut A,
    link: u64,
    levels: u64,
    gathered: &mut G,
) -> Result<(), AreaError>
    requires chain { SomeChain (A.image area.old) levels link }
    requires short { length (A.image area.old) ≤ image_limit }
    ensures grew { OnOk result ((chain : Nodes) → Stands (A.image area.old) levels chain → link ≡ link_to chain → Grew G.has gathered.old gathered.new (met_in chain)) }
    ensures area { Reads A.image A.frame A.faults A.edited area.old area.new result }
{
    let mut at = link;
    for turn in 0..area.size() {
        if at == 0 {
            return Ok(());
        }
        let head = read_head(area, at)?;
        gathered.node(at, &head)?;
        for i in 0..head.used {
            let named = read_named(area, at, &head, i)?;
            if named.kind == VXR_TYPE {
                gather_chain(area, named.place, levels - 1, gathered)?;
            } else {
                gathered.block(area, at, head.room, i, named.place)?;
            }
        }
        at = head.next;
    }
    Ok(())
}
