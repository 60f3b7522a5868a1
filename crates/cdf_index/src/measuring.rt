//! The size of an index.

ghost use Rattle.std.specs.Prelude.{◌≡◌, ◌≤◌, length, IfOk};
ghost use Rattle.cdf_area.specs.Calls.{Reads};
ghost use Rattle.cdf_model.specs.Limits.{image_limit};
ghost use Rattle.cdf_index.specs.Finding.{index_at, HasIndex};
ghost use Rattle.cdf_index.specs.Sizes.{size_of};

use crate::gathering::{Gather, gather_chain};
use crate::nodes::Head;
use cdf_area::{Area, AreaError};
use cdf_model::limits::LEVEL_LIMIT;
use std::alloc::AllocError;

/// How many entries a new node has room for at least.
pub const NEW_ENTRIES: u64 = 7;

/// The size of an index: its leaves, the used entries of all nodes, and Nentries of the widest node, or of a new one.
#[derive(Clone, Copy, Debug, PartialEq, Eq)]
pub struct IndexSize {
    pub leaves: u64,
    pub entries: u64,
    pub widest: u32,
}

/// An index without nodes.
const EMPTY: IndexSize = IndexSize {
    leaves: 0,
    entries: 0,
    widest: NEW_ENTRIES as u32,
};

impl Gather for IndexSize {
    ghost use Rattle.cdf_index.specs.Sizes.{Counts};

    ghost has = { Counts };

    #[tactic(auto, using(crate::proofs::Measured::sizes_both))]
    fn node(&mut self, place: u64, head: &Head) -> Result<(), AllocError> {
        self.entries = self.entries.saturating_add(head.used);
        self.widest = self.widest.max(head.room as u32);
        Ok(())
    }

    #[tactic(auto, using(crate::proofs::Measured::sizes_both))]
    fn block<A: Area>(
        &mut self,
        area: &mut A,
        at: u64,
        room: u64,
        i: u64,
        place: u64,
    ) -> Result<(), AreaError> {
        self.leaves = self.leaves.saturating_add(1);
        Ok(())
    }
}

/// The size of the index that a link leads to.
#[tactic(auto, using(crate::proofs::ChainWalk::whole_chain))]
pub fn index_size<A: Area>(area: &mut A, head: u64) -> Result<IndexSize, AreaError>
    requires index { HasIndex (A.image area.old) head }
    requires short { length (A.image area.old) ≤ image_limit }
    ensures value { IfOk result (λ size. size ≡ size_of (index_at (A.image area.old) head)) }
    ensures area { Reads A.image A.frame A.faults A.edited area.old area.new result }
{
    let mut size = EMPTY;
    gather_chain(area, head, LEVEL_LIMIT, &mut size)?;
    Ok(size)
}
