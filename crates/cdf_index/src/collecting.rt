//! The records of an index, collected, with what the entries of its blocks say.

ghost use Rattle.std.specs.Prelude.{◌≡◌, ◌++◌, ◌≤◌, length, map, IfOk};
ghost use Rattle.cdf_area.specs.Calls.{Reads};
ghost use Rattle.cdf_format.specs.Index.{nodes_of, leaves_of};
ghost use Rattle.cdf_model.specs.Limits.{image_limit};
ghost use Rattle.cdf_index.specs.Finding.{index_at, HasIndex};
ghost use Rattle.cdf_index.specs.Whole.{leaf_words, places_in};

use crate::entries::Entry;
use crate::gathering::{Gather, gather_chain};
use crate::nodes::Head;
use cdf_area::{Area, AreaError};
use cdf_format::fields::VXR_FIRST;
use cdf_model::limits::LEVEL_LIMIT;
use cdf_records::read_unsigned4;
use std::alloc::{AllocError, Global};

/// The parts of an index: what the entries of its blocks say, by record number, and the places of its nodes in order.
#[derive(Drop)]
pub struct IndexParts {
    pub leaves: Vec<Entry>,
    pub nodes: Vec<u64>,
}

impl Gather for IndexParts {
    ghost use Rattle.cdf_index.specs.Whole.{parts_of};

    ghost has = { parts_of };

    fn node(&mut self, place: u64, head: &Head) -> Result<(), AllocError> {
        self.nodes.push(place)?;
        Ok(())
    }

    fn block<A: Area>(
        &mut self,
        area: &mut A,
        at: u64,
        room: u64,
        i: u64,
        place: u64,
    ) -> Result<(), AreaError> {
        let first = read_unsigned4(area, at + (VXR_FIRST + 4 * i))?;
        let last = read_unsigned4(area, at + (VXR_FIRST + 4 * room + 4 * i))?;
        self.leaves.push(Entry { first, last, place })?;
        Ok(())
    }
}

/// The parts of the index that a link leads to.
#[tactic(auto, using(crate::proofs::ChainWalk::whole_chain))]
pub fn index_parts<A: Area>(alloc: Global, area: &mut A, head: u64) -> Result<IndexParts, AreaError>
    requires index { HasIndex (A.image area.old) head }
    requires short { length (A.image area.old) ≤ image_limit }
    ensures leaves { IfOk result (λ parts. parts.leaves.items ≡ map leaf_words (leaves_of (index_at (A.image area.old) head))) }
    ensures nodes { IfOk result (λ parts. parts.nodes.items ≡ nodes_of (index_at (A.image area.old) head)) }
    ensures area { Reads A.image A.frame A.faults A.edited area.old area.new result }
{
    let mut parts = IndexParts {
        leaves: Vec::new(alloc),
        nodes: Vec::new(alloc),
    };
    gather_chain(area, head, LEVEL_LIMIT, &mut parts)?;
    Ok(parts)
}

/// The places that entries name.
fn places_of(alloc: Global, entries: &[Entry]) -> Result<Vec<u64>, AllocError>
    ensures { IfOk result (λ places. places.items ≡ places_in entries.now) }
{
    let mut places = Vec::new(alloc);
    for entry in entries {
        places.push(entry.place)?;
    }
    Ok(places)
}

/// The records that go with a variable, but for its descriptor: the places of the blocks by record number, and then those of the nodes in order.
pub fn index_records<A: Area>(alloc: Global, area: &mut A, head: u64) -> Result<Vec<u64>, AreaError>
    requires index { HasIndex (A.image area.old) head }
    requires short { length (A.image area.old) ≤ image_limit }
    ensures value { IfOk result (λ places. places.items ≡ map (λ leaf. leaf.place) (leaves_of (index_at (A.image area.old) head)) ++ nodes_of (index_at (A.image area.old) head)) }
    ensures area { Reads A.image A.frame A.faults A.edited area.old area.new result }
{
    let parts = index_parts(alloc, area, head)?;
    let mut places = places_of(alloc, &parts.leaves)?;
    places.extend_from_slice(&parts.nodes)?;
    Ok(places)
}
