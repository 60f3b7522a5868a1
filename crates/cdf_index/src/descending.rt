//! The way down to the node that gets a new entry.

ghost use Rattle.std.specs.Prelude.{◌≡◌, ◌≢◌, ◌⊎◌, ◌≤◌, ◌<◌, ◌+◌, length, map, true, false, IfOk};
ghost use Rattle.cdf_area.specs.Calls.{Reads};
ghost use Rattle.cdf_edits.specs.Index.Written.{top_chain};
ghost use Rattle.cdf_format.specs.Index.{nodes_of, link_to};
ghost use Rattle.cdf_format.specs.Shape.{Each};
ghost use Rattle.cdf_format.specs.Tiles.{In};
ghost use Rattle.cdf_model.specs.Limits.{image_limit};
ghost use Rattle.cdf_index.specs.Ahead.{chain_before};
ghost use Rattle.cdf_index.specs.Descent.{ChainWalked, IsAmong, Meets, SeesNode, StepSays, step_pair};
ghost use Rattle.cdf_index.specs.Finding.{index_at, HasIndex, SomeNode};
ghost use Rattle.cdf_index.specs.Starting.{from_reached};
ghost use Rattle.cdf_index.specs.Way.{way, spot};

use crate::nodes::{Head, read_node};
use crate::scanning::{entries_begun, read_named};
use cdf_area::{Area, AreaError};
use cdf_format::fields::VXR_TYPE;
use cdf_model::limits::LEVEL_LIMIT;
use cdf_records::Steps;
use std::alloc::Global;
use std::sync::ledger::Ledger;

/// A node as it is met along a chain, and how many of its entries begin at a record or before it.
#[derive(Clone, Copy)]
pub struct Stop {
    pub place: u64,
    pub head: Head,
    pub begun: u64,
}

/// Where a walk along a chain ends: the last node that has an entry which begins at a record or before it, or else the first node, and the last one that was met.
#[derive(Clone, Copy)]
pub struct Chain {
    pub best: Stop,
    pub here: Stop,
}

/// A node on the way: how many entries it has room for and uses, the next node, how many of its entries begin at a record or before it, and the lower chain that the last of these names, 0 for none.
#[derive(Clone, Copy)]
pub struct Spot {
    pub place: u64,
    pub room: u64,
    pub used: u64,
    pub next: u64,
    pub begun: u64,
    pub lower: u64,
}

/// A node on the way, and the number of its entry that leads on.
#[derive(Clone, Copy)]
pub struct Step {
    pub place: u64,
    pub room: u64,
    pub entry: u64,
}

/// The nodes on the way, from the top, and the one at its end.
#[derive(Drop)]
pub struct Way {
    pub steps: Vec<Step>,
    pub end: Spot,
}

/// A node, as a record is looked for. It takes a step.
pub fn see_node<A: Area, L: Ledger>(
    area: &mut A,
    at: u64,
    first: u32,
    steps: &mut Steps<L>,
) -> Result<Stop, AreaError>
    requires node { SomeNode (A.image area.old) at }
    requires short { length (A.image area.old) ≤ image_limit }
    ensures place { IfOk result (λ stop. stop.place ≡ at) }
    ensures meets { IfOk result (Meets (A.image area.old) first) }
    ensures step { steps.new ≡ steps.old + 1 }
    ensures area { Reads A.image A.frame A.faults A.edited area.old area.new result }
{
    let head = read_node(area, at, steps)?;
    let begun = entries_begun(area, at, &head, first)?;
    Ok(Stop {
        place: at,
        head,
        begun,
    })
}

/// Whether no later node of a chain has an entry that begins at the record or before it.
fn ends_search(here: Stop) -> bool
    ensures ends { result ≡ true → (here.begun < here.head.used) ⊎ (here.head.next ≡ 0) }
    ensures goes_on { result ≡ false → (here.head.used ≤ here.begun) × (here.head.next ≢ 0) }
{
    here.begun < here.head.used || here.head.next == 0
}

/// The one met now, if it has such an entry, else the best one so far.
fn better(best: Stop, here: Stop) -> Stop
    ensures taken { 0 < here.begun → result ≡ here }
    ensures kept { here.begun ≡ 0 → result ≡ best }
{
    if here.begun > 0 { here } else { best }
}

/// Walks along the chain that an index begins with. A node takes a step.
#[tactic(auto, using(crate::proofs::FromReached::index_node))]
pub fn walk_chain<A: Area, L: Ledger>(
    area: &mut A,
    at: u64,
    first: u32,
    steps: &mut Steps<L>,
) -> Result<Chain, AreaError>
    requires index { HasIndex (A.image area.old) at }
    requires some { at ≢ 0 }
    requires short { length (A.image area.old) ≤ image_limit }
    ensures chain { IfOk result (ChainWalked (A.image area.old) first (index_at (A.image area.old) at)) }
    ensures steps { steps.new ≤ steps.old + length (top_chain (index_at (A.image area.old) at)) }
    ensures area { Reads A.image A.frame A.faults A.edited area.old area.new result }
{
    let mut here = see_node(area, at, first, steps)?;
    let mut best = here;
    for turn in 0..area.size() {
        if ends_search(here) {
            return Ok(Chain { best, here });
        }
        let next = see_node(area, here.head.next, first, steps)?;
        best = better(best, next);
        here = next;
    }
    Ok(Chain { best, here })
}

/// The lower chain that the last of the entries counted at a node names, 0 where it names a block or there is none.
pub fn lower_chain<A: Area>(area: &mut A, stop: &Stop, first: u32) -> Result<u64, AreaError>
    requires node { SomeNode (A.image area.old) stop.now.place }
    requires meets { Meets (A.image area.old) first stop.now }
    requires short { length (A.image area.old) ≤ image_limit }
    ensures chain { IfOk result (λ link. link ≡ chain_before (A.image area.old) stop.now.place 0 stop.now.begun) }
    ensures area { Reads A.image A.frame A.faults A.edited area.old area.new result }
{
    if stop.begun == 0 {
        return Ok(0);
    }
    let named = read_named(area, stop.place, &stop.head, stop.begun - 1)?;
    if named.kind == VXR_TYPE {
        Ok(named.place)
    } else {
        Ok(0)
    }
}

/// The node of the chain from which the way goes on, with the lower chain that it leads to.
fn spot_of_chain<A: Area, L: Ledger>(
    area: &mut A,
    at: u64,
    first: u32,
    steps: &mut Steps<L>,
) -> Result<Spot, AreaError>
    requires index { HasIndex (A.image area.old) at }
    requires some { at ≢ 0 }
    requires short { length (A.image area.old) ≤ image_limit }
    ensures place { IfOk result (λ spot. spot.place ≡ link_to (from_reached first (index_at (A.image area.old) at))) }
    ensures sees { IfOk result (λ spot. SeesNode (A.image area.old) spot.place first spot) }
    ensures area { Reads A.image A.frame A.faults A.edited area.old area.new result }
{
    let chain = walk_chain(area, at, first, steps)?;
    let stop = chain.best;
    let lower = lower_chain(area, &stop, first)?;
    Ok(Spot {
        place: stop.place,
        room: stop.head.room,
        used: stop.head.used,
        next: stop.head.next,
        begun: stop.begun,
        lower,
    })
}

/// The way that an index leads down to the node that gets a new entry.
pub fn way_down<A: Area, L: Ledger>(
    alloc: Global,
    area: &mut A,
    head: u64,
    first: u32,
    steps: &mut Steps<L>,
) -> Result<Way, AreaError>
    requires index { HasIndex (A.image area.old) head }
    requires some { head ≢ 0 }
    requires short { length (A.image area.old) ≤ image_limit }
    ensures steps { IfOk result (λ found. map step_pair found.steps.items ≡ way first (index_at (A.image area.old) head)) }
    ensures end { IfOk result (λ found. found.end.place ≡ spot first (index_at (A.image area.old) head)) }
    ensures sees { IfOk result (λ found. SeesNode (A.image area.old) found.end.place first found.end) }
    ensures last { IfOk result (λ found. In found.end.place (nodes_of (index_at (A.image area.old) head))) }
    ensures among { IfOk result (λ found. Each (IsAmong (index_at (A.image area.old) head)) found.steps.items) }
    ensures say { IfOk result (λ found. Each (StepSays (A.image area.old)) found.steps.items) }
    ensures area { Reads A.image A.frame A.faults A.edited area.old area.new result }
{
    let mut passed = Vec::new(alloc);
    let mut end = spot_of_chain(area, head, first, steps)?;
    for turn in 0..LEVEL_LIMIT {
        if end.lower == 0 {
            return Ok(Way { steps: passed, end });
        }
        passed.push(Step {
            place: end.place,
            room: end.room,
            entry: end.begun - 1,
        })?;
        let below = spot_of_chain(area, end.lower, first, steps)?;
        end = below;
    }
    Ok(Way { steps: passed, end })
}
