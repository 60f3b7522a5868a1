//! The next block behind a record.

ghost use Rattle.std.specs.Prelude.{◌≡◌, ◌≢◌, ◌+◌, ◌≤◌, ℕ, length, IfOk};
ghost use Rattle.cdf_area.specs.Calls.{Reads};
ghost use Rattle.cdf_format.specs.Index.{nodes_of};
ghost use Rattle.cdf_model.specs.Limits.{image_limit, level_limit};
ghost use Rattle.cdf_index.specs.Descent.{Meets, first_after};
ghost use Rattle.cdf_index.specs.Finding.{index_at, HasIndex, SomeNode};
ghost use Rattle.cdf_index.specs.Next.{least_first_past};
ghost use Rattle.cdf_index.specs.Order.{NextsAreZero};

use crate::descending::{Stop, lower_chain, walk_chain};
use cdf_area::{Area, AreaError};
use cdf_format::fields::VXR_FIRST;
use cdf_model::limits::LEVEL_LIMIT;
use cdf_records::{Steps, read_unsigned4};
use std::sync::ledger::Ledger;

/// First of the entry behind those counted at a node, else another one.
#[tactic(auto, using(crate::proofs::Looking::node_inside))]
fn first_behind<A: Area>(
    area: &mut A,
    stop: &Stop,
    rec: u32,
    other: Option<u32>,
) -> Result<Option<u32>, AreaError>
    requires node { SomeNode (A.image area.old) stop.now.place }
    requires meets { Meets (A.image area.old) rec stop.now }
    requires short { length (A.image area.old) ≤ image_limit }
    ensures first { IfOk result (λ first. first ≡ first_after (A.image area.old) stop.now other) }
    ensures area { Reads A.image A.frame A.faults A.edited area.old area.new result }
{
    if stop.begun < stop.head.used {
        let first = read_unsigned4(area, stop.place + (VXR_FIRST + 4 * stop.begun))?;
        Ok(Some(first))
    } else {
        Ok(other)
    }
}

/// The least First past a record, of all entries of the index that a link leads to: the First that comes next on a level is less than those on the levels above. A node takes a step.
#[tactic(auto, using(crate::proofs::Walking::top_few, crate::proofs::Walking::top_flat))]
pub fn next_first<A: Area, L: Ledger>(
    area: &mut A,
    head: u64,
    rec: u32,
    steps: &mut Steps<L>,
) -> Result<Option<u32>, AreaError>
    requires index { HasIndex (A.image area.old) head }
    requires short { length (A.image area.old) ≤ image_limit }
    ensures value { IfOk result (λ next. next ≡ least_first_past rec (index_at (A.image area.old) head)) }
    ensures steps { steps.new ≤ steps.old + length (nodes_of (index_at (A.image area.old) head)) }
    ensures levels { NextsAreZero (index_at (A.image area.old) head) → steps.new ≤ steps.old + level_limit }
    ensures area { Reads A.image A.frame A.faults A.edited area.old area.new result }
{
    let mut best = None;
    let mut at = head;
    for turn in 0..LEVEL_LIMIT {
        if at == 0 {
            return Ok(best);
        }
        let chain = walk_chain(area, at, rec, steps)?;
        best = first_behind(area, &chain.here, rec, best)?;
        at = lower_chain(area, &chain.best, rec)?;
    }
    Ok(best)
}
