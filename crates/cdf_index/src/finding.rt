//! The block of a record, found on the way down from the first node.

ghost use Rattle.std.specs.Prelude.{◌≡◌, ◌+◌, ◌≤◌, ℕ, length, IfOk};
ghost use Rattle.std.specs.Option.{option_map};
ghost use Rattle.cdf_area.specs.Calls.{Reads};
ghost use Rattle.cdf_model.specs.Limits.{image_limit, level_limit};
ghost use Rattle.cdf_format.specs.Index.{Nodes, leaves_of};
ghost use Rattle.cdf_index.specs.Order.{leaf_of, nodes_passed, NextsAreZero};
ghost use Rattle.cdf_index.specs.Finding.{index_at, At, HasIndex, NodeInside, SomeNode};
ghost use Rattle.cdf_index.specs.Sight.{IsHead, SightIs, seen};

use crate::entries::read_entry;
use crate::nodes::{Head, Leaf, read_node};
use crate::scanning::entries_before;
use cdf_area::{Area, AreaError};
use cdf_format::fields::{CVVR_TYPE, RECORD_TYPE, VXR_TYPE};
use cdf_records::{Steps, read_unsigned4};
use std::sync::ledger::Ledger;

/// What a search meets at a node: a link on, or its end, with a leaf or without one.
#[derive(Clone, Copy)]
enum Sight {
    On { link: u64 },
    End { found: Option<Leaf> },
}

/// What a node tells of a record.
#[tactic(auto, using(crate::proofs::Looking::names_in))]
fn look<A: Area>(area: &mut A, at: u64, head: &Head, rec: u32) -> Result<Sight, AreaError>
    requires head { IsHead (A.image area.old) at head.now }
    requires node { SomeNode (A.image area.old) at }
    requires inside { NodeInside (A.image area.old) at }
    requires short { length (A.image area.old) ≤ image_limit }
    ensures told { IfOk result (λ sight. (nodes : Nodes) (turn : ℕ) → At (A.image area.old) rec turn nodes at → SightIs (A.image area.old) rec (turn + 1) nodes sight) }
    ensures area { Reads A.image A.frame A.faults A.edited area.old area.new result }
{
    let i = entries_before(area, at, head, rec)?;
    if i == head.used {
        return Ok(Sight::On { link: head.next });
    }
    let entry = read_entry(area, at, head.room, i)?;
    if rec < entry.first {
        return Ok(Sight::End { found: None });
    }
    let kind = read_unsigned4(area, entry.place + RECORD_TYPE)?;
    if kind == VXR_TYPE {
        return Ok(Sight::On { link: entry.place });
    }
    let leaf = Leaf {
        first: entry.first,
        last: entry.last,
        at: entry.place,
        packed: kind == CVVR_TYPE,
    };
    Ok(Sight::End { found: Some(leaf) })
}

/// The leaf that has a record, in the index that a link leads to. Each node that is passed takes a step.
pub fn find<A: Area, L: Ledger>(
    area: &mut A,
    head: u64,
    rec: u32,
    steps: &mut Steps<L>,
) -> Result<Option<Leaf>, AreaError>
    requires index { HasIndex (A.image area.old) head }
    requires short { length (A.image area.old) ≤ image_limit }
    ensures value { IfOk result (λ found. option_map seen found ≡ leaf_of rec (leaves_of (index_at (A.image area.old) head))) }
    ensures steps { steps.new ≤ steps.old + nodes_passed rec (index_at (A.image area.old) head) }
    ensures levels { NextsAreZero (index_at (A.image area.old) head) → steps.new ≤ steps.old + level_limit }
    ensures area { Reads A.image A.frame A.faults A.edited area.old area.new result }
{
    let mut at = head;
    for turn in 0..area.size() {
        if at == 0 {
            return Ok(None);
        }
        let node = read_node(area, at, steps)?;
        match look(area, at, &node, rec)? {
            Sight::On { link } => {
                at = link;
            }
            Sight::End { found } => {
                return Ok(found);
            }
        }
    }
    Ok(None)
}
