//! Where a search for a record may start along the top chain of an index.

ghost use Rattle.std.specs.Prelude.{◌≡◌, ◌≢◌, ◌≤◌, ◌<◌, length, IfOk, IfSome};
ghost use Rattle.cdf_area.specs.Calls.{Reads};
ghost use Rattle.cdf_edits.specs.Index.Written.{top_chain};
ghost use Rattle.cdf_format.specs.Tiles.{In};
ghost use Rattle.cdf_model.specs.Limits.{image_limit};
ghost use Rattle.cdf_index.specs.Finding.{index_at, HasIndex};
ghost use Rattle.cdf_index.specs.Starting.{IsStart, LeadsToStart};

use crate::descending::{see_node, walk_chain};
use cdf_area::{Area, AreaError};
use cdf_records::Steps;
use std::marker::Brand;
use std::sync::ledger::{Blank, Ledger};

/// The node from which the chain is walked: the known one, if one of its entries begins at the record or before it, else the first one.
fn walked_from<A: Area, L: Ledger>(
    area: &mut A,
    head: u64,
    known: Option<u64>,
    rec: u32,
    steps: &mut Steps<L>,
) -> Result<u64, AreaError>
    requires index { HasIndex (A.image area.old) head }
    requires some { head ≢ 0 }
    requires known { IfSome known (λ node. In node (top_chain (index_at (A.image area.old) head))) }
    requires short { length (A.image area.old) ≤ image_limit }
    ensures from { IfOk result (LeadsToStart (A.image area.old) head rec) }
    ensures area { Reads A.image A.frame A.faults A.edited area.old area.new result }
{
    let Some(node) = known else {
        return Ok(head);
    };
    let seen = see_node(area, node, rec, steps)?;
    if seen.begun > 0 { Ok(node) } else { Ok(head) }
}

/// Where a search may start in an index that has a node, with steps of a count of its own.
fn start_counted<A: Area, L: Ledger>(
    area: &mut A,
    head: u64,
    known: Option<u64>,
    rec: u32,
    blank: Blank,
) -> Result<u64, AreaError>
    requires name { blank.name ≡ L.name }
    requires parts { blank.parts ≡ L.parts }
    requires counts { 0 < L.parts }
    requires index { HasIndex (A.image area.old) head }
    requires some { head ≢ 0 }
    requires known { IfSome known (λ node. In node (top_chain (index_at (A.image area.old) head))) }
    requires short { length (A.image area.old) ≤ image_limit }
    ensures start { IfOk result (IsStart (A.image area.old) head rec) }
    ensures area { Reads A.image A.frame A.faults A.edited area.old area.new result }
{
    let mut steps = Steps::<L>::new(blank);
    let from = walked_from(area, head, known, rec, &mut steps)?;
    let chain = walk_chain(area, from, rec, &mut steps)?;
    Ok(chain.best.place)
}

/// Where a search for a record may start in the index that a link leads to: at the last node of its top chain that has an entry which begins at the record or before it,
/// at the first node where none has, and 0 where there is no node. A node of the top chain that is known saves the walk along those before it.
#[tactic(auto, using(crate::proofs::FromReached::none_starts))]
pub fn start_of<A: Area>(
    area: &mut A,
    head: u64,
    known: Option<u64>,
    rec: u32,
) -> Result<u64, AreaError>
    requires index { HasIndex (A.image area.old) head }
    requires known { IfSome known (λ node. In node (top_chain (index_at (A.image area.old) head))) }
    requires short { length (A.image area.old) ≤ image_limit }
    ensures start { IfOk result (IsStart (A.image area.old) head rec) }
    ensures area { Reads A.image A.frame A.faults A.edited area.old area.new result }
{
    if head == 0 {
        return Ok(0);
    }
    start_counted::<A, Brand>(area, head, known, rec, Blank::new(1))
}
