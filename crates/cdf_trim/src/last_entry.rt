//! The entry of an index that names its last block.

ghost use Rattle.std.specs.Prelude.{◌≡◌, ◌≢◌, ◌≤◌, ◌<◌, List, length, IfOk};
ghost use Rattle.cdf_area.specs.Calls.{Reads};
ghost use Rattle.cdf_format.specs.Index.{used_count};
ghost use Rattle.cdf_index.specs.Finding.{HasIndex, SomeNode, index_at};
ghost use Rattle.cdf_model.specs.Limits.{image_limit};
ghost use Rattle.cdf_puts.specs.Starts.{InTopChain};
ghost use Rattle.cdf_puts.specs.TidyIndex.{IsTidy};
ghost use Rattle.cdf_trim.specs.LastEntry.{SeesLast};
ghost use Rattle.cdf_trim.specs.WayToLast.{EndsAt, ReadsLast, link_on};

use cdf_area::{Area, AreaError};
use cdf_format::fields::{CVVR_TYPE, RECORD_TYPE, VXR_TYPE};
use cdf_index::{Leaf, read_entry, read_head, read_named};
use cdf_records::read_unsigned4;

/// The entry that names the last block of an index.
#[derive(Drop, Clone, Copy)]
pub struct LastEntry {
    /// Where its node stands, with how many entries it has room for.
    pub node: u64,
    pub room: u64,
    /// Its number in the node.
    pub number: u64,
    /// What it says.
    pub leaf: Leaf,
}

/// The link on which the way to the last entry goes on from a node: to the next node of its chain, or else to the chain that its last entry names,
/// and 0 where this entry names a block.
#[tactic(auto, using(cdf_index::proofs::Looking::node_inside))]
fn read_link_on<A: Area>(area: &mut A, at: u64) -> Result<u64, AreaError>
    requires node { SomeNode (A.image area.old) at }
    requires used { 0 < used_count (A.image area.old) at }
    requires short { length (A.image area.old) ≤ image_limit }
    ensures link { IfOk result (λ link. link ≡ link_on (A.image area.old) at) }
    ensures area { Reads A.image A.frame A.faults A.edited area.old area.new result }
{
    let head = read_head(area, at)?;
    if head.next != 0 {
        return Ok(head.next);
    }
    let named = read_named(area, at, &head, head.used - 1)?;
    if named.kind == VXR_TYPE {
        Ok(named.place)
    } else {
        Ok(0)
    }
}

/// The node at which the way to the last entry of an index ends.
fn find_end<A: Area>(area: &mut A, start: u64) -> Result<u64, AreaError>
    requires index { HasIndex (A.image area.old) start }
    requires some { start ≢ 0 }
    requires tidy { IsTidy (index_at (A.image area.old) start) }
    requires short { length (A.image area.old) ≤ image_limit }
    ensures end { IfOk result (EndsAt (A.image area.old) (index_at (A.image area.old) start)) }
    ensures area { Reads A.image A.frame A.faults A.edited area.old area.new result }
{
    let mut at = start;
    let mut next = read_link_on(area, start)?;
    while next != 0 {
        at = next;
        next = read_link_on(area, at)?;
    }
    Ok(at)
}

/// The last used entry of a node, as that of a block.
#[tactic(auto, using(cdf_index::proofs::Looking::node_inside, cdf_index::proofs::Looking::names_in))]
fn read_last<A: Area>(area: &mut A, at: u64) -> Result<LastEntry, AreaError>
    requires node { SomeNode (A.image area.old) at }
    requires used { 0 < used_count (A.image area.old) at }
    requires short { length (A.image area.old) ≤ image_limit }
    ensures entry { IfOk result (ReadsLast (A.image area.old) at) }
    ensures area { Reads A.image A.frame A.faults A.edited area.old area.new result }
{
    let head = read_head(area, at)?;
    let number = head.used - 1;
    let entry = read_entry(area, at, head.room, number)?;
    let kind = read_unsigned4(area, entry.place + RECORD_TYPE)?;
    Ok(LastEntry {
        node: at,
        room: head.room,
        number,
        leaf: Leaf {
            first: entry.first,
            last: entry.last,
            at: entry.place,
            packed: kind == CVVR_TYPE,
        },
    })
}

/// The entry that names the last block of the index to which a link leads, where no node of it is empty, and of its top chain a node may be known.
pub fn find_last_entry<A: Area>(
    area: &mut A,
    head: u64,
    known: Option<u64>,
) -> Result<Option<LastEntry>, AreaError>
    requires index { HasIndex (A.image area.old) head }
    requires known { InTopChain (index_at (A.image area.old) head) known }
    requires tidy { IsTidy (index_at (A.image area.old) head) }
    requires short { length (A.image area.old) ≤ image_limit }
    ensures last { IfOk result (SeesLast (A.image area.old) (index_at (A.image area.old) head)) }
    ensures area { Reads A.image A.frame A.faults A.edited area.old area.new result }
{
    if head == 0 {
        return Ok(None);
    }
    let start = known.unwrap_or(head);
    let end = find_end(area, start)?;
    let last = read_last(area, end)?;
    Ok(Some(last))
}
