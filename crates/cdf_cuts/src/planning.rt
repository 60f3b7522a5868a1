//! What a cut makes of an index, planned before any byte is written.

ghost use Rattle.std.specs.Prelude.{◌≡◌, ◌++◌, ◌∷◌, ◌≤◌, List, [], length, true, false, IfOk, OnOk, None, MatchOption};
ghost use Rattle.cdf_area.specs.Calls.{Reads};
ghost use Rattle.cdf_edits.specs.Index.Blocks.{fallen, range};
ghost use Rattle.cdf_format.specs.Index.{Nodes, link_to};
ghost use Rattle.cdf_index.specs.Finding.{Stands};
ghost use Rattle.cdf_index.specs.Whole.{SomeChain};
ghost use Rattle.cdf_model.specs.Limits.{image_limit};
ghost use Rattle.cdf_cuts.specs.Planning.{Does, block_words, dropped, ended, found_after, found_in, kept_by, lower_words, plan_of, stands_after, stands_in, step, whole_after, whole_in};

use cdf_area::{Area, AreaError};
use cdf_format::fields::VXR_TYPE;
use cdf_index::{Entry, Head, read_entry, read_head, read_named};
use std::alloc::{AllocError, Global};

/// The records that a cut takes, and whether later ones close up.
#[derive(Clone, Copy)]
pub struct Span {
    pub first: u32,
    pub last: u32,
    pub close: bool,
}

/// A node that stays, with the entries that it is to have.
#[derive(Drop)]
pub struct NodeCut {
    pub place: u64,
    pub room: u64,
    pub used: u64,
    pub entries: Vec<Entry>,
}

/// The node that is to follow another, 0 for none.
#[derive(Clone, Copy)]
pub struct NodeLink {
    pub place: u64,
    pub next: u64,
}

/// The nodes that stay, the links between them, and the places of the blocks and of the nodes that are to be freed.
#[derive(Drop)]
pub struct Plan {
    pub nodes: Vec<NodeCut>,
    pub links: Vec<NodeLink>,
    pub blocks: Vec<u64>,
    pub emptied: Vec<u64>,
}

/// What a chain was found to keep so far: the entry that names it, if it keeps a node, the last node that stays, 0 for none, and whether all nodes do.
#[derive(Clone, Copy)]
pub struct Left {
    pub found: Option<Entry>,
    pub prev: u64,
    pub whole: bool,
}

/// Where the number of a record falls to.
fn fall(span: Span, number: u64) -> u64
    requires order { span.first ≤ span.last }
    ensures { result ≡ fallen span.first span.last number }
{
    let first = u64::from(span.first);
    let last = u64::from(span.last);
    if number < first {
        return number;
    }
    if number <= last {
        return first;
    }
    number - (last + 1 - first)
}

/// What the block of an entry keeps where later records close up.
fn kept_close(span: Span, entry: Entry) -> Option<Entry>
    requires order { span.first ≤ span.last }
    requires close { span.close ≡ true }
    ensures { MatchOption result (kept_by span (range entry.first entry.last) ≡ []) (λ e. (kept_by span (range entry.first entry.last) ≡ range e.first e.last ∷ []) × (e.place ≡ entry.place)) }
{
    let from = fall(span, u64::from(entry.first));
    let upto = fall(span, u64::from(entry.last) + 1);
    if from < upto {
        return Some(Entry {
            first: from as u32,
            last: (upto - 1) as u32,
            place: entry.place,
        });
    }
    None
}

/// What the block of an entry keeps where later records keep their numbers.
fn kept_apart(span: Span, entry: Entry) -> Option<Entry>
    requires order { span.first ≤ span.last }
    requires apart { span.close ≡ false }
    ensures { MatchOption result (kept_by span (range entry.first entry.last) ≡ []) (λ e. (kept_by span (range entry.first entry.last) ≡ range e.first e.last ∷ []) × (e.place ≡ entry.place)) }
{
    if entry.first < span.first {
        return Some(Entry {
            first: entry.first,
            last: entry.last.min(span.first - 1),
            place: entry.place,
        });
    }
    if span.last < entry.last {
        return Some(Entry {
            first: entry.first.max(span.last + 1),
            last: entry.last,
            place: entry.place,
        });
    }
    None
}

/// What the block of an entry keeps.
fn kept_of(span: Span, entry: Entry) -> Option<Entry>
    requires order { span.first ≤ span.last }
    ensures { MatchOption result (kept_by span (range entry.first entry.last) ≡ []) (λ e. (kept_by span (range entry.first entry.last) ≡ range e.first e.last ∷ []) × (e.place ≡ entry.place)) }
{
    if span.close {
        kept_close(span, entry)
    } else {
        kept_apart(span, entry)
    }
}

/// Plans for an entry that names a block: what it is to say, or that the block is freed.
fn keep_block(
    span: Span,
    entry: Entry,
    plan: &mut Plan,
    kept: &mut Vec<Entry>,
) -> Result<(), AllocError>
    requires order { span.first ≤ span.last }
    ensures does { OnOk result (Does plan.old plan.new (dropped (kept_by span (range entry.first entry.last)) entry.place)) }
    ensures kept { OnOk result (kept.new.items ≡ kept.old.items ++ block_words (kept_by span (range entry.first entry.last)) entry.place) }
{
    match kept_of(span, entry) {
        Some(left) => kept.push(left)?,
        None => plan.blocks.push(entry.place)?,
    }
    Ok(())
}

/// Plans for an entry that names a lower chain, of which this is left: what it is to say, if anything is left.
fn keep_lower(
    span: Span,
    entry: Entry,
    below: Option<Entry>,
    kept: &mut Vec<Entry>,
) -> Result<(), AllocError>
    ensures kept { OnOk result (kept.new.items ≡ kept.old.items ++ lower_words span.close entry.first entry.last below) }
{
    let Some(left) = below else {
        return Ok(());
    };
    if span.close {
        kept.push(left)?;
        return Ok(());
    }
    kept.push(Entry {
        first: entry.first,
        last: entry.last,
        place: left.place,
    })?;
    Ok(())
}

/// The entry that names a chain with one node more, which has entries.
fn name_chain(found: Option<Entry>, at: u64, kept: &[Entry]) -> Option<Entry>
    requires some { 1 ≤ length kept.now }
    ensures { result ≡ found_after found at kept.now }
{
    let last = kept[kept.len() - 1].last;
    match found {
        None => Some(Entry {
            first: kept[0].first,
            last,
            place: at,
        }),
        Some(entry) => Some(Entry {
            first: entry.first,
            last,
            place: entry.place,
        }),
    }
}

/// Plans for a node with these entries left: that it stays, behind the last one that does, or that it is freed.
fn keep_node(
    plan: &mut Plan,
    left: Left,
    at: u64,
    head: &Head,
    kept: Vec<Entry>,
) -> Result<Left, AllocError>
    ensures does { IfOk result (λ now. Does plan.old plan.new (step left.prev at head.now.room head.now.used kept.items)) }
    ensures found { IfOk result (λ now. now.found ≡ found_after left.found at kept.items) }
    ensures prev { IfOk result (λ now. now.prev ≡ stands_after left.prev at kept.items) }
    ensures whole { IfOk result (λ now. now.whole ≡ whole_after left.whole kept.items) }
{
    if kept.is_empty() {
        plan.emptied.push(at)?;
        return Ok(Left {
            found: left.found,
            prev: left.prev,
            whole: false,
        });
    }
    if left.prev != 0 {
        plan.links.push(NodeLink {
            place: left.prev,
            next: at,
        })?;
    }
    let now = Left {
        found: name_chain(left.found, at, &kept),
        prev: at,
        whole: left.whole,
    };
    plan.nodes.push(NodeCut {
        place: at,
        room: head.room,
        used: head.used,
        entries: kept,
    })?;
    Ok(now)
}

/// Plans for the end of a chain: no node follows the last one that stays.
fn end_chain(plan: &mut Plan, left: Left) -> Result<(), AllocError>
    ensures does { OnOk result (Does plan.old plan.new (ended left.prev)) }
{
    if left.prev != 0 {
        plan.links.push(NodeLink {
            place: left.prev,
            next: 0,
        })?;
    }
    Ok(())
}

/// Plans what a cut makes of a chain of nodes, with what is below them. Gives what the chain keeps.
#[tactic(auto, using(cdf_index::proofs::Looking::node_inside, crate::proofs::PlanWalk::plan_node, crate::proofs::PlanWalk::plan_in, crate::proofs::PlanWalk::plan_start, cdf_area::proofs::Calls::read_done, cdf_area::proofs::Calls::read_failed, cdf_area::proofs::Calls::read_more, cdf_area::proofs::Calls::read_once, cdf_area::proofs::Calls::read_without_memory))]
pub fn plan_chain<A: Area>(
    alloc: Global,
    area: &mut A,
    link: u64,
    levels: u64,
    span: Span,
    plan: &mut Plan,
) -> Result<Left, AreaError>
    requires chain { SomeChain (A.image area.old) levels link }
    requires short { length (A.image area.old) ≤ image_limit }
    requires order { span.first ≤ span.last }
    ensures does { IfOk result (λ left. (chain : Nodes) → Stands (A.image area.old) levels chain → link ≡ link_to chain → Does plan.old plan.new (plan_of span 0 chain)) }
    ensures found { IfOk result (λ left. (chain : Nodes) → Stands (A.image area.old) levels chain → link ≡ link_to chain → left.found ≡ found_in span None chain) }
    ensures last { IfOk result (λ left. (chain : Nodes) → Stands (A.image area.old) levels chain → link ≡ link_to chain → left.prev ≡ stands_in span 0 chain) }
    ensures whole { IfOk result (λ left. (chain : Nodes) → Stands (A.image area.old) levels chain → link ≡ link_to chain → left.whole ≡ whole_in span true chain) }
    ensures area { Reads A.image A.frame A.faults A.edited area.old area.new result }
{
    let mut at = link;
    let mut left = Left {
        found: None,
        prev: 0,
        whole: true,
    };
    for turn in 0..area.size() {
        if at == 0 {
            end_chain(plan, left)?;
            return Ok(left);
        }
        let head = read_head(area, at)?;
        let mut kept = Vec::new(alloc);
        for i in 0..head.used {
            let named = read_named(area, at, &head, i)?;
            let entry = read_entry(area, at, head.room, i)?;
            if named.kind == VXR_TYPE {
                let below = plan_chain(alloc, area, named.place, levels - 1, span, plan)?;
                keep_lower(span, entry, below.found, &mut kept)?;
            } else {
                keep_block(span, entry, plan, &mut kept)?;
            }
        }
        left = keep_node(plan, left, at, &head, kept)?;
        at = head.next;
    }
    end_chain(plan, left)?;
    Ok(left)
}
