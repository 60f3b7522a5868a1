//! What is known of the index of one variable.

ghost use Rattle.std.specs.Prelude.{◌≡◌, ◌≤◌, ◌+◌, length, IfOk, IfSome};
ghost use Rattle.cdf_area.specs.Calls.{Reads};
ghost use Rattle.cdf_format.specs.Index.{Nodes};
ghost use Rattle.cdf_index.specs.Finding.{HasIndex, index_at};
ghost use Rattle.cdf_model.specs.Limits.{image_limit};
ghost use Rattle.cdf_puts.specs.Starts.{InTopChain, IsRightOf, IsWithin, LeavesEntries};
ghost use Rattle.cdf_puts.specs.TidyIndex.{IsTidy};

use crate::searching::Search;
use cdf_area::{Area, AreaError};
use std::alloc::Global;
use std::collections::BTreeMap;

/// How many records a search is at most past the one from whose node it goes on, where no node on its way is kept.
const NEAR: u32 = 64;

/// The same, where it goes on from the node of the last search.
const NEAR_ONWARDS: u32 = 1024;

/// Into how many parts a longer way is divided, where a node at the end of each is kept.
const PARTS: u32 = 16;

/// How many nodes that searches passed are kept of one index at most.
const MOST_PASSED: usize = 262_144;

/// How many entries the nodes of an index use at most, and how many the widest one has room for at most.
#[derive(Clone, Copy, Debug, PartialEq, Eq)]
pub struct IndexBound {
    pub entries: u64,
    pub widest: u32,
}

/// The node of the top chain of an index at which a search for a record started, if the index has one.
#[derive(Clone, Copy)]
struct Passed {
    rec: u32,
    node: Option<u64>,
}

/// The nodes of the top chain of an index from which searches go on, how large the index is at most, and whether it has no empty node.
#[derive(Drop)]
pub struct KnownIndex {
    /// The record of the last search.
    rec: u32,
    /// The node at which it started.
    pub node: Option<u64>,
    /// By records, nodes on the ways that long searches went: at each a search for its record, or for a later one, may start.
    passed: BTreeMap<u32, u64>,
    pub bound: Option<IndexBound>,
    /// Whether it is known that no node is empty.
    pub tidy: bool,
}

/// The node of the top chain at which a search for a record may start, in the index that a link leads to, of whose top chain a node may
/// be known.
#[tactic(auto, using(cdf_area::proofs::Calls::read_done, cdf_area::proofs::Calls::read_failed, cdf_area::proofs::Calls::read_more, cdf_area::proofs::Calls::read_once))]
fn start_from<A: Area>(
    area: &mut A,
    head: u64,
    known: Option<u64>,
    rec: u32,
) -> Result<Option<u64>, AreaError>
    requires index { HasIndex (A.image area.old) head }
    requires known { InTopChain (index_at (A.image area.old) head) known }
    requires short { length (A.image area.old) ≤ image_limit }
    ensures start { IfOk result (InTopChain (index_at (A.image area.old) head)) }
    ensures area { Reads A.image A.frame A.faults A.edited area.old area.new result }
{
    let search = Search::begin(area, head, known, rec)?;
    Ok(search.node())
}

impl KnownIndex {
    /// Nothing is known.
    pub fn new(alloc: Global) -> KnownIndex
        ensures { (index : Nodes) → IsRightOf index result }
    {
        KnownIndex {
            rec: 0,
            node: None,
            passed: BTreeMap::new(alloc),
            bound: None,
            tidy: false,
        }
    }

    /// The last node that is kept for a record or for one before it; none where the search begins at the first node.
    fn passed_before(&self, rec: u32) -> Passed
        ensures before { result.rec ≤ rec }
        ensures top { (index : Nodes) → IsRightOf index self.now → InTopChain index result.node }
    {
        match self.passed.range(..=rec).next_back() {
            Some((passed, node)) => Passed {
                rec: *passed,
                node: Some(*node),
            },
            None => Passed { rec: 0, node: None },
        }
    }

    /// The node from which the search for a record goes on: that of the last search, where this one is near behind it, else the one
    /// that was passed last before the record.
    fn nearest(&self, rec: u32) -> Passed
        ensures before { result.rec ≤ rec }
        ensures top { (index : Nodes) → IsRightOf index self.now → InTopChain index result.node }
    {
        let last = Passed {
            rec: self.rec,
            node: self.node,
        };
        if last.rec <= rec && rec - last.rec <= NEAR {
            return last;
        }
        let passed = self.passed_before(rec);
        if passed.rec <= last.rec && last.rec <= rec {
            last
        } else {
            passed
        }
    }

    /// How many records a search may be past the one from whose node it goes on, with no node kept on its way.
    fn near(&self, from: Passed) -> u32
        ensures { 16 ≤ result }
    {
        if from.rec == self.rec {
            NEAR_ONWARDS
        } else {
            NEAR
        }
    }

    /// Keeps a node that was passed, where there is memory for it. Where there are too many, those that were kept are let go before.
    fn keep_passed(&mut self, at: Passed)
        ensures { (index : Nodes) → IsRightOf index self.old → InTopChain index at.node → IsRightOf index self.new }
    {
        let Some(node) = at.node else {
            return;
        };
        if self.passed.len() >= MOST_PASSED {
            self.passed.clear();
        }
        let _kept = self.passed.insert(at.rec, node);
    }

    /// Goes on from a node to that at which a search for a later record may start, and keeps this one if it is another.
    #[tactic(auto, using(cdf_area::proofs::Calls::read_done, cdf_area::proofs::Calls::read_failed, cdf_area::proofs::Calls::read_more, cdf_area::proofs::Calls::read_once))]
    fn pass_on<A: Area>(
        &mut self,
        area: &mut A,
        head: u64,
        from: Passed,
        rec: u32,
    ) -> Result<Passed, AreaError>
        requires index { HasIndex (A.image area.old) head }
        requires known { IsRightOf (index_at (A.image area.old) head) self.old }
        requires from { InTopChain (index_at (A.image area.old) head) from.node }
        requires short { length (A.image area.old) ≤ image_limit }
        ensures rec { IfOk result (λ to. to.rec ≡ rec) }
        ensures start { IfOk result (λ to. InTopChain (index_at (A.image area.old) head) to.node) }
        ensures known { IsRightOf (index_at (A.image area.old) head) self.new }
        ensures area { Reads A.image A.frame A.faults A.edited area.old area.new result }
    {
        let node = start_from(area, head, from.node, rec)?;
        let to = Passed { rec, node };
        if to.node != from.node {
            self.keep_passed(to);
        }
        Ok(to)
    }

    /// Goes the way from a node to a record in equal parts, and keeps the nodes at their ends, so that a later search for a record
    /// between goes but one part of it.
    #[tactic(auto, using(cdf_area::proofs::Calls::read_done, cdf_area::proofs::Calls::read_failed, cdf_area::proofs::Calls::read_more, cdf_area::proofs::Calls::read_once))]
    fn divide<A: Area>(
        &mut self,
        area: &mut A,
        head: u64,
        from: Passed,
        rec: u32,
    ) -> Result<(), AreaError>
        requires index { HasIndex (A.image area.old) head }
        requires known { IsRightOf (index_at (A.image area.old) head) self.old }
        requires from { InTopChain (index_at (A.image area.old) head) from.node }
        requires far { from.rec + 16 ≤ rec }
        requires short { length (A.image area.old) ≤ image_limit }
        ensures known { IsRightOf (index_at (A.image area.old) head) self.new }
        ensures area { Reads A.image A.frame A.faults A.edited area.old area.new result }
    {
        let part = (rec - from.rec) / PARTS;
        let mut at = from;
        while rec - at.rec > part {
            at = self.pass_on(area, head, at, at.rec + part)?;
        }
        Ok(())
    }

    /// A node of the top chain of the index that a link leads to, if it has one: that at which a search for a record may start. It is
    /// known then.
    #[tactic(auto, using(cdf_area::proofs::Calls::read_done, cdf_area::proofs::Calls::read_failed, cdf_area::proofs::Calls::read_more, cdf_area::proofs::Calls::read_once))]
    pub fn find_start<A: Area>(
        &mut self,
        area: &mut A,
        head: u64,
        rec: u32,
    ) -> Result<Option<u64>, AreaError>
        requires index { HasIndex (A.image area.old) head }
        requires known { IsRightOf (index_at (A.image area.old) head) self.old }
        requires short { length (A.image area.old) ≤ image_limit }
        ensures start { IfOk result (InTopChain (index_at (A.image area.old) head)) }
        ensures known { IsRightOf (index_at (A.image area.old) head) self.new }
        ensures area { Reads A.image A.frame A.faults A.edited area.old area.new result }
    {
        let from = self.nearest(rec);
        let node = start_from(area, head, from.node, rec)?;
        if node != from.node && rec - from.rec > self.near(from) {
            self.divide(area, head, from, rec)?;
        }
        self.rec = rec;
        self.node = node;
        Ok(node)
    }

    /// Keeps what bounds the index once it has so many entries more.
    pub fn keep_bound(&mut self, bound: IndexBound, more: u32)
        ensures known { (index : Nodes) → IsRightOf index self.old → IsWithin index bound → IsRightOf index self.new }
        ensures leaves { (index : Nodes) → IsWithin index bound → LeavesEntries self.new index more }
    {
        self.bound = match bound.entries.checked_add(u64::from(more)) {
            Some(entries) => Some(IndexBound {
                entries,
                widest: bound.widest,
            }),
            None => None,
        };
    }

    /// Notes that no node of the index is empty.
    pub fn note_tidy(&mut self)
        ensures { (index : Nodes) → IsRightOf index self.old → IsTidy index → IsRightOf index self.new }
    {
        self.tidy = true;
    }
}
