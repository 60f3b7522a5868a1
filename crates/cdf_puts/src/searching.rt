//! The search for a record in an index, from a node that is known of its top chain or from the first one.

ghost use Rattle.std.specs.Prelude.{◌≡◌, ◌≤◌, ◌<◌, ℕ, List, length, IfOk};
ghost use Rattle.std.specs.Option.{option_map};
ghost use Rattle.cdf_area.specs.Calls.{Reads};
ghost use Rattle.cdf_format.specs.Index.{leaves_of};
ghost use Rattle.cdf_index.specs.Finding.{index_at, HasIndex};
ghost use Rattle.cdf_index.specs.Next.{least_first_past};
ghost use Rattle.cdf_index.specs.Order.{leaf_of};
ghost use Rattle.cdf_index.specs.Sight.{seen};
ghost use Rattle.cdf_model.specs.Limits.{image_limit};
ghost use Rattle.cdf_puts.specs.Searching.{IsSearch};
ghost use Rattle.cdf_puts.specs.Starts.{InTopChain};

use cdf_area::{Area, AreaError};
use cdf_index::{Leaf, find, next_first, start_of};
use cdf_records::Steps;
use std::marker::Brand;
use std::sync::ledger::{Blank, Ledger};

/// The search for a record in an index, at the node where it starts.
#[derive(Clone, Copy)]
pub struct Search {
    /// The link that leads to the index.
    pub head: u64,
    /// The number of the record.
    pub rec: u32,
    /// The node of the top chain where the search starts, 0 where the index has none.
    pub start: u64,
}

/// The leaf that has a record, as `find` counts it in steps.
fn find_counted<A: Area, L: Ledger>(
    area: &mut A,
    head: u64,
    rec: u32,
    blank: Blank,
) -> Result<Option<Leaf>, AreaError>
    requires name { blank.name ≡ L.name }
    requires parts { blank.parts ≡ L.parts }
    requires some { 0 < L.parts }
    requires index { HasIndex (A.image area.old) head }
    requires short { length (A.image area.old) ≤ image_limit }
    ensures value { IfOk result (λ found. option_map seen found ≡ leaf_of rec (leaves_of (index_at (A.image area.old) head))) }
    ensures area { Reads A.image A.frame A.faults A.edited area.old area.new result }
{
    let mut steps = Steps::<L>::new(blank);
    find(area, head, rec, &mut steps)
}

/// The least First past a record, as `next_first` counts it in steps.
fn next_counted<A: Area, L: Ledger>(
    area: &mut A,
    head: u64,
    rec: u32,
    blank: Blank,
) -> Result<Option<u32>, AreaError>
    requires name { blank.name ≡ L.name }
    requires parts { blank.parts ≡ L.parts }
    requires some { 0 < L.parts }
    requires index { HasIndex (A.image area.old) head }
    requires short { length (A.image area.old) ≤ image_limit }
    ensures value { IfOk result (λ next. next ≡ least_first_past rec (index_at (A.image area.old) head)) }
    ensures area { Reads A.image A.frame A.faults A.edited area.old area.new result }
{
    let mut steps = Steps::<L>::new(blank);
    next_first(area, head, rec, &mut steps)
}

impl Search {
    /// The search for a record in the index that a link leads to, of whose top chain a node may be known.
    #[tactic(auto, using(cdf_area::proofs::Calls::read_done, cdf_area::proofs::Calls::read_failed, cdf_area::proofs::Calls::read_more, cdf_area::proofs::Calls::read_once))]
    pub fn begin<A: Area>(
        area: &mut A,
        head: u64,
        known: Option<u64>,
        rec: u32,
    ) -> Result<Search, AreaError>
        requires index { HasIndex (A.image area.old) head }
        requires known { InTopChain (index_at (A.image area.old) head) known }
        requires short { length (A.image area.old) ≤ image_limit }
        ensures search { IfOk result (IsSearch (A.image area.old)) }
        ensures head { IfOk result (λ search. search.head ≡ head) }
        ensures rec { IfOk result (λ search. search.rec ≡ rec) }
        ensures area { Reads A.image A.frame A.faults A.edited area.old area.new result }
    {
        let start = start_of(area, head, known, rec)?;
        Ok(Search { head, rec, start })
    }

    /// The leaf that has the record.
    pub fn leaf<A: Area>(&self, area: &mut A) -> Result<Option<Leaf>, AreaError>
        requires search { IsSearch (A.image area.old) self.now }
        requires short { length (A.image area.old) ≤ image_limit }
        ensures value { IfOk result (λ found. option_map seen found ≡ leaf_of self.now.rec (leaves_of (index_at (A.image area.old) self.now.head))) }
        ensures area { Reads A.image A.frame A.faults A.edited area.old area.new result }
    {
        find_counted::<A, Brand>(area, self.start, self.rec, Blank::new(1))
    }

    /// The least First past the record.
    pub fn next_first<A: Area>(&self, area: &mut A) -> Result<Option<u32>, AreaError>
        requires search { IsSearch (A.image area.old) self.now }
        requires short { length (A.image area.old) ≤ image_limit }
        ensures value { IfOk result (λ next. next ≡ least_first_past self.now.rec (index_at (A.image area.old) self.now.head)) }
        ensures area { Reads A.image A.frame A.faults A.edited area.old area.new result }
    {
        next_counted::<A, Brand>(area, self.start, self.rec, Blank::new(1))
    }

    /// The node where the search starts, for the next one to go on from; none where the index has none.
    pub fn node(&self) -> Option<u64>
        ensures { (b : List ℕ) → IsSearch b self.now → InTopChain (index_at b self.now.head) result }
    {
        if self.start == 0 {
            None
        } else {
            Some(self.start)
        }
    }
}

/// The leaf that has a record, in the index that a link leads to, of whose top chain a node may be known.
#[tactic(auto, using(cdf_area::proofs::Calls::read_done, cdf_area::proofs::Calls::read_failed, cdf_area::proofs::Calls::read_more, cdf_area::proofs::Calls::read_once))]
pub fn find_leaf<A: Area>(
    area: &mut A,
    head: u64,
    known: Option<u64>,
    rec: u32,
) -> Result<Option<Leaf>, AreaError>
    requires index { HasIndex (A.image area.old) head }
    requires known { InTopChain (index_at (A.image area.old) head) known }
    requires short { length (A.image area.old) ≤ image_limit }
    ensures value { IfOk result (λ found. option_map seen found ≡ leaf_of rec (leaves_of (index_at (A.image area.old) head))) }
    ensures area { Reads A.image A.frame A.faults A.edited area.old area.new result }
{
    let search = Search::begin(area, head, known, rec)?;
    search.leaf(area)
}
