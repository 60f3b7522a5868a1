//! The entries of one chain of an attribute in the order of their numbers, as they are shown.

ghost use Rattle.std.specs.Prelude.{◌≡◌, ◌<◌, IfOk, IfSome, IsSome, slice_get};
ghost use Rattle.std.specs.List.{zip};
ghost use Rattle.std.specs.List.Sorted.{IsNonDecreasingBy, IsPermutation};
ghost use Rattle.std.specs.Option.{option_map};
ghost use Rattle.cdf_area.specs.Calls.{Reads};
ghost use Rattle.cdf_attrs.specs.Finding.{IsOfAttribute};
ghost use Rattle.cdf_attrs.specs.Known.{KnownOrder, Knows, KnowsOrder};
ghost use Rattle.cdf_attrs.specs.Showing.{numbered_entry};
ghost use Rattle.cdf_edits.specs.Space.Chains.{members_of};
ghost use Rattle.cdf_format.specs.Content.{entries_of};
ghost use Rattle.cdf_format.specs.Tiles.{In};
ghost use Rattle.cdf_format.specs.WellFormed.{Good};

use crate::attrs::Attrs;
use crate::entry_chain::{EntryChain, are_same_entries};
use crate::kept_chains::keep_chain;
use cdf_area::{Area, AreaError};
use cdf_space::Chain;
use std::alloc::{AllocError, Global};
use std::marker::Model;

/// The entries of a chain in the order of their numbers: the number of each, and where its descriptor stands.
#[derive(Drop)]
pub struct EntryOrder {
    chain: Chain,
    entries: Vec<(u32, u64)>,
}

impl Model for EntryOrder {
    ghost Value = { KnownOrder };

    ghost view = { λ order. record { chain = order.chain; entries = order.entries.items } };
}

/// Each number with the place that has its index.
fn paired(alloc: Global, numbers: &[u32], places: &[u64]) -> Result<Vec<(u32, u64)>, AllocError>
    ensures { IfOk result (λ pairs. pairs.items ≡ zip numbers.now places.now) }
{
    let mut pairs = Vec::with_capacity(alloc, numbers.len())?;
    for (number, place) in numbers.iter().zip(places) {
        pairs.push((*number, *place))?;
    }
    Ok(pairs)
}

impl EntryOrder {
    /// Entries of a chain, put in the order of their numbers.
    fn of(alloc: Global, entries: &EntryChain) -> Result<EntryOrder, AllocError>
        ensures chain { IfOk result (λ order. order.chain ≡ entries.now.chain) }
        ensures all { IfOk result (λ order. IsPermutation (zip entries.now.numbers entries.now.places) order.entries) }
        ensures rise { IfOk result (λ order. IsNonDecreasingBy (λ entry. entry.0) order.entries) }
    {
        let mut pairs = paired(alloc, &entries.numbers, &entries.places)?;
        pairs.sort_unstable_by_key(|(number, _)| *number);
        Ok(EntryOrder {
            chain: entries.chain,
            entries: pairs,
        })
    }

    /// The number and the place of the entry before which so many stand.
    fn get(&self, i: u32) -> Option<(u32, u64)>
        ensures { result ≡ slice_get self.now.entries i }
    {
        self.entries.get(i as usize).copied()
    }
}

impl Attrs {
    /// The entries of a chain of an attribute in the order of their numbers: those that are kept, where they are of this chain, else
    /// the chain is put in order. They are given away, so that none are kept in order any more.
    fn take_order<A: Area>(&mut self, area: &mut A, chain: Chain) -> Result<EntryOrder, AreaError>
        requires good { Good (A.image area.old) }
        requires known { Knows (A.image area.old) self.old }
        requires attribute { IsOfAttribute (A.image area.old) chain }
        ensures chain { IfOk result (λ order. order.chain ≡ chain) }
        ensures order { IfOk result (KnowsOrder (A.image area.old)) }
        ensures known { Knows (A.image area.new) self.new }
        ensures area { Reads A.image A.frame A.faults A.edited area.old area.new result }
    {
        if let Some(kept) = self.order.take() {
            if are_same_entries(kept.chain, chain) {
                return Ok(kept);
            }
        }
        let entries = self.take_entries(area, chain)?;
        let order = EntryOrder::of(self.alloc, &entries)?;
        keep_chain(&mut self.entries, entries);
        Ok(order)
    }

    /// The number and the place of the entry of a chain of an attribute before which so many stand in the order of their numbers.
    pub(crate) fn find_in_order<A: Area>(
        &mut self,
        area: &mut A,
        chain: Chain,
        i: u32,
    ) -> Result<Option<(u32, u64)>, AreaError>
        requires good { Good (A.image area.old) }
        requires known { Knows (A.image area.old) self.old }
        requires attribute { IsOfAttribute (A.image area.old) chain }
        ensures entry { IfOk result (λ found. option_map (numbered_entry (A.image area.old)) found ≡ slice_get (entries_of (A.image area.old) (members_of (A.image area.old) chain)) i) }
        ensures few { IfOk result (λ found. IsSome found → i < 0xffffffff) }
        ensures member { IfOk result (λ found. IfSome found (λ entry. In entry.1 (members_of (A.image area.old) chain))) }
        ensures known { Knows (A.image area.new) self.new }
        ensures area { Reads A.image A.frame A.faults A.edited area.old area.new result }
    {
        let order = self.take_order(area, chain)?;
        let found = order.get(i);
        self.order = Some(order);
        Ok(found)
    }
}
