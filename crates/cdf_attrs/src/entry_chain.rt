//! The entries of one chain of an attribute, as far as commands ask for them.

ghost use Rattle.std.specs.Prelude.{◌≡◌, ◌==◌, ◌+◌, ◌≤◌, length, map, position, slice_get, slice_index, slice_set, ◌<◌, EachIndex, IfOk, IsTrue, None, ◌++◌, ◌∷◌, [], OnOk, All, false, max, pos};
ghost use Rattle.std.specs.Option.{option_and_then};
ghost use Rattle.cdf_area.specs.Calls.{Reads};
ghost use Rattle.cdf_attrs.specs.Finding.{IsOfAttribute};
ghost use Rattle.cdf_attrs.specs.Known.{KnownEntries, Knows, KnowsEntries, is_same_chain};
ghost use Rattle.cdf_format.specs.Fields.{number};
ghost use Rattle.cdf_format.specs.Records.{aedr_num, aedr_value};
ghost use Rattle.cdf_format.specs.WellFormed.{Good};
ghost use Rattle.cdf_model.specs.Limits.{signed_limit};
ghost use Rattle.std.specs.List.{fold};

use crate::attrs::Attrs;
use crate::greatest::{greatest, greatest_with};
use crate::kept_chains::take_chain;
use cdf_area::{Area, AreaError};
use cdf_format::fields::AEDR_NUM;
use cdf_records::read_unsigned4;
use cdf_space::{Chain, read_chain};
use std::alloc::{AllocError, Global};
use std::marker::Model;

/// The entries of a chain: their numbers, and where their descriptors stand, both in the order of the chain. An entry that is put behind
/// the others has a number that is greater than theirs, most often, so none of them is looked at for it.
#[derive(Drop)]
pub struct EntryChain {
    pub(crate) chain: Chain,
    pub(crate) numbers: Vec<u32>,
    pub(crate) places: Vec<u64>,
    /// No number is greater.
    pub(crate) bound: u32,
}

impl Model for EntryChain {
    ghost Value = { KnownEntries };

    ghost view = { λ entries. record { chain = entries.chain; numbers = entries.numbers.items; places = entries.places.items } };

    ghost invariant = { λ entries. All (λ n. n ≤ entries.bound) entries.numbers.items };
}

/// The greatest of some numbers, and 0 of none.
fn bound_of(numbers: &[u32]) -> u32
    ensures { All (λ n. n ≤ result) numbers.now }
{
    match greatest(numbers) {
        Some(most) => most,
        None => 0,
    }
}

/// The numbers of the entries whose descriptors stand at these places.
fn read_numbers<A: Area>(alloc: Global, area: &mut A, places: &[u64]) -> Result<Vec<u32>, AreaError>
    requires { EachIndex places.now (λ k. slice_index places.now k + (aedr_value 0).place ≤ length (A.image area.old)) }
    ensures numbers { IfOk result (λ numbers. numbers.items ≡ map (λ aedr. number (A.image area.old) aedr aedr_num) places.now) }
    ensures area { Reads A.image A.frame A.faults A.edited area.old area.new result }
{
    // An image has fewer than 2^64 bytes, so no place in it overflows.
    let _size = area.size();
    let mut numbers = Vec::new(alloc);
    for place in places {
        let number = read_unsigned4(area, *place + AEDR_NUM)?;
        numbers.push(number)?;
    }
    Ok(numbers)
}

/// Whether two chains are of the same entries. Of other records than entries none are.
pub(crate) fn are_same_entries(one: Chain, other: Chain) -> bool
    ensures { result ≡ is_same_chain one other }
{
    match one {
        Chain::GrEntries { adr } => match other {
            Chain::GrEntries { adr: with } => adr == with,
            _ => false,
        },
        Chain::ZEntries { adr } => match other {
            Chain::ZEntries { adr: with } => adr == with,
            _ => false,
        },
        _ => false,
    }
}

impl EntryChain {
    /// The entries of a chain of a good image.
    pub(crate) fn load<A: Area>(
        alloc: Global,
        area: &mut A,
        chain: Chain,
    ) -> Result<EntryChain, AreaError>
        requires good { Good (A.image area.old) }
        requires attribute { IsOfAttribute (A.image area.old) chain }
        ensures chain { IfOk result (λ entries. entries.chain ≡ chain) }
        ensures entries { IfOk result (KnowsEntries (A.image area.old)) }
        ensures area { Reads A.image A.frame A.faults A.edited area.old area.new result }
    {
        let places = read_chain(alloc, area, chain)?;
        let numbers = read_numbers(alloc, area, &places)?;
        let bound = bound_of(&numbers);
        Ok(EntryChain {
            chain,
            numbers,
            places,
            bound,
        })
    }

    /// Whether these are the entries of a chain.
    pub(crate) fn is_of(&self, chain: Chain) -> bool
        ensures { result ≡ is_same_chain self.now.chain chain }
    {
        are_same_entries(self.chain, chain)
    }

    /// How many entries stand before the one with a number.
    pub(crate) fn find(&self, num: u32) -> Option<usize>
        ensures { result ≡ position (λ n. n == num) self.now.numbers }
    {
        if num > self.bound {
            return None;
        }
        self.numbers.iter().position(|n| *n == num)
    }

    /// The greatest of the numbers of the entries and of one more.
    pub(crate) fn greatest_with(&self, num: u32) -> i32
        requires { fold max num self.now.numbers ≤ signed_limit }
        ensures { result ≡ pos (fold max num self.now.numbers) }
    {
        if num >= self.bound {
            return num as i32;
        }
        greatest_with(num, &self.numbers)
    }

    /// Adds a last entry.
    pub(crate) fn push(&mut self, num: u32, place: u64) -> Result<(), AllocError>
        ensures { OnOk result (self.new ≡ record { chain = self.old.chain; numbers = self.old.numbers ++ num ∷ []; places = self.old.places ++ place ∷ [] }) }
    {
        self.numbers.push(num)?;
        self.bound = self.bound.max(num);
        self.places.push(place)?;
        Ok(())
    }

    /// Says that the descriptor of the entry at an index stands elsewhere.
    pub(crate) fn set_place(&mut self, i: usize, place: u64)
        requires { i < length self.old.places }
        ensures { self.new ≡ record self.old { places = slice_set self.old.places i place } }
    {
        self.places[i] = place;
    }

    /// Where the descriptor of the entry with a number stands.
    pub(crate) fn place_of(&self, num: u32) -> Option<u64>
        ensures { result ≡ option_and_then (λ i. slice_get self.now.places i) (position (λ n. n == num) self.now.numbers) }
    {
        let i = self.find(num)?;
        self.places.get(i).copied()
    }
}

impl Attrs {
    /// The entries of a chain of an attribute: those that are kept, if there are such, else as they are read. They are given away, so
    /// that none of this chain are kept any more, and none in order.
    pub(crate) fn take_entries<A: Area>(
        &mut self,
        area: &mut A,
        chain: Chain,
    ) -> Result<EntryChain, AreaError>
        requires good { Good (A.image area.old) }
        requires known { Knows (A.image area.old) self.old }
        requires attribute { IsOfAttribute (A.image area.old) chain }
        ensures chain { IfOk result (λ entries. entries.chain ≡ chain) }
        ensures entries { IfOk result (KnowsEntries (A.image area.old)) }
        ensures given { self.new ≡ record self.old { entries = self.new.entries; order = None } }
        ensures others { All (λ entries. is_same_chain entries.chain chain ≡ false) self.new.entries }
        ensures known { Knows (A.image area.old) self.new }
        ensures area { Reads A.image A.frame A.faults A.edited area.old area.new result }
    {
        self.order = None;
        if let Some(kept) = take_chain(&mut self.entries, chain) {
            return Ok(kept);
        }
        EntryChain::load(self.alloc, area, chain)
    }
}
