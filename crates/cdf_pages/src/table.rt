//! The changed pages in places of their own, so that one is found by its number in one step.

ghost use Rattle.std.specs.Prelude.{◌≡◌, ◌+◌, ◌≤◌, ◌<◌, ◌^◌, ℕ, List, length, OnOk, OnErr, Some, None, IsSome, IfSome, IfNone, option_copied};
ghost use Rattle.std.specs.Option.{is_some};
ghost use Rattle.cdf_area.specs.OldBytes.{AllLieBelow, back};
ghost use Rattle.cdf_base.specs.Bytes.{put};
ghost use Rattle.cdf_pages.specs.Table.{page_at, pages_before, pages_held};

use crate::page::Page;
use cdf_area::UndoLog;
use std::alloc::{AllocError, Global};
use std::marker::Model;

/// The changed pages by their numbers. It has a place for each number up to the greatest one that was a changed page.
#[derive(Drop)]
pub struct Table {
    slots: Vec<Option<Page>>,
}

impl Model for Table {
    ghost use Rattle.std.specs.Prelude.{ℕ, List};
    ghost use Rattle.std.specs.declared.option.Option.{Option};

    ghost Value = { List (Option (List ℕ)) };

    ghost view = { λ table. table.slots.items };
}

impl Table {
    /// No page.
    #[tactic(auto, using(crate::proofs::Slots::no_pages))]
    pub fn new(alloc: Global) -> Table
        ensures { (number : ℕ) → page_at result number ≡ None }
    {
        Table {
            slots: Vec::new(alloc),
        }
    }

    /// Whether there is a page of a number.
    pub fn has(&self, number: u64) -> bool
        ensures { result ≡ is_some (page_at self.now number) }
    {
        self.page(number).is_some()
    }

    /// The page of a number.
    #[tactic(auto, using(crate::proofs::Slots::page_read, crate::proofs::Slots::page_past))]
    pub fn page(&self, number: u64) -> Option<&Page>
        ensures { option_copied result ≡ page_at self.now number }
    {
        let at = number as usize;
        if at < self.slots.len() {
            self.slots[at].as_ref()
        } else {
            None
        }
    }

    /// Puts a page in its place.
    #[tactic(auto, using(crate::proofs::Slots::page_set, crate::proofs::Slots::page_kept))]
    pub fn insert(&mut self, number: u64, page: Page) -> Result<(), AllocError>
        ensures added { OnOk result (page_at self.new number ≡ Some page) }
        ensures others { (other : ℕ) → (other ≡ number → ⊥) → page_at self.new other ≡ page_at self.old other }
        ensures stays { OnErr result ((other : ℕ) → page_at self.new other ≡ page_at self.old other) }
    {
        let at = number as usize;
        reach(&mut self.slots, at)?;
        self.slots[at] = Some(page);
        Ok(())
    }

    /// Puts a page in its place, which is there.
    #[tactic(auto, using(crate::proofs::Slots::page_set, crate::proofs::Slots::page_kept))]
    pub fn put(&mut self, number: u64, page: Page)
        requires { number < length self.old }
        ensures added { page_at self.new number ≡ Some page }
        ensures others { (other : ℕ) → (other ≡ number → ⊥) → page_at self.new other ≡ page_at self.old other }
    {
        self.slots[number as usize] = Some(page);
    }

    /// Takes a page away. Its place stays.
    #[tactic(auto, using(crate::proofs::Slots::page_set, crate::proofs::Slots::page_kept, crate::proofs::Slots::one_less, crate::proofs::Slots::less_before, crate::proofs::Slots::same_before, crate::proofs::Slots::page_past, crate::proofs::Slots::page_read))]
    pub fn take(&mut self, number: u64) -> Option<Page>
        ensures page { result ≡ page_at self.old number }
        ensures place { IfSome result (λ _. number < length self.new) }
        ensures fewer { IsSome (page_at self.old number) → pages_held self.new + 1 ≡ pages_held self.old }
        ensures before { IsSome (page_at self.old number) → (end : ℕ) → number < end → pages_before self.new end + 1 ≡ pages_before self.old end }
        ensures behind { (end : ℕ) → end ≤ number → pages_before self.new end ≡ pages_before self.old end }
        ensures gone { page_at self.new number ≡ None }
        ensures others { (other : ℕ) → (other ≡ number → ⊥) → page_at self.new other ≡ page_at self.old other }
    {
        let at = number as usize;
        if at < self.slots.len() {
            self.slots[at].take()
        } else {
            None
        }
    }

    /// Writes bytes within a page.
    #[tactic(auto, using(crate::proofs::Slots::page_set, crate::proofs::Slots::page_kept, crate::proofs::Slots::page_read, crate::proofs::Slots::page_past))]
    pub fn write(&mut self, number: u64, place: usize, bytes: &[u8])
        requires room { place + length bytes.now ≤ 65536 }
        ensures whole { (page : List ℕ) → page_at self.old number ≡ Some page → length page ≡ 65536 }
        ensures written { (page : List ℕ) → page_at self.old number ≡ Some page → page_at self.new number ≡ Some (put page place bytes.now) }
        ensures same { (other : ℕ) → is_some (page_at self.new other) ≡ is_some (page_at self.old other) }
        ensures others { (other : ℕ) → (other ≡ number → ⊥) → page_at self.new other ≡ page_at self.old other }
    {
        let at = number as usize;
        if at < self.slots.len() {
            if let Some(page) = &mut self.slots[at] {
                page.write(place, bytes);
            }
        }
    }

    /// Puts old bytes of a page back, the last first.
    #[tactic(auto, using(crate::proofs::Slots::page_set, crate::proofs::Slots::page_kept, crate::proofs::Slots::page_read, crate::proofs::Slots::page_past))]
    pub fn put_back(&mut self, number: u64, log: UndoLog)
        requires { AllLieBelow 65536 log }
        ensures back { (page : List ℕ) → page_at self.old number ≡ Some page → page_at self.new number ≡ Some (back log page) }
        ensures same { (other : ℕ) → is_some (page_at self.new other) ≡ is_some (page_at self.old other) }
        ensures others { (other : ℕ) → (other ≡ number → ⊥) → page_at self.new other ≡ page_at self.old other }
    {
        let at = number as usize;
        if at < self.slots.len() {
            if let Some(page) = &mut self.slots[at] {
                page.put_back(log);
            }
        }
    }

    /// The first page from a number on.
    #[tactic(auto, using(crate::proofs::Slots::page_read, crate::proofs::Slots::page_past))]
    pub fn first_from(&self, from: u64) -> Option<u64>
        ensures there { IfSome result (λ number. IsSome (page_at self.now number)) }
        ensures behind { IfSome result (λ number. from ≤ number) }
        ensures least { IfSome result (λ number. (other : ℕ) → from ≤ other → other < number → page_at self.now other ≡ None) }
        ensures none { IfNone result ((number : ℕ) → from ≤ number → page_at self.now number ≡ None) }
    {
        let mut at = from as usize;
        while at < self.slots.len() {
            if self.slots[at].is_some() {
                return Some(at as u64);
            }
            at += 1;
        }
        None
    }

    /// The first page behind a number.
    #[tactic(auto, using(crate::proofs::Slots::page_past))]
    pub fn next(&self, last: u64) -> Option<u64>
        ensures there { IfSome result (λ number. IsSome (page_at self.now number)) }
        ensures behind { IfSome result (λ number. last < number) }
        ensures least { IfSome result (λ number. (other : ℕ) → last < other → other < number → page_at self.now other ≡ None) }
        ensures none { IfNone result ((number : ℕ) → last < number → page_at self.now number ≡ None) }
    {
        if last >= self.slots.len() as u64 {
            return None;
        }
        self.first_from(last + 1)
    }

    /// How many pages come before a number.
    #[tactic(auto, using(crate::proofs::Slots::none_counted, crate::proofs::Slots::one_counted, crate::proofs::Slots::counted_short, crate::proofs::Slots::counted_upto))]
    pub fn count_before(&self, number: u64) -> u64
        ensures count { result ≡ pages_before self.now number }
        ensures small { result ≤ number }
    {
        let end = self.slots.len().min(number as usize);
        let mut count: u64 = 0;
        for at in 0..end {
            count += u64::from(self.slots[at].is_some());
        }
        count
    }
}

/// Makes places for all numbers up to one.
#[tactic(auto, using(crate::proofs::Slots::page_pushed))]
fn reach(slots: &mut Vec<Option<Page>>, at: usize) -> Result<(), AllocError>
    ensures reached { OnOk result (at < length slots.new.items) }
    ensures same { (number : ℕ) → page_at slots.new.items number ≡ page_at slots.old.items number }
{
    while slots.len() <= at {
        slots.push(None)?;
    }
    Ok(())
}
