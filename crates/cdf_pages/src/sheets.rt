//! The changed pages of an image.

ghost use Rattle.std.specs.Prelude.{◌≡◌, ◌+◌, ◌≤◌, ◌<◌, ◌^◌, ℕ, List, [], if◌then◌else◌, length, OnOk, OnErr, Some, None, IsSome, IfSome, IfNone, option_copied};
ghost use Rattle.std.specs.Option.{is_some};
ghost use Rattle.std.specs.Ordering.{nat_cmp};
ghost use Rattle.std.specs.BTreeMap.{get};
ghost use Rattle.cdf_area.specs.OldBytes.{AllLieBelow, Old};
ghost use Rattle.cdf_base.specs.Bytes.{put};
ghost use Rattle.cdf_pages.specs.Pages.{Covers, was};
ghost use Rattle.cdf_pages.specs.Table.{page_at, pages_before, pages_held};

use crate::page::Page;
use crate::table::Table;
use cdf_area::UndoLog;
use std::alloc::{AllocError, Global};
use std::collections::BTreeMap;

/// The changed pages of an image by their numbers, and what they were at the mark.
///
/// While there is a mark, the old bytes of each write are kept before it. So going back takes no memory, and a mark costs in
/// proportion to what is written.
#[derive(Drop)]
pub struct Sheets {
    pub alloc: Global,
    /// How many bytes the image has.
    pub length: u64,
    pub changed: Table,
    /// How many bytes it had at the mark.
    pub marked: Option<u64>,
    /// What was written over in a page since the mark: `None` for one that was not a changed page.
    pub kept: BTreeMap<u64, Option<UndoLog>>,
    ghost unmarked: { marked ≡ None → (number : ℕ) → get nat_cmp kept number ≡ None },
    ghost stay: { (number : ℕ) → (olds : List Old) → get nat_cmp kept number ≡ Some (Some olds) → IsSome (page_at changed number) },
    ghost below: { (number : ℕ) → (olds : List Old) → get nat_cmp kept number ≡ Some (Some olds) → AllLieBelow 65536 olds },
}

impl Sheets {
    /// No changed page, of an image of so many bytes, without a mark.
    pub fn new(alloc: Global, length: u64) -> Sheets
        ensures none { (number : ℕ) → page_at result.changed number ≡ None }
        ensures length { result.length ≡ length }
        ensures marked { result.marked ≡ None }
    {
        Sheets {
            alloc,
            length,
            changed: Table::new(alloc),
            marked: None,
            kept: BTreeMap::new(alloc),
        }
    }

    /// Whether a page is a changed one.
    pub fn has(&self, number: u64) -> bool
        ensures { result ≡ is_some (page_at self.now.changed number) }
    {
        self.changed.has(number)
    }

    /// A changed page.
    pub fn page(&self, number: u64) -> Option<&Page>
        ensures { option_copied result ≡ page_at self.now.changed number }
    {
        self.changed.page(number)
    }

    /// Keeps whether a page is a changed one and what stands in a part of it, where there is a mark.
    pub fn keep_page(&mut self, number: u64, from: usize, upto: usize) -> Result<(), AllocError>
        requires room { upto ≤ 65536 }
        ensures changed { self.new.changed ≡ self.old.changed }
        ensures length { self.new.length ≡ self.old.length }
        ensures marked { self.new.marked ≡ self.old.marked }
        ensures kept { OnOk result (IsSome self.old.marked → IsSome (get nat_cmp self.new.kept number)) }
        ensures covers { OnOk result (IsSome self.old.marked → Covers (get nat_cmp self.new.kept number) from upto) }
        ensures others { (other : ℕ) → (other ≡ number → ⊥) → get nat_cmp self.new.kept other ≡ get nat_cmp self.old.kept other }
        ensures was { (other : ℕ) → was (get nat_cmp self.new.kept other) (page_at self.old.changed other) ≡ was (get nat_cmp self.old.kept other) (page_at self.old.changed other) }
    {
        self.begin_page(number)?;
        self.keep_part(number, from, upto)
    }

    /// Keeps whether a page is a changed one, where there is a mark and it is not kept yet.
    fn begin_page(&mut self, number: u64) -> Result<(), AllocError>
        ensures changed { self.new.changed ≡ self.old.changed }
        ensures length { self.new.length ≡ self.old.length }
        ensures marked { self.new.marked ≡ self.old.marked }
        ensures kept { OnOk result (IsSome self.old.marked → IsSome (get nat_cmp self.new.kept number)) }
        ensures others { (other : ℕ) → (other ≡ number → ⊥) → get nat_cmp self.new.kept other ≡ get nat_cmp self.old.kept other }
        ensures was { (other : ℕ) → was (get nat_cmp self.new.kept other) (page_at self.old.changed other) ≡ was (get nat_cmp self.old.kept other) (page_at self.old.changed other) }
    {
        if self.marked.is_none() || self.kept.contains_key(&number) {
            return Ok(());
        }
        let old = log_of(self.alloc, self.changed.has(number));
        self.kept.insert(number, old)?;
        Ok(())
    }

    /// Keeps what stands in a part of a page that is kept, where it was a changed one.
    fn keep_part(&mut self, number: u64, from: usize, upto: usize) -> Result<(), AllocError>
        requires room { upto ≤ 65536 }
        ensures changed { self.new.changed ≡ self.old.changed }
        ensures length { self.new.length ≡ self.old.length }
        ensures marked { self.new.marked ≡ self.old.marked }
        ensures covers { OnOk result (IsSome (get nat_cmp self.old.kept number) → Covers (get nat_cmp self.new.kept number) from upto) }
        ensures kept { IsSome (get nat_cmp self.old.kept number) → IsSome (get nat_cmp self.new.kept number) }
        ensures others { (other : ℕ) → (other ≡ number → ⊥) → get nat_cmp self.new.kept other ≡ get nat_cmp self.old.kept other }
        ensures was { (other : ℕ) → was (get nat_cmp self.new.kept other) (page_at self.old.changed other) ≡ was (get nat_cmp self.old.kept other) (page_at self.old.changed other) }
    {
        if from >= upto {
            return Ok(());
        }
        let Some(page) = self.changed.page(number) else {
            return Ok(());
        };
        match self.kept.get_mut(&number) {
            Some(kept) => push_part(kept, page, from, upto),
            None => Ok(()),
        }
    }

    /// Adds a page that was not a changed one, once it is kept.
    pub fn add(&mut self, number: u64, page: Page) -> Result<(), AllocError>
        requires absent { page_at self.old.changed number ≡ None }
        requires kept { IsSome self.old.marked → IsSome (get nat_cmp self.old.kept number) }
        ensures added { OnOk result (page_at self.new.changed number ≡ Some page) }
        ensures others { OnOk result ((other : ℕ) → (other ≡ number → ⊥) → page_at self.new.changed other ≡ page_at self.old.changed other) }
        ensures stays { OnErr result ((other : ℕ) → page_at self.new.changed other ≡ page_at self.old.changed other) }
        ensures kept { self.new.kept ≡ self.old.kept }
        ensures length { self.new.length ≡ self.old.length }
        ensures marked { self.new.marked ≡ self.old.marked }
    {
        self.changed.insert(number, page)
    }

    /// Writes bytes within a changed page, once it is kept.
    pub fn write(&mut self, number: u64, place: usize, bytes: &[u8])
        requires there { IsSome (page_at self.old.changed number) }
        requires room { place + length bytes.now ≤ 65536 }
        ensures whole { (page : List ℕ) → page_at self.old.changed number ≡ Some page → length page ≡ 65536 }
        ensures written { (page : List ℕ) → page_at self.old.changed number ≡ Some page → page_at self.new.changed number ≡ Some (put page place bytes.now) }
        ensures others { (other : ℕ) → (other ≡ number → ⊥) → page_at self.new.changed other ≡ page_at self.old.changed other }
        ensures kept { self.new.kept ≡ self.old.kept }
        ensures length { self.new.length ≡ self.old.length }
        ensures marked { self.new.marked ≡ self.old.marked }
    {
        self.changed.write(number, place, bytes);
    }

    /// The first changed page.
    pub fn first(&self) -> Option<u64>
        ensures there { IfSome result (λ number. IsSome (page_at self.now.changed number)) }
        ensures least { IfSome result (λ number. (other : ℕ) → other < number → page_at self.now.changed other ≡ None) }
        ensures none { IfNone result ((number : ℕ) → page_at self.now.changed number ≡ None) }
    {
        self.changed.first_from(0)
    }

    /// The next changed page behind a number.
    pub fn next(&self, last: u64) -> Option<u64>
        ensures there { IfSome result (λ number. IsSome (page_at self.now.changed number)) }
        ensures behind { IfSome result (λ number. last < number) }
        ensures least { IfSome result (λ number. (other : ℕ) → last < other → other < number → page_at self.now.changed other ≡ None) }
        ensures none { IfNone result ((number : ℕ) → last < number → page_at self.now.changed number ≡ None) }
    {
        self.changed.next(last)
    }

    /// How many changed pages come before a number.
    pub fn count_before(&self, number: u64) -> u64
        ensures count { result ≡ pages_before self.now.changed number }
        ensures small { result ≤ number }
    {
        self.changed.count_before(number)
    }

    /// Puts a page in its place, which is there, while there is no mark.
    pub fn put(&mut self, number: u64, page: Page)
        requires unmarked { self.old.marked ≡ None }
        requires place { number < length self.old.changed }
        ensures added { page_at self.new.changed number ≡ Some page }
        ensures others { (other : ℕ) → (other ≡ number → ⊥) → page_at self.new.changed other ≡ page_at self.old.changed other }
        ensures kept { self.new.kept ≡ self.old.kept }
        ensures length { self.new.length ≡ self.old.length }
        ensures marked { self.new.marked ≡ self.old.marked }
    {
        self.changed.put(number, page);
    }

    /// Takes a page away, which is a changed one no more, while there is no mark. Its place stays.
    pub fn take(&mut self, number: u64) -> Option<Page>
        requires { self.old.marked ≡ None }
        ensures page { result ≡ page_at self.old.changed number }
        ensures place { IfSome result (λ _. number < length self.new.changed) }
        ensures fewer { IsSome (page_at self.old.changed number) → pages_held self.new.changed + 1 ≡ pages_held self.old.changed }
        ensures before { IsSome (page_at self.old.changed number) → (end : ℕ) → number < end → pages_before self.new.changed end + 1 ≡ pages_before self.old.changed end }
        ensures behind { (end : ℕ) → end ≤ number → pages_before self.new.changed end ≡ pages_before self.old.changed end }
        ensures gone { page_at self.new.changed number ≡ None }
        ensures others { (other : ℕ) → (other ≡ number → ⊥) → page_at self.new.changed other ≡ page_at self.old.changed other }
        ensures kept { self.new.kept ≡ self.old.kept }
        ensures length { self.new.length ≡ self.old.length }
        ensures marked { self.new.marked ≡ self.old.marked }
    {
        self.changed.take(number)
    }

    /// Marks the pages as they are.
    pub fn mark(&mut self)
        ensures changed { self.new.changed ≡ self.old.changed }
        ensures none { (number : ℕ) → get nat_cmp self.new.kept number ≡ None }
        ensures length { self.new.length ≡ self.old.length }
        ensures marked { self.new.marked ≡ Some self.old.length }
    {
        self.kept = BTreeMap::new(self.alloc);
        self.marked = Some(self.length);
    }

    /// Forgets the mark.
    pub fn keep(&mut self)
        ensures changed { self.new.changed ≡ self.old.changed }
        ensures none { (number : ℕ) → get nat_cmp self.new.kept number ≡ None }
        ensures length { self.new.length ≡ self.old.length }
        ensures marked { self.new.marked ≡ None }
    {
        self.kept = BTreeMap::new(self.alloc);
        self.marked = None;
    }

    /// Makes each page what it was at the mark, and forgets the mark. It takes no memory.
    pub fn undo(&mut self)
        requires { IsSome self.old.marked }
        ensures was { (number : ℕ) → page_at self.new.changed number ≡ was (get nat_cmp self.old.kept number) (page_at self.old.changed number) }
        ensures none { (number : ℕ) → get nat_cmp self.new.kept number ≡ None }
        ensures length { Some self.new.length ≡ self.old.marked }
        ensures marked { self.new.marked ≡ None }
    {
        if let Some(length) = self.marked {
            self.length = length;
        }
        self.marked = None;
        restore_all(&mut self.changed, &mut self.kept);
    }
}

/// Nothing that was written over as yet, of a page that is a changed one.
fn log_of(alloc: Global, is_changed: bool) -> Option<UndoLog>
    ensures { result ≡ (if is_changed then Some [] else None) }
{
    if is_changed {
        Some(UndoLog::new(alloc))
    } else {
        None
    }
}

/// Keeps what stands in a part of a page, if it was a changed one.
fn push_part(
    kept: &mut Option<UndoLog>,
    page: &Page,
    from: usize,
    upto: usize,
) -> Result<(), AllocError>
    requires order { from ≤ upto }
    requires room { upto ≤ 65536 }
    ensures covers { OnOk result (Covers (Some kept.new) from upto) }
    ensures was { was (Some kept.new) (Some page.now) ≡ was (Some kept.old) (Some page.now) }
    ensures below { ((olds : List Old) → kept.old ≡ Some olds → AllLieBelow 65536 olds) → (olds : List Old) → kept.new ≡ Some olds → AllLieBelow 65536 olds }
{
    match kept {
        Some(log) => log.push(from, page.piece(from, upto)),
        None => Ok(()),
    }
}

/// Makes a page what it was.
fn restore(changed: &mut Table, number: u64, old: Option<UndoLog>)
    requires { (olds : List Old) → old ≡ Some olds → AllLieBelow 65536 olds }
    ensures was { page_at changed.new number ≡ was (Some old) (page_at changed.old number) }
    ensures others { (other : ℕ) → (other ≡ number → ⊥) → page_at changed.new other ≡ page_at changed.old other }
{
    match old {
        Some(log) => changed.put_back(number, log),
        None => {
            changed.take(number);
        }
    }
}

/// Makes each page what it was.
fn restore_all(changed: &mut Table, kept: &mut BTreeMap<u64, Option<UndoLog>>)
    requires { (number : ℕ) → (olds : List Old) → get nat_cmp kept.old number ≡ Some (Some olds) → AllLieBelow 65536 olds }
    ensures was { (number : ℕ) → page_at changed.new number ≡ was (get nat_cmp kept.old number) (page_at changed.old number) }
    ensures none { (number : ℕ) → get nat_cmp kept.new number ≡ None }
{
    while let Some((number, old)) = kept.pop_first() {
        restore(changed, number, old);
    }
}
