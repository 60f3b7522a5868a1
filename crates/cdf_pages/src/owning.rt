//! Making pages changed ones before they are written.

ghost use Rattle.std.specs.Prelude.{◌≡◌, ◌+◌, ◌-◌, ◌*◌, ◌≤◌, ◌<◌, ◌^◌, ◌⊎◌, ℕ, List, Option, length, min, nat_eq, if◌then◌else◌, Some, None, IsSome, OnOk, IfOk};
ghost use Rattle.std.specs.Option.{is_some};
ghost use Rattle.std.specs.Map.{keys_of, lookup, remove_entry};
ghost use Rattle.std.specs.Ordering.{nat_cmp};
ghost use Rattle.std.specs.BTreeMap.{get};
ghost use Rattle.cdf_base.specs.Causes.{HasCauseOf};
ghost use Rattle.cdf_store.specs.Disk.{file_of};
ghost use Rattle.cdf_pages.specs.Grown.{Grown, Owned, RemovesSome, removed};
ghost use Rattle.cdf_pages.specs.Pages.{AllServe, Backed, Covers, Serves, Shows, TakesAtMost, is_in};
ghost use Rattle.cdf_pages.specs.Standing.{cost_of_writing};
ghost use Rattle.cdf_pages.specs.Table.{page_at};

use crate::cache::Cache;
use crate::page::{PAGE, Page};
use crate::reading::{live_bytes, load_page};
use crate::sheets::Sheets;
use cdf_area::AreaError;
use cdf_store::Store;
use std::alloc::Global;

/// A page that is no changed one, out of the cache or of the file.
fn take_page<S: Store>(
    alloc: Global,
    store: &mut S,
    clean: &mut Cache,
    size: u64,
    number: u64,
) -> Result<Page, AreaError>
    requires fits { number * 65536 < 2 ^ 64 }
    requires serves { (kept : Option (List ℕ)) → lookup (nat_eq number) clean.old.entries ≡ Some kept → Serves S.lends (file_of (S.disk store.old)) size number kept }
    requires backed { (j : ℕ) → j < 65536 → number * 65536 + j < size → number * 65536 + j < length (file_of (S.disk store.old)) }
    ensures page { IfOk result (λ page. Shows (file_of (S.disk store.old)) size number page) }
    ensures clean { clean.new.entries ≡ remove_entry (nat_eq number) clean.old.entries }
    ensures cap { clean.new.cap ≡ clean.old.cap }
    ensures disk { S.disk store.new ≡ S.disk store.old }
    ensures taken { TakesAtMost (S.taken store.old) (S.taken store.new) (if is_some (lookup (nat_eq number) clean.old.entries) then 0 else min 65536 (length (file_of (S.disk store.old)) - number * 65536)) }
    ensures cause { HasCauseOf AreaError.Fault (S.read_faults store.old) (S.read_faults store.new) result }
    ensures write { S.write_faults store.new ≡ S.write_faults store.old }
    ensures unstored { S.unstored store.new ≡ S.unstored store.old }
{
    if let Some(page) = clean.pop(&number).flatten() {
        return Ok(page);
    }
    let live = live_bytes(size, number);
    load_page(alloc, store, clean, number, live)
}

/// Makes a page a changed one with the same bytes. Where there is a mark, what stands in a part of it is kept.
fn own_page<S: Store>(
    alloc: Global,
    store: &mut S,
    sheets: &mut Sheets,
    clean: &mut Cache,
    number: u64,
    from: usize,
    upto: usize,
) -> Result<(), AreaError>
    requires room { upto ≤ 65536 }
    requires fits { number * 65536 < 2 ^ 64 }
    requires serves { (kept : Option (List ℕ)) → lookup (nat_eq number) clean.old.entries ≡ Some kept → (page_at sheets.old.changed number ≡ None) × Serves S.lends (file_of (S.disk store.old)) sheets.old.length number kept }
    requires backed { Backed (page_at sheets.old.changed) (length (file_of (S.disk store.old))) sheets.old.length }
    ensures grown { Grown (file_of (S.disk store.old)) sheets.old.length sheets.old.marked (page_at sheets.old.changed) (get nat_cmp sheets.old.kept) (page_at sheets.new.changed) (get nat_cmp sheets.new.kept) }
    ensures there { OnOk result (IsSome (page_at sheets.new.changed number)) }
    ensures ready { OnOk result (IsSome sheets.old.marked → Covers (get nat_cmp sheets.new.kept number) from upto) }
    ensures kept { (other : ℕ) → (other ≡ number → ⊥) → get nat_cmp sheets.new.kept other ≡ get nat_cmp sheets.old.kept other }
    ensures others { (other : ℕ) → (other ≡ number → ⊥) → page_at sheets.new.changed other ≡ page_at sheets.old.changed other }
    ensures clean { (clean.new.entries ≡ clean.old.entries) ⊎ (clean.new.entries ≡ remove_entry (nat_eq number) clean.old.entries) }
    ensures gone { OnOk result (clean.new.entries ≡ remove_entry (nat_eq number) clean.old.entries) }
    ensures out { OnOk result (lookup (nat_eq number) clean.new.entries ≡ None) }
    ensures fewer { (other : ℕ) → (kept : Option (List ℕ)) → lookup (nat_eq other) clean.new.entries ≡ Some kept → lookup (nat_eq other) clean.old.entries ≡ Some kept }
    ensures apart { (other : ℕ) → (kept : Option (List ℕ)) → lookup (nat_eq other) clean.new.entries ≡ Some kept → page_at sheets.new.changed other ≡ page_at sheets.old.changed other }
    ensures cap { clean.new.cap ≡ clean.old.cap }
    ensures length { sheets.new.length ≡ sheets.old.length }
    ensures marked { sheets.new.marked ≡ sheets.old.marked }
    ensures disk { S.disk store.new ≡ S.disk store.old }
    ensures taken { TakesAtMost (S.taken store.old) (S.taken store.new) (if is_some (page_at sheets.old.changed number) then 0 else (if is_some (lookup (nat_eq number) clean.old.entries) then 0 else min 65536 (length (file_of (S.disk store.old)) - number * 65536))) }
    ensures cause { HasCauseOf AreaError.Fault (S.read_faults store.old) (S.read_faults store.new) result }
    ensures write { S.write_faults store.new ≡ S.write_faults store.old }
    ensures unstored { S.unstored store.new ≡ S.unstored store.old }
{
    let _count = clean.len();
    sheets.keep_page(number, from, upto)?;
    if sheets.has(number) {
        return Ok(());
    }
    let page = take_page(alloc, store, clean, sheets.length, number)?;
    sheets.add(number, page)?;
    Ok(())
}

/// Makes the pages from one up to another changed ones with the same bytes. Where there is a mark, what stands in them from a
/// place to an end is kept.
pub fn own_pages<S: Store>(
    alloc: Global,
    store: &mut S,
    sheets: &mut Sheets,
    clean: &mut Cache,
    place: u64,
    end: u64,
    from: u64,
    upto: u64,
) -> Result<(), AreaError>
    requires fits { (number : ℕ) → number < upto → number * 65536 < 2 ^ 64 }
    requires serves { AllServe S.lends (page_at sheets.old.changed) (file_of (S.disk store.old)) sheets.old.length clean.old.entries }
    requires backed { Backed (page_at sheets.old.changed) (length (file_of (S.disk store.old))) sheets.old.length }
    ensures grown { Grown (file_of (S.disk store.old)) sheets.old.length sheets.old.marked (page_at sheets.old.changed) (get nat_cmp sheets.old.kept) (page_at sheets.new.changed) (get nat_cmp sheets.new.kept) }
    ensures owned { OnOk result (Owned sheets.new.marked (page_at sheets.new.changed) (get nat_cmp sheets.new.kept) place end from upto) }
    ensures others { (other : ℕ) → (other < from) ⊎ (upto ≤ other) → page_at sheets.new.changed other ≡ page_at sheets.old.changed other }
    ensures clean { RemovesSome from (upto - from) clean.old.entries clean.new.entries }
    ensures gone { OnOk result (clean.new.entries ≡ removed from (upto - from) clean.old.entries) }
    ensures out { OnOk result ((number : ℕ) → from ≤ number → number < upto → lookup (nat_eq number) clean.new.entries ≡ None) }
    ensures fewer { (other : ℕ) → (kept : Option (List ℕ)) → lookup (nat_eq other) clean.new.entries ≡ Some kept → lookup (nat_eq other) clean.old.entries ≡ Some kept }
    ensures apart { (other : ℕ) → (kept : Option (List ℕ)) → lookup (nat_eq other) clean.new.entries ≡ Some kept → page_at sheets.new.changed other ≡ page_at sheets.old.changed other }
    ensures cap { clean.new.cap ≡ clean.old.cap }
    ensures length { sheets.new.length ≡ sheets.old.length }
    ensures marked { sheets.new.marked ≡ sheets.old.marked }
    ensures disk { S.disk store.new ≡ S.disk store.old }
    ensures taken { TakesAtMost (S.taken store.old) (S.taken store.new) (cost_of_writing (is_in (page_at sheets.old.changed)) (keys_of clean.old.entries) (length (file_of (S.disk store.old))) from (upto - from)) }
    ensures cause { HasCauseOf AreaError.Fault (S.read_faults store.old) (S.read_faults store.new) result }
    ensures write { S.write_faults store.new ≡ S.write_faults store.old }
    ensures unstored { S.unstored store.new ≡ S.unstored store.old }
{
    let mut number = from;
    while number < upto {
        let start = number * PAGE;
        let within = place.saturating_sub(start) as usize;
        let behind = end.saturating_sub(start).min(PAGE) as usize;
        own_page(alloc, store, sheets, clean, number, within, behind)?;
        number += 1;
    }
    Ok(())
}
