//! Reading bytes of an image, out of changed pages, of the cache and of the file.

ghost use Rattle.std.specs.Prelude.{◌≡◌, ◌+◌, ◌-◌, ◌*◌, ◌/◌, ◌%◌, ◌≤◌, ◌<◌, ◌^◌, ◌⊎◌, ℕ, List, Option, length, min, take, drop, nat_eq, Some, OnOk, OnErr, IfOk, IsTrue, IsFalse, slice_get};
ghost use Rattle.lru.specs.LruCache.{IsValid, lru_cache, promoted};
ghost use Rattle.std.specs.Option.{is_some};
ghost use Rattle.std.specs.Map.{keys_of, lookup};
ghost use Rattle.cdf_base.specs.Causes.{HasCause, HasCauseOf};
ghost use Rattle.cdf_store.specs.Disk.{file_of};
ghost use Rattle.cdf_pages.specs.Pages.{AllServe, Backed, Serves, TakesAtMost, image_of, is_in};
ghost use Rattle.cdf_pages.specs.Standing.{ReadsSome, clean_cost, cost_of_reading, page_cost, pages_in, to_front, used, used_from};
ghost use Rattle.cdf_pages.specs.Table.{page_at};

use crate::cache::Cache;
use crate::page::{PAGE, Page};
use crate::sheets::Sheets;
use cdf_area::AreaError;
use cdf_store::{Failed, Store};
use std::alloc::Global;

/// Fills the front of `out`, so many bytes, with those of the file from a place on.
fn fill<S: Store>(store: &mut S, place: u64, out: &mut [u8], live: usize) -> Result<(), Failed>
    requires live { live ≤ length out.old }
    requires there { 0 < live → place + live ≤ length (file_of (S.disk store.old)) }
    requires fits { place + live < 2 ^ 64 }
    ensures bytes { OnOk result (take live out.new ≡ take live (drop place (file_of (S.disk store.old)))) }
    ensures size { length out.new ≡ length out.old }
    ensures disk { S.disk store.new ≡ S.disk store.old }
    ensures taken { TakesAtMost (S.taken store.old) (S.taken store.new) live }
    ensures cause { HasCause (S.read_faults store.old) (S.read_faults store.new) result }
    ensures write { S.write_faults store.new ≡ S.write_faults store.old }
    ensures unstored { S.unstored store.new ≡ S.unstored store.old }
{
    let mut done = 0;
    while done < live {
        let count = store.read_at(place + done as u64, &mut out[done..live])?;
        done += count;
    }
    Ok(())
}

/// Copies bytes of the file, which lie in one page, from where the device lends them. Says whether it does.
fn read_lent<S: Store>(store: &S, place: u64, out: &mut [u8]) -> bool
    requires inside { place + length out.old ≤ length (file_of (S.disk store.now)) }
    requires page { place % 65536 + length out.old ≤ 65536 }
    ensures lent { result ≡ S.lends }
    ensures bytes { IsTrue result → out.new ≡ take (length out.old) (drop place (file_of (S.disk store.now))) }
    ensures size { length out.new ≡ length out.old }
{
    match store.lend(place, out.len()) {
        Some(bytes) => {
            out.copy_from_slice(bytes);
            true
        }
        None => false,
    }
}

/// The same of a part of one page, without a read where the device lends it.
fn fill_part<S: Store>(store: &mut S, place: u64, out: &mut [u8], live: usize) -> Result<(), Failed>
    requires live { live ≤ length out.old }
    requires there { 0 < live → place + live ≤ length (file_of (S.disk store.old)) }
    requires fits { place + live < 2 ^ 64 }
    requires page { place % 65536 + live ≤ 65536 }
    ensures bytes { OnOk result (take live out.new ≡ take live (drop place (file_of (S.disk store.old)))) }
    ensures size { length out.new ≡ length out.old }
    ensures disk { S.disk store.new ≡ S.disk store.old }
    ensures taken { TakesAtMost (S.taken store.old) (S.taken store.new) live }
    ensures cause { HasCause (S.read_faults store.old) (S.read_faults store.new) result }
    ensures write { S.write_faults store.new ≡ S.write_faults store.old }
    ensures unstored { S.unstored store.new ≡ S.unstored store.old }
{
    if live == 0 || read_lent(store, place, &mut out[..live]) {
        return Ok(());
    }
    fill(store, place, out, live)
}

/// How many bytes of a page lie in an image of so many bytes.
pub fn live_bytes(size: u64, number: u64) -> usize
    requires { number * 65536 < 2 ^ 64 }
    ensures { result ≡ min 65536 (size - number * 65536) }
{
    let start = number * PAGE;
    if size <= start {
        return 0;
    }
    (size - start).min(PAGE) as usize
}

/// A page of the file, with its first bytes alone.
pub fn load_page<S: Store>(
    alloc: Global,
    store: &mut S,
    clean: &mut Cache,
    number: u64,
    live: usize,
) -> Result<Page, AreaError>
    requires live { live ≤ 65536 }
    requires fits { number * 65536 + live < 2 ^ 64 }
    requires there { 0 < live → number * 65536 + live ≤ length (file_of (S.disk store.old)) }
    ensures clean { clean.new ≡ clean.old }
    ensures bytes { IfOk result (λ page. take live page ≡ take live (drop (number * 65536) (file_of (S.disk store.old)))) }
    ensures disk { S.disk store.new ≡ S.disk store.old }
    ensures taken { TakesAtMost (S.taken store.old) (S.taken store.new) live }
    ensures cause { HasCauseOf AreaError.Fault (S.read_faults store.old) (S.read_faults store.new) result }
    ensures write { S.write_faults store.new ≡ S.write_faults store.old }
    ensures unstored { S.unstored store.new ≡ S.unstored store.old }
{
    let mut bytes = clean.room(alloc)?;
    match fill_part(store, number * PAGE, &mut bytes, live) {
        Ok(()) => Ok(Page::new(bytes)),
        Err(Failed) => Err(AreaError::Fault),
    }
}

/// Reads within one page of the file, of which this is kept.
fn read_kept<S: Store>(store: &S, kept: &Option<Page>, number: u64, place: usize, out: &mut [u8])
    requires room { place + length out.old ≤ 65536 }
    requires inside { number * 65536 + place + length out.old ≤ length (file_of (S.disk store.now)) }
    requires fits { number * 65536 + place + length out.old < 2 ^ 64 }
    requires serves { Serves S.lends (file_of (S.disk store.now)) (number * 65536 + place + length out.old) number kept.now }
    ensures bytes { out.new ≡ take (length out.old) (drop (number * 65536 + place) (file_of (S.disk store.now))) }
    ensures size { length out.new ≡ length out.old }
{
    match kept {
        Some(page) => page.read(place, out),
        None => {
            read_lent(store, number * PAGE + place as u64, out);
        }
    }
}

/// Reads within the page that was used last, where it has this number. It is found without a look-up.
fn read_first<S: Store>(store: &S, clean: &Cache, number: u64, place: usize, out: &mut [u8]) -> bool
    requires room { place + length out.old ≤ 65536 }
    requires inside { number * 65536 + place + length out.old ≤ length (file_of (S.disk store.now)) }
    requires fits { number * 65536 + place + length out.old < 2 ^ 64 }
    requires serves { (kept : Option (List ℕ)) → lookup (nat_eq number) clean.now.entries ≡ Some kept → Serves S.lends (file_of (S.disk store.now)) (number * 65536 + place + length out.old) number kept }
    ensures first { IsTrue result → (kept : Option (List ℕ)) × (slice_get clean.now.entries 0 ≡ Some (number, kept)) }
    ensures bytes { IsTrue result → out.new ≡ take (length out.old) (drop (number * 65536 + place) (file_of (S.disk store.now))) }
    ensures size { length out.new ≡ length out.old }
{
    let Some((last, kept)) = clean.first() else {
        return false;
    };
    if *last != number {
        return false;
    }
    read_kept(store, kept, number, place, out);
    true
}

/// Reads within one page of the cache, which comes to its front. Says whether it was there.
fn read_cached<S: Store>(
    store: &S,
    clean: &mut Cache,
    number: u64,
    place: usize,
    out: &mut [u8],
) -> bool
    requires room { place + length out.old ≤ 65536 }
    requires inside { number * 65536 + place + length out.old ≤ length (file_of (S.disk store.now)) }
    requires fits { number * 65536 + place + length out.old < 2 ^ 64 }
    requires serves { (kept : Option (List ℕ)) → lookup (nat_eq number) clean.old.entries ≡ Some kept → Serves S.lends (file_of (S.disk store.now)) (number * 65536 + place + length out.old) number kept }
    ensures there { result ≡ is_some (lookup (nat_eq number) clean.old.entries) }
    ensures absent { IsFalse result → clean.new ≡ clean.old }
    ensures promoted { clean.new ≡ lru_cache (promoted (nat_eq number) clean.old.entries) clean.old.cap }
    ensures bytes { IsTrue result → out.new ≡ take (length out.old) (drop (number * 65536 + place) (file_of (S.disk store.now))) }
    ensures size { length out.new ≡ length out.old }
{
    if !clean.promote(&number) {
        return false;
    }
    if let Some((_, kept)) = clean.first() {
        read_kept(store, kept, number, place, out);
    }
    true
}

/// Reads within one page that is no changed one and not in the cache, which comes to its front.
fn read_missing<S: Store>(
    alloc: Global,
    store: &mut S,
    clean: &mut Cache,
    size: u64,
    number: u64,
    place: usize,
    out: &mut [u8],
) -> Result<(), AreaError>
    requires some { 0 < length out.old }
    requires room { place + length out.old ≤ 65536 }
    requires inside { number * 65536 + place + length out.old ≤ size }
    requires fits { number * 65536 < 2 ^ 64 }
    requires backed { (j : ℕ) → j < 65536 → number * 65536 + j < size → number * 65536 + j < length (file_of (S.disk store.old)) }
    requires serves { (other : ℕ) → (kept : Option (List ℕ)) → lookup (nat_eq other) clean.old.entries ≡ Some kept → Serves S.lends (file_of (S.disk store.old)) size other kept }
    requires missing { lookup (nat_eq number) clean.old.entries ≡ None }
    requires cap { clean.old.cap ≡ 256 }
    ensures size { length out.new ≡ length out.old }
    ensures bytes { OnOk result (out.new ≡ take (length out.old) (drop (number * 65536 + place) (file_of (S.disk store.old)))) }
    ensures fewer { (other : ℕ) → (kept : Option (List ℕ)) → lookup (nat_eq other) clean.new.entries ≡ Some kept → (lookup (nat_eq other) clean.old.entries ≡ Some kept) ⊎ ((other ≡ number) × Serves S.lends (file_of (S.disk store.old)) size number kept) }
    ensures used { OnOk result (keys_of clean.new.entries ≡ to_front number (keys_of clean.old.entries)) }
    ensures stays { OnErr result (clean.new ≡ clean.old) }
    ensures cap { clean.new.cap ≡ clean.old.cap }
    ensures disk { S.disk store.new ≡ S.disk store.old }
    ensures taken { TakesAtMost (S.taken store.old) (S.taken store.new) (clean_cost (keys_of clean.old.entries) (length (file_of (S.disk store.old))) number) }
    ensures cause { HasCauseOf AreaError.Fault (S.read_faults store.old) (S.read_faults store.new) result }
    ensures write { S.write_faults store.new ≡ S.write_faults store.old }
    ensures unstored { S.unstored store.new ≡ S.unstored store.old }
{
    let _count = clean.len();
    if read_lent(store, number * PAGE + place as u64, out) {
        clean.put(number, None)?;
        return Ok(());
    }
    let live = live_bytes(size, number);
    let page = load_page(alloc, store, clean, number, live)?;
    page.read(place, out);
    clean.put(number, Some(page))?;
    Ok(())
}

/// Reads within one page that is no changed one, which comes to the front of the cache.
fn read_clean<S: Store>(
    alloc: Global,
    store: &mut S,
    clean: &mut Cache,
    size: u64,
    number: u64,
    place: usize,
    out: &mut [u8],
) -> Result<(), AreaError>
    requires some { 0 < length out.old }
    requires room { place + length out.old ≤ 65536 }
    requires inside { number * 65536 + place + length out.old ≤ size }
    requires fits { number * 65536 < 2 ^ 64 }
    requires backed { (j : ℕ) → j < 65536 → number * 65536 + j < size → number * 65536 + j < length (file_of (S.disk store.old)) }
    requires serves { (other : ℕ) → (kept : Option (List ℕ)) → lookup (nat_eq other) clean.old.entries ≡ Some kept → Serves S.lends (file_of (S.disk store.old)) size other kept }
    requires cap { clean.old.cap ≡ 256 }
    ensures size { length out.new ≡ length out.old }
    ensures bytes { OnOk result (out.new ≡ take (length out.old) (drop (number * 65536 + place) (file_of (S.disk store.old)))) }
    ensures fewer { (other : ℕ) → (kept : Option (List ℕ)) → lookup (nat_eq other) clean.new.entries ≡ Some kept → (lookup (nat_eq other) clean.old.entries ≡ Some kept) ⊎ ((other ≡ number) × Serves S.lends (file_of (S.disk store.old)) size number kept) }
    ensures used { OnOk result (keys_of clean.new.entries ≡ to_front number (keys_of clean.old.entries)) }
    ensures stays { OnErr result (clean.new ≡ clean.old) }
    ensures cap { clean.new.cap ≡ clean.old.cap }
    ensures disk { S.disk store.new ≡ S.disk store.old }
    ensures taken { TakesAtMost (S.taken store.old) (S.taken store.new) (clean_cost (keys_of clean.old.entries) (length (file_of (S.disk store.old))) number) }
    ensures cause { HasCauseOf AreaError.Fault (S.read_faults store.old) (S.read_faults store.new) result }
    ensures write { S.write_faults store.new ≡ S.write_faults store.old }
    ensures unstored { S.unstored store.new ≡ S.unstored store.old }
{
    let _count = clean.len();
    if read_first(store, clean, number, place, out) {
        return Ok(());
    }
    if read_cached(store, clean, number, place, out) {
        return Ok(());
    }
    read_missing(alloc, store, clean, size, number, place, out)
}

/// Reads within one page, which is looked for among the changed ones first.
fn read_within<S: Store>(
    alloc: Global,
    store: &mut S,
    sheets: &Sheets,
    clean: &mut Cache,
    number: u64,
    place: usize,
    out: &mut [u8],
) -> Result<(), AreaError>
    requires some { 0 < length out.old }
    requires room { place + length out.old ≤ 65536 }
    requires inside { number * 65536 + place + length out.old ≤ sheets.now.length }
    requires fits { number * 65536 < 2 ^ 64 }
    requires backed { Backed (page_at sheets.now.changed) (length (file_of (S.disk store.old))) sheets.now.length }
    requires serves { AllServe S.lends (page_at sheets.now.changed) (file_of (S.disk store.old)) sheets.now.length clean.old.entries }
    requires cap { clean.old.cap ≡ 256 }
    ensures size { length out.new ≡ length out.old }
    ensures bytes { OnOk result (out.new ≡ take (length out.old) (drop (number * 65536 + place) (image_of (page_at sheets.now.changed) (file_of (S.disk store.old)) sheets.now.length))) }
    ensures serves { AllServe S.lends (page_at sheets.now.changed) (file_of (S.disk store.old)) sheets.now.length clean.new.entries }
    ensures used { OnOk result (keys_of clean.new.entries ≡ used (is_in (page_at sheets.now.changed)) number (keys_of clean.old.entries)) }
    ensures stays { OnErr result (clean.new ≡ clean.old) }
    ensures cap { clean.new.cap ≡ clean.old.cap }
    ensures disk { S.disk store.new ≡ S.disk store.old }
    ensures taken { TakesAtMost (S.taken store.old) (S.taken store.new) (page_cost (is_in (page_at sheets.now.changed)) (keys_of clean.old.entries) (length (file_of (S.disk store.old))) number) }
    ensures cause { HasCauseOf AreaError.Fault (S.read_faults store.old) (S.read_faults store.new) result }
    ensures write { S.write_faults store.new ≡ S.write_faults store.old }
    ensures unstored { S.unstored store.new ≡ S.unstored store.old }
{
    if let Some(page) = sheets.page(number) {
        page.read(place, out);
        return Ok(());
    }
    read_clean(alloc, store, clean, sheets.length, number, place, out)
}

/// Reads bytes from a place on, page by page.
pub fn read_range<S: Store>(
    alloc: Global,
    store: &mut S,
    sheets: &Sheets,
    clean: &mut Cache,
    place: u64,
    out: &mut [u8],
) -> Result<(), AreaError>
    requires inside { place + length out.old ≤ sheets.now.length }
    requires backed { Backed (page_at sheets.now.changed) (length (file_of (S.disk store.old))) sheets.now.length }
    requires serves { AllServe S.lends (page_at sheets.now.changed) (file_of (S.disk store.old)) sheets.now.length clean.old.entries }
    requires cap { clean.old.cap ≡ 256 }
    requires valid { IsValid nat_eq clean.old }
    ensures bytes { OnOk result (out.new ≡ take (length out.new) (drop place (image_of (page_at sheets.now.changed) (file_of (S.disk store.old)) sheets.now.length))) }
    ensures serves { AllServe S.lends (page_at sheets.now.changed) (file_of (S.disk store.old)) sheets.now.length clean.new.entries }
    ensures used { OnOk result (keys_of clean.new.entries ≡ used_from (is_in (page_at sheets.now.changed)) (place / 65536) (pages_in place (length out.old)) (keys_of clean.old.entries)) }
    ensures some { OnErr result (ReadsSome (is_in (page_at sheets.now.changed)) (keys_of clean.old.entries) (keys_of clean.new.entries) place (length out.old)) }
    ensures cap { clean.new.cap ≡ clean.old.cap }
    ensures valid { IsValid nat_eq clean.new }
    ensures disk { S.disk store.new ≡ S.disk store.old }
    ensures taken { TakesAtMost (S.taken store.old) (S.taken store.new) (cost_of_reading (is_in (page_at sheets.now.changed)) (keys_of clean.old.entries) (length (file_of (S.disk store.old))) (place / 65536) (pages_in place (length out.old))) }
    ensures cause { HasCauseOf AreaError.Fault (S.read_faults store.old) (S.read_faults store.new) result }
    ensures write { S.write_faults store.new ≡ S.write_faults store.old }
    ensures unstored { S.unstored store.new ≡ S.unstored store.old }
{
    let _size = sheets.length;
    let mut done: usize = 0;
    while done < out.len() {
        let start = place + done as u64;
        let number = start / PAGE;
        let within = (start % PAGE) as usize;
        let count = (out.len() - done).min(PAGE as usize - within);
        read_within(
            alloc,
            store,
            sheets,
            clean,
            number,
            within,
            &mut out[done..done + count],
        )?;
        let _held = clean.len();
        done += count;
    }
    Ok(())
}
