//! Finding the changed pages whose bytes the file has there anyway.

ghost use Rattle.std.specs.Prelude.{◌≡◌, ◌+◌, ◌-◌, ◌*◌, ◌≤◌, ◌<◌, ◌^◌, ◌⊎◌, ℕ, List, [], length, min, not, slice_index, take, drop, None, Some, IsFalse, IsSome, IsTrue, IfOk, OnOk};
ghost use Rattle.cdf_base.specs.Causes.{HasCause, HasCauseOf};
ghost use Rattle.cdf_store.specs.Disk.{file_of};
ghost use Rattle.cdf_pages.specs.Pages.{Backed, Shows, TakesAtMost, image_of, is_in};
ghost use Rattle.cdf_pages.specs.Saving.{Differs};
ghost use Rattle.cdf_pages.specs.Standing.{cost_of_writing, pages_in};
ghost use Rattle.cdf_pages.specs.Table.{page_at};

use crate::page::PAGE;
use crate::reading::live_bytes;
use crate::saving::is_within;
use crate::sheets::Sheets;
use cdf_area::AreaError;
use cdf_store::{Failed, Store};
use std::alloc::Global;

/// Fills the front of `out` with the bytes of the file from a place on, as many as it has there, and answers how many.
fn fill_front<S: Store>(store: &mut S, place: u64, out: &mut [u8]) -> Result<usize, Failed>
    requires held { IsSome (S.disk store.old).held }
    requires fits { place + length out.old < 2 ^ 64 }
    ensures bytes { IfOk result (λ count. take count out.new ≡ take count (drop place (file_of (S.disk store.old)))) }
    ensures count { IfOk result (λ count. count ≡ min (length out.old) (length (file_of (S.disk store.old)) - place)) }
    ensures size { length out.new ≡ length out.old }
    ensures disk { S.disk store.new ≡ S.disk store.old }
    ensures taken { TakesAtMost (S.taken store.old) (S.taken store.new) (min (length out.old) (length (file_of (S.disk store.old)) - place)) }
    ensures cause { HasCause (S.read_faults store.old) (S.read_faults store.new) result }
    ensures write { S.write_faults store.new ≡ S.write_faults store.old }
    ensures unstored { S.unstored store.new ≡ S.unstored store.old }
{
    let mut done = 0;
    while done < out.len() {
        let count = store.read_at(place + done as u64, &mut out[done..])?;
        if count == 0 {
            return Ok(done);
        }
        done += count;
    }
    Ok(done)
}

/// Whether the file has these bytes at a place. For that they are read to `out`, which is as long.
fn has_bytes<S: Store>(
    store: &mut S,
    place: u64,
    bytes: &[u8],
    out: &mut [u8],
) -> Result<bool, Failed>
    requires held { IsSome (S.disk store.old).held }
    requires fits { place + length bytes.now < 2 ^ 64 }
    requires size { length out.old ≡ length bytes.now }
    ensures yes { IfOk result (λ yes. IsTrue yes → (length bytes.now ≤ length (file_of (S.disk store.old)) - place) × (bytes.now ≡ take (length bytes.now) (drop place (file_of (S.disk store.old))))) }
    ensures no { IfOk result (λ yes. IsFalse yes → (length (file_of (S.disk store.old)) - place < length bytes.now) ⊎ ((i : ℕ) × (i < length bytes.now) × (slice_index (file_of (S.disk store.old)) (place + i) ≡ slice_index bytes.now i → ⊥))) }
    ensures disk { S.disk store.new ≡ S.disk store.old }
    ensures taken { TakesAtMost (S.taken store.old) (S.taken store.new) (min (length bytes.now) (length (file_of (S.disk store.old)) - place)) }
    ensures cause { HasCause (S.read_faults store.old) (S.read_faults store.new) result }
    ensures write { S.write_faults store.new ≡ S.write_faults store.old }
    ensures unstored { S.unstored store.new ≡ S.unstored store.old }
{
    let count = fill_front(store, place, out)?;
    Ok(count == bytes.len() && *bytes == *out)
}

/// Whether the file, of so many bytes, has the bytes of a changed page, as far as the image goes.
fn has_page<S: Store>(
    store: &mut S,
    sheets: &Sheets,
    file_size: u64,
    number: u64,
    buffer: &mut [u8],
) -> Result<bool, Failed>
    requires there { IsSome (page_at sheets.now.changed number) }
    requires inside { number * 65536 < sheets.now.length }
    requires held { IsSome (S.disk store.old).held }
    requires file_size { file_size ≡ length (file_of (S.disk store.old)) }
    requires buffer { length buffer.old ≡ 65536 }
    ensures shows { IfOk result (λ yes. IsTrue yes → (page : List ℕ) → page_at sheets.now.changed number ≡ Some page → Shows (file_of (S.disk store.old)) sheets.now.length number page) }
    ensures backed { IfOk result (λ yes. IsTrue yes → (j : ℕ) → j < 65536 → number * 65536 + j < sheets.now.length → number * 65536 + j < length (file_of (S.disk store.old))) }
    ensures differs { IfOk result (λ yes. IsFalse yes → Differs (file_of (S.disk store.old)) (image_of (page_at sheets.now.changed) (file_of (S.disk store.old)) sheets.now.length) number) }
    ensures buffer { length buffer.new ≡ 65536 }
    ensures disk { S.disk store.new ≡ S.disk store.old }
    ensures taken { TakesAtMost (S.taken store.old) (S.taken store.new) (min 65536 (length (file_of (S.disk store.old)) - number * 65536)) }
    ensures cause { HasCause (S.read_faults store.old) (S.read_faults store.new) result }
    ensures write { S.write_faults store.new ≡ S.write_faults store.old }
    ensures unstored { S.unstored store.new ≡ S.unstored store.old }
{
    let live = live_bytes(sheets.length, number);
    let place = number * PAGE;
    if file_size < place + live as u64 {
        return Ok(false);
    }
    let Some(page) = sheets.page(number) else {
        return Ok(true);
    };
    has_bytes(store, place, page.front(live), &mut buffer[..live])
}

/// The same of any changed page. One that lies past the image has no byte that the file has not.
fn is_settled<S: Store>(
    store: &mut S,
    sheets: &Sheets,
    file_size: u64,
    number: u64,
    buffer: &mut [u8],
) -> Result<bool, Failed>
    requires there { IsSome (page_at sheets.now.changed number) }
    requires held { IsSome (S.disk store.old).held }
    requires file_size { file_size ≡ length (file_of (S.disk store.old)) }
    requires buffer { length buffer.old ≡ 65536 }
    ensures shows { IfOk result (λ yes. IsTrue yes → (page : List ℕ) → page_at sheets.now.changed number ≡ Some page → Shows (file_of (S.disk store.old)) sheets.now.length number page) }
    ensures backed { IfOk result (λ yes. IsTrue yes → (j : ℕ) → j < 65536 → number * 65536 + j < sheets.now.length → number * 65536 + j < length (file_of (S.disk store.old))) }
    ensures differs { IfOk result (λ yes. IsFalse yes → Differs (file_of (S.disk store.old)) (image_of (page_at sheets.now.changed) (file_of (S.disk store.old)) sheets.now.length) number) }
    ensures buffer { length buffer.new ≡ 65536 }
    ensures disk { S.disk store.new ≡ S.disk store.old }
    ensures taken { TakesAtMost (S.taken store.old) (S.taken store.new) (min 65536 (length (file_of (S.disk store.old)) - number * 65536)) }
    ensures past { sheets.now.length ≤ number * 65536 → S.taken store.new ≡ S.taken store.old }
    ensures cause { HasCause (S.read_faults store.old) (S.read_faults store.new) result }
    ensures write { S.write_faults store.new ≡ S.write_faults store.old }
    ensures unstored { S.unstored store.new ≡ S.unstored store.old }
{
    if !is_within(sheets.length, number) {
        return Ok(true);
    }
    has_page(store, sheets, file_size, number, buffer)
}

/// Drops a changed page whose bytes the file has.
fn settle_page<S: Store>(
    store: &mut S,
    sheets: &mut Sheets,
    file_size: u64,
    number: u64,
    buffer: &mut [u8],
) -> Result<(), Failed>
    requires there { IsSome (page_at sheets.old.changed number) }
    requires unmarked { sheets.old.marked ≡ None }
    requires held { IsSome (S.disk store.old).held }
    requires file_size { file_size ≡ length (file_of (S.disk store.old)) }
    requires buffer { length buffer.old ≡ 65536 }
    requires backed { Backed (page_at sheets.old.changed) (length (file_of (S.disk store.old))) sheets.old.length }
    ensures image { image_of (page_at sheets.new.changed) (file_of (S.disk store.old)) sheets.old.length ≡ image_of (page_at sheets.old.changed) (file_of (S.disk store.old)) sheets.old.length }
    ensures backed { Backed (page_at sheets.new.changed) (length (file_of (S.disk store.old))) sheets.old.length }
    ensures less { (other : ℕ) → page_at sheets.old.changed other ≡ None → page_at sheets.new.changed other ≡ None }
    ensures others { (other : ℕ) → (other ≡ number → ⊥) → page_at sheets.new.changed other ≡ page_at sheets.old.changed other }
    ensures differs { OnOk result (IsSome (page_at sheets.new.changed number) → Differs (file_of (S.disk store.old)) (image_of (page_at sheets.old.changed) (file_of (S.disk store.old)) sheets.old.length) number) }
    ensures buffer { length buffer.new ≡ 65536 }
    ensures length { sheets.new.length ≡ sheets.old.length }
    ensures marked { sheets.new.marked ≡ None }
    ensures disk { S.disk store.new ≡ S.disk store.old }
    ensures taken { TakesAtMost (S.taken store.old) (S.taken store.new) (min 65536 (length (file_of (S.disk store.old)) - number * 65536)) }
    ensures past { sheets.old.length ≤ number * 65536 → S.taken store.new ≡ S.taken store.old }
    ensures cause { HasCause (S.read_faults store.old) (S.read_faults store.new) result }
    ensures write { S.write_faults store.new ≡ S.write_faults store.old }
    ensures unstored { S.unstored store.new ≡ S.unstored store.old }
{
    if !is_settled(store, sheets, file_size, number, buffer)? {
        return Ok(());
    }
    sheets.take(number);
    Ok(())
}

/// Drops each changed page whose bytes the file has.
fn settle_all<S: Store>(
    store: &mut S,
    sheets: &mut Sheets,
    file_size: u64,
    buffer: &mut [u8],
) -> Result<(), Failed>
    requires unmarked { sheets.old.marked ≡ None }
    requires held { IsSome (S.disk store.old).held }
    requires file_size { file_size ≡ length (file_of (S.disk store.old)) }
    requires buffer { length buffer.old ≡ 65536 }
    requires backed { Backed (page_at sheets.old.changed) (length (file_of (S.disk store.old))) sheets.old.length }
    ensures image { image_of (page_at sheets.new.changed) (file_of (S.disk store.old)) sheets.old.length ≡ image_of (page_at sheets.old.changed) (file_of (S.disk store.old)) sheets.old.length }
    ensures backed { Backed (page_at sheets.new.changed) (length (file_of (S.disk store.old))) sheets.old.length }
    ensures less { (other : ℕ) → page_at sheets.old.changed other ≡ None → page_at sheets.new.changed other ≡ None }
    ensures differs { OnOk result ((number : ℕ) → IsTrue (is_in (page_at sheets.new.changed) number) → Differs (file_of (S.disk store.old)) (image_of (page_at sheets.old.changed) (file_of (S.disk store.old)) sheets.old.length) number) }
    ensures length { sheets.new.length ≡ sheets.old.length }
    ensures marked { sheets.new.marked ≡ None }
    ensures disk { S.disk store.new ≡ S.disk store.old }
    ensures taken { TakesAtMost (S.taken store.old) (S.taken store.new) (cost_of_writing (λ number. not (is_in (page_at sheets.old.changed) number)) [] (length (file_of (S.disk store.old))) 0 (pages_in 0 sheets.old.length)) }
    ensures cause { HasCause (S.read_faults store.old) (S.read_faults store.new) result }
    ensures write { S.write_faults store.new ≡ S.write_faults store.old }
    ensures unstored { S.unstored store.new ≡ S.unstored store.old }
{
    let mut next = sheets.first();
    while let Some(number) = next {
        settle_page(store, sheets, file_size, number, buffer)?;
        next = sheets.next(number);
    }
    Ok(())
}

/// The same, with the memory for one page of the file made first.
pub fn settle_pages<S: Store>(
    alloc: Global,
    store: &mut S,
    sheets: &mut Sheets,
    file_size: u64,
) -> Result<(), AreaError>
    requires unmarked { sheets.old.marked ≡ None }
    requires held { IsSome (S.disk store.old).held }
    requires file_size { file_size ≡ length (file_of (S.disk store.old)) }
    requires backed { Backed (page_at sheets.old.changed) (length (file_of (S.disk store.old))) sheets.old.length }
    ensures image { image_of (page_at sheets.new.changed) (file_of (S.disk store.old)) sheets.old.length ≡ image_of (page_at sheets.old.changed) (file_of (S.disk store.old)) sheets.old.length }
    ensures backed { Backed (page_at sheets.new.changed) (length (file_of (S.disk store.old))) sheets.old.length }
    ensures less { (other : ℕ) → page_at sheets.old.changed other ≡ None → page_at sheets.new.changed other ≡ None }
    ensures differs { OnOk result ((number : ℕ) → IsTrue (is_in (page_at sheets.new.changed) number) → Differs (file_of (S.disk store.old)) (image_of (page_at sheets.old.changed) (file_of (S.disk store.old)) sheets.old.length) number) }
    ensures length { sheets.new.length ≡ sheets.old.length }
    ensures marked { sheets.new.marked ≡ None }
    ensures disk { S.disk store.new ≡ S.disk store.old }
    ensures taken { TakesAtMost (S.taken store.old) (S.taken store.new) (cost_of_writing (λ number. not (is_in (page_at sheets.old.changed) number)) [] (length (file_of (S.disk store.old))) 0 (pages_in 0 sheets.old.length)) }
    ensures cause { HasCauseOf AreaError.Fault (S.read_faults store.old) (S.read_faults store.new) result }
    ensures write { S.write_faults store.new ≡ S.write_faults store.old }
    ensures unstored { S.unstored store.new ≡ S.unstored store.old }
{
    let mut buffer = Vec::new(alloc);
    buffer.resize(PAGE as usize, 0)?;
    match settle_all(store, sheets, file_size, &mut buffer) {
        Ok(()) => Ok(()),
        Err(Failed) => Err(AreaError::Fault),
    }
}
