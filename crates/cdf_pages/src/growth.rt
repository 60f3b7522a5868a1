//! Writing what lies past the end of the attached file, so that the file is as long as it is to be before a byte is written over.

ghost use Rattle.std.specs.Prelude.{◌≡◌, ◌+◌, ◌-◌, ◌≤◌, ◌<◌, ◌^◌, ◌++◌, ℕ, List, false, length, max, min, slice_index, IsSome, IsTrue, OnOk, OnErr};
ghost use Rattle.cdf_base.specs.Causes.{HasCause};
ghost use Rattle.cdf_store.specs.Disk.{Disk, Spent, file_of};
ghost use Rattle.cdf_store.specs.Unstored.{nothing};
ghost use Rattle.cdf_pages.specs.Growth.{HoldsGrown};
ghost use Rattle.cdf_pages.specs.Pages.{Backed, image_of, is_in};
ghost use Rattle.cdf_pages.specs.Saving.{FailsSaving, HasSaveCause, IsChangedRange, LiesIn, Touches, UnlessKept};
ghost use Rattle.cdf_pages.specs.Standing.{pages_in};
ghost use Rattle.cdf_pages.specs.Table.{page_at};

use crate::page::PAGE;
use crate::reading::live_bytes;
use crate::save_error::SaveError;
use crate::sheets::Sheets;
use cdf_store::{Failed, Store};

/// Appends bytes to the file. Where they are those that a new file has there, it stays on its way to that one, after a fault too.
fn append<S: Store>(store: &mut S, place: u64, bytes: &[u8]) -> Result<(), Failed>
    requires held { IsSome (S.disk store.old).held }
    requires place { place ≡ length (file_of (S.disk store.old)) }
    requires size { length bytes.now ≤ 65536 }
    requires writes { 1 ≤ (S.spare store.old).writes }
    requires end { place + length bytes.now ≤ (S.spare store.old).end }
    ensures long { OnOk result (length (file_of (S.disk store.new)) ≡ place + length bytes.now) }
    ensures grown { (first : Disk S.Under) → (new : List ℕ) → place + length bytes.now ≤ length new → ((t : ℕ) → t < length bytes.now → slice_index bytes.now t ≡ slice_index new (place + t))
        → HoldsGrown first new (S.disk store.old) → HoldsGrown first new (S.disk store.new) }
    ensures touched { Touches (λ range. (place ≤ range.0) × (range.0 + range.1 ≤ place + length bytes.now)) (S.disk store.old).touched (S.disk store.new).touched }
    ensures spare { Spent (S.spare store.old) (S.spare store.new) }
    ensures taken { S.taken store.new ≡ S.taken store.old }
    ensures cause { HasCause (S.write_faults store.old) (S.write_faults store.new) result }
    ensures read { S.read_faults store.new ≡ S.read_faults store.old }
    ensures change { (S.unstored store.new).change ≡ (S.unstored store.old).change }
{
    store.write_at(place, bytes)?;
    Ok(())
}

/// Writes the bytes of the image from the end of the file on, page by page. All of them lie in changed pages, which stay.
fn grow_pages<S: Store>(store: &mut S, sheets: &Sheets, file_size: u64) -> Result<(), Failed>
    requires held { IsSome (S.disk store.old).held }
    requires file_size { file_size ≡ length (file_of (S.disk store.old)) }
    requires writes { pages_in file_size (sheets.now.length - file_size) ≤ (S.spare store.old).writes }
    requires end { sheets.now.length ≤ (S.spare store.old).end }
    requires backed { Backed (page_at sheets.now.changed) (length (file_of (S.disk store.old))) sheets.now.length }
    ensures long { OnOk result (length (file_of (S.disk store.new)) ≡ max file_size sheets.now.length) }
    ensures grown { (tail : List ℕ) → HoldsGrown (S.disk store.old) (image_of (page_at sheets.now.changed) (file_of (S.disk store.old)) sheets.now.length ++ tail) (S.disk store.new) }
    ensures touched { Touches (λ range. (number : ℕ) × IsTrue (is_in (page_at sheets.now.changed) number) × LiesIn number range) (S.disk store.old).touched (S.disk store.new).touched }
    ensures writes { (S.spare store.old).writes ≤ (S.spare store.new).writes + pages_in file_size (sheets.now.length - file_size) }
    ensures end { (S.spare store.new).end ≡ (S.spare store.old).end }
    ensures taken { S.taken store.new ≡ S.taken store.old }
    ensures cause { HasCause (S.write_faults store.old) (S.write_faults store.new) result }
    ensures read { S.read_faults store.new ≡ S.read_faults store.old }
    ensures change { (S.unstored store.new).change ≡ (S.unstored store.old).change }
    ensures idle { sheets.now.length ≤ file_size → S.unstored store.new ≡ S.unstored store.old }
{
    let length = sheets.length;
    let mut place = file_size;
    while place < length {
        let number = place / PAGE;
        let within = (place % PAGE) as usize;
        let live = live_bytes(length, number);
        let page = sheets.page(number).unwrap();
        append(store, place, page.piece(within, live))?;
        place = number * PAGE + live as u64;
    }
    Ok(())
}

/// Appends the rest of a tail, where there is any.
fn grow_tail<S: Store>(store: &mut S, place: u64, rest: &[u8]) -> Result<(), Failed>
    requires held { IsSome (S.disk store.old).held }
    requires place { 0 < length rest.now → place ≡ length (file_of (S.disk store.old)) }
    requires size { length rest.now ≤ 65536 }
    requires writes { 1 ≤ (S.spare store.old).writes }
    requires end { place + length rest.now ≤ (S.spare store.old).end }
    ensures long { OnOk result (0 < length rest.now → length (file_of (S.disk store.new)) ≡ place + length rest.now) }
    ensures none { length rest.now ≡ 0 → S.disk store.new ≡ S.disk store.old }
    ensures grown { (first : Disk S.Under) → (new : List ℕ) → place + length rest.now ≤ length new → ((t : ℕ) → t < length rest.now → slice_index rest.now t ≡ slice_index new (place + t))
        → HoldsGrown first new (S.disk store.old) → HoldsGrown first new (S.disk store.new) }
    ensures touched { Touches (λ range. (place ≤ range.0) × (range.0 + range.1 ≤ place + length rest.now)) (S.disk store.old).touched (S.disk store.new).touched }
    ensures spare { Spent (S.spare store.old) (S.spare store.new) }
    ensures taken { S.taken store.new ≡ S.taken store.old }
    ensures cause { HasCause (S.write_faults store.old) (S.write_faults store.new) result }
    ensures read { S.read_faults store.new ≡ S.read_faults store.old }
    ensures change { (S.unstored store.new).change ≡ (S.unstored store.old).change }
    ensures idle { length rest.now ≡ 0 → S.unstored store.new ≡ S.unstored store.old }
{
    if rest.is_empty() {
        return Ok(());
    }
    append(store, place, rest)?;
    Ok(())
}

/// How many bytes of a tail of so many, behind an image, lie before the end of the file.
pub fn tail_before(file_size: u64, length: u64, tail: usize) -> usize
    ensures { result ≡ min tail (file_size - length) }
{
    file_size.saturating_sub(length).min(tail as u64) as usize
}

/// Writes the bytes of the image and of the tail behind it from the end of the file on.
fn grow_all<S: Store>(
    store: &mut S,
    sheets: &Sheets,
    file_size: u64,
    tail: &[u8],
) -> Result<(), Failed>
    requires held { IsSome (S.disk store.old).held }
    requires file_size { file_size ≡ length (file_of (S.disk store.old)) }
    requires size { length tail.now ≤ 65536 }
    requires fits { sheets.now.length + length tail.now < 2 ^ 64 }
    requires writes { pages_in file_size (sheets.now.length - file_size) + 1 ≤ (S.spare store.old).writes }
    requires end { sheets.now.length + length tail.now ≤ (S.spare store.old).end }
    requires backed { Backed (page_at sheets.now.changed) (length (file_of (S.disk store.old))) sheets.now.length }
    ensures long { OnOk result (length (file_of (S.disk store.new)) ≡ max file_size (sheets.now.length + length tail.now)) }
    ensures grown { HoldsGrown (S.disk store.old) (image_of (page_at sheets.now.changed) (file_of (S.disk store.old)) sheets.now.length ++ tail.now) (S.disk store.new) }
    ensures touched { Touches (IsChangedRange (is_in (page_at sheets.now.changed)) sheets.now.length (length tail.now)) (S.disk store.old).touched (S.disk store.new).touched }
    ensures writes { (S.spare store.old).writes ≤ (S.spare store.new).writes + pages_in file_size (sheets.now.length - file_size) + 1 }
    ensures end { (S.spare store.new).end ≡ (S.spare store.old).end }
    ensures taken { S.taken store.new ≡ S.taken store.old }
    ensures cause { HasCause (S.write_faults store.old) (S.write_faults store.new) result }
    ensures read { S.read_faults store.new ≡ S.read_faults store.old }
    ensures change { (S.unstored store.new).change ≡ (S.unstored store.old).change }
    ensures idle { sheets.now.length + length tail.now ≤ file_size → S.unstored store.new ≡ S.unstored store.old }
{
    grow_pages(store, sheets, file_size)?;
    let before = tail_before(file_size, sheets.length, tail.len());
    grow_tail(store, sheets.length + before as u64, &tail[before..])?;
    Ok(())
}

/// The same, and has a file that grew stored, unless it was empty: a system may tell of a full disk as late as that, and then no
/// byte is written over as yet.
fn grow_stored<S: Store>(
    store: &mut S,
    sheets: &Sheets,
    file_size: u64,
    tail: &[u8],
) -> Result<(), Failed>
    requires held { IsSome (S.disk store.old).held }
    requires file_size { file_size ≡ length (file_of (S.disk store.old)) }
    requires size { length tail.now ≤ 65536 }
    requires fits { sheets.now.length + length tail.now < 2 ^ 64 }
    requires writes { pages_in file_size (sheets.now.length - file_size) + 1 ≤ (S.spare store.old).writes }
    requires end { sheets.now.length + length tail.now ≤ (S.spare store.old).end }
    requires backed { Backed (page_at sheets.now.changed) (length (file_of (S.disk store.old))) sheets.now.length }
    ensures long { OnOk result (length (file_of (S.disk store.new)) ≡ max file_size (sheets.now.length + length tail.now)) }
    ensures grown { HoldsGrown (S.disk store.old) (image_of (page_at sheets.now.changed) (file_of (S.disk store.old)) sheets.now.length ++ tail.now) (S.disk store.new) }
    ensures touched { Touches (IsChangedRange (is_in (page_at sheets.now.changed)) sheets.now.length (length tail.now)) (S.disk store.old).touched (S.disk store.new).touched }
    ensures writes { (S.spare store.old).writes ≤ (S.spare store.new).writes + pages_in file_size (sheets.now.length - file_size) + 1 }
    ensures end { (S.spare store.new).end ≡ (S.spare store.old).end }
    ensures taken { S.taken store.new ≡ S.taken store.old }
    ensures cause { HasCause (S.write_faults store.old) (S.write_faults store.new) result }
    ensures read { S.read_faults store.new ≡ S.read_faults store.old }
    ensures change { (S.unstored store.old).change ≡ false → (S.unstored store.new).change ≡ false }
    ensures stored { OnOk result (0 < file_size → S.unstored store.old ≡ nothing → S.unstored store.new ≡ nothing) }
{
    grow_all(store, sheets, file_size, tail)?;
    if file_size > 0 && file_size < sheets.length + tail.len() as u64 {
        store.sync()?;
    }
    Ok(())
}

/// The same; where it fails, a file that was not empty is cut back to what it was.
pub fn grow<S: Store>(
    store: &mut S,
    sheets: &Sheets,
    file_size: u64,
    tail: &[u8],
) -> Result<(), SaveError>
    requires held { IsSome (S.disk store.old).held }
    requires file_size { file_size ≡ length (file_of (S.disk store.old)) }
    requires size { length tail.now ≤ 65536 }
    requires fits { sheets.now.length + length tail.now < 2 ^ 64 }
    requires writes { pages_in file_size (sheets.now.length - file_size) + 2 ≤ (S.spare store.old).writes }
    requires end { sheets.now.length + length tail.now ≤ (S.spare store.old).end }
    requires backed { Backed (page_at sheets.now.changed) (length (file_of (S.disk store.old))) sheets.now.length }
    ensures long { OnOk result (length (file_of (S.disk store.new)) ≡ max file_size (sheets.now.length + length tail.now)) }
    ensures grown { HoldsGrown (S.disk store.old) (image_of (page_at sheets.now.changed) (file_of (S.disk store.old)) sheets.now.length ++ tail.now) (S.disk store.new) }
    ensures failed { FailsSaving (S.disk store.old) (image_of (page_at sheets.now.changed) (file_of (S.disk store.old)) sheets.now.length ++ tail.now) (S.disk store.new) result }
    ensures touched { Touches (IsChangedRange (is_in (page_at sheets.now.changed)) sheets.now.length (length tail.now)) (S.disk store.old).touched (S.disk store.new).touched }
    ensures writes { OnOk result ((S.spare store.old).writes ≤ (S.spare store.new).writes + pages_in file_size (sheets.now.length - file_size) + 1) }
    ensures end { (S.spare store.new).end ≡ (S.spare store.old).end }
    ensures taken { S.taken store.new ≡ S.taken store.old }
    ensures cause { HasSaveCause (S.write_faults store.old) (S.write_faults store.new) result }
    ensures read { S.read_faults store.new ≡ S.read_faults store.old }
    ensures change { (S.unstored store.old).change ≡ false → UnlessKept result ((S.unstored store.new).change ≡ false) }
    ensures stored { OnOk result (0 < file_size → S.unstored store.old ≡ nothing → S.unstored store.new ≡ nothing) }
{
    match grow_stored(store, sheets, file_size, tail) {
        Ok(()) => Ok(()),
        Err(Failed) => {
            let kept = file_size > 0 && store.set_len(file_size).is_ok();
            Err(SaveError::Failed { kept })
        }
    }
}
