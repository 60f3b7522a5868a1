//! Writing the changed pages of an image to the attached file, and the tail behind them.

ghost use Rattle.std.specs.Prelude.{◌≡◌, ◌⊎◌, ◌+◌, ◌-◌, ◌*◌, ◌≤◌, ◌<◌, ◌^◌, ◌↔◌, ◌++◌, ℕ, List, false, length, max, min, slice_index, take, IsSome, IsTrue, IsFalse, OnOk, OnErr, None};
ghost use Rattle.cdf_base.specs.Bytes.{put};
ghost use Rattle.cdf_base.specs.Causes.{HasCause};
ghost use Rattle.cdf_store.specs.Disk.{Disk, Spent, cut, file_of};
ghost use Rattle.cdf_pages.specs.Growth.{HasBehind, HasTailBehind, HoldsGrown, pages_to};
ghost use Rattle.cdf_pages.specs.Pages.{Backed, image_of, is_in};
ghost use Rattle.cdf_pages.specs.Saving.{FailsSaving, HasSaveCause, Holds, HoldsBetween, IsChangedRange, KeepsApart, LiesIn, Touches, UnlessKept, WritesOver, tail_bytes};
ghost use Rattle.cdf_pages.specs.Standing.{pages_in};
ghost use Rattle.cdf_pages.specs.Table.{page_at, pages_before, pages_held};

use crate::growth::{grow, tail_before};
use crate::page::{PAGE, Page};
use crate::reading::live_bytes;
use crate::save_error::SaveError;
use crate::sheets::Sheets;
use cdf_store::{Failed, Store};

/// Whether a page has bytes of the image.
pub fn is_within(length: u64, number: u64) -> bool
    ensures { IsTrue result ↔ (number * 65536 < length) }
{
    length > 0 && number <= (length - 1) / PAGE
}

/// Gives a changed page to the store, which writes it to the file, up to an end behind which the file has the image's bytes. It is
/// a changed one no more. The image stays, after a fault too.
fn save_page<S: Store>(
    store: &mut S,
    sheets: &mut Sheets,
    end: u64,
    number: u64,
) -> Result<(), Failed>
    requires there { IsSome (page_at sheets.old.changed number) }
    requires inside { number * 65536 < end }
    requires end { end ≤ sheets.old.length }
    requires unmarked { sheets.old.marked ≡ None }
    requires held { IsSome (S.disk store.old).held }
    requires long { sheets.old.length ≤ length (file_of (S.disk store.old)) }
    requires behind { HasBehind (page_at sheets.old.changed) (file_of (S.disk store.old)) end sheets.old.length }
    requires writes { 1 ≤ (S.spare store.old).writes }
    requires spare { end ≤ (S.spare store.old).end }
    ensures image { image_of (page_at sheets.new.changed) (file_of (S.disk store.new)) sheets.old.length ≡ image_of (page_at sheets.old.changed) (file_of (S.disk store.old)) sheets.old.length }
    ensures long { length (file_of (S.disk store.new)) ≡ length (file_of (S.disk store.old)) }
    ensures behind { HasBehind (page_at sheets.new.changed) (file_of (S.disk store.new)) end sheets.old.length }
    ensures same { (i : ℕ) → end ≤ i → slice_index (file_of (S.disk store.new)) i ≡ slice_index (file_of (S.disk store.old)) i }
    ensures less { (other : ℕ) → page_at sheets.old.changed other ≡ None → page_at sheets.new.changed other ≡ None }
    ensures fewer { OnOk result (pages_held sheets.new.changed + 1 ≡ pages_held sheets.old.changed) }
    ensures before { OnOk result (pages_before sheets.new.changed (pages_to end) + 1 ≡ pages_before sheets.old.changed (pages_to end)) }
    ensures held { OnOk result (IsSome (S.disk store.new).held) }
    ensures between { (first : Disk S.Under) → (tail : List ℕ) → sheets.old.length + length tail ≤ length (file_of (S.disk store.old))
        → HoldsBetween first (image_of (page_at sheets.old.changed) (file_of (S.disk store.old)) sheets.old.length ++ tail) (S.disk store.old)
        → HoldsBetween first (image_of (page_at sheets.old.changed) (file_of (S.disk store.old)) sheets.old.length ++ tail) (S.disk store.new) }
    ensures touched { Touches (LiesIn number) (S.disk store.old).touched (S.disk store.new).touched }
    ensures length { sheets.new.length ≡ sheets.old.length }
    ensures marked { sheets.new.marked ≡ None }
    ensures spare { Spent (S.spare store.old) (S.spare store.new) }
    ensures taken { S.taken store.new ≡ S.taken store.old }
    ensures cause { HasCause (S.write_faults store.old) (S.write_faults store.new) result }
    ensures read { S.read_faults store.new ≡ S.read_faults store.old }
    ensures over { WritesOver (S.disk store.old) (S.disk store.new) (S.unstored store.old) (S.unstored store.new) }
    ensures back { OnErr result ((other : ℕ) → page_at sheets.new.changed other ≡ page_at sheets.old.changed other) }
    ensures others { (other : ℕ) → (other ≡ number → ⊥) → page_at sheets.new.changed other ≡ page_at sheets.old.changed other }
    ensures kept { (S.unstored store.new).change ≡ false → (other : ℕ) → other * 65536 < end → page_at sheets.new.changed other ≡ page_at sheets.old.changed other }
{
    let count = live_bytes(end, number);
    let Some(page) = sheets.take(number) else {
        return Ok(());
    };
    match store.write_page(number * PAGE, page.into_bytes(), count) {
        Ok(()) => Ok(()),
        Err(bytes) => {
            sheets.put(number, Page::new(bytes));
            Err(Failed)
        }
    }
}

/// Writes the first changed page to the file, or forgets it where it lies past the end, behind which the file has the image's bytes.
fn save_first<S: Store>(
    store: &mut S,
    sheets: &mut Sheets,
    end: u64,
    number: u64,
) -> Result<(), Failed>
    requires there { IsSome (page_at sheets.old.changed number) }
    requires end { end ≤ sheets.old.length }
    requires unmarked { sheets.old.marked ≡ None }
    requires held { IsSome (S.disk store.old).held }
    requires long { sheets.old.length ≤ length (file_of (S.disk store.old)) }
    requires behind { HasBehind (page_at sheets.old.changed) (file_of (S.disk store.old)) end sheets.old.length }
    requires writes { pages_before sheets.old.changed (pages_to end) ≤ (S.spare store.old).writes }
    requires spare { end ≤ (S.spare store.old).end }
    ensures image { image_of (page_at sheets.new.changed) (file_of (S.disk store.new)) sheets.old.length ≡ image_of (page_at sheets.old.changed) (file_of (S.disk store.old)) sheets.old.length }
    ensures long { length (file_of (S.disk store.new)) ≡ length (file_of (S.disk store.old)) }
    ensures behind { HasBehind (page_at sheets.new.changed) (file_of (S.disk store.new)) end sheets.old.length }
    ensures same { (i : ℕ) → end ≤ i → slice_index (file_of (S.disk store.new)) i ≡ slice_index (file_of (S.disk store.old)) i }
    ensures less { (other : ℕ) → page_at sheets.old.changed other ≡ None → page_at sheets.new.changed other ≡ None }
    ensures fewer { OnOk result (pages_held sheets.new.changed + 1 ≡ pages_held sheets.old.changed) }
    ensures held { OnOk result (IsSome (S.disk store.new).held) }
    ensures between { (first : Disk S.Under) → (tail : List ℕ) → sheets.old.length + length tail ≤ length (file_of (S.disk store.old))
        → HoldsBetween first (image_of (page_at sheets.old.changed) (file_of (S.disk store.old)) sheets.old.length ++ tail) (S.disk store.old)
        → HoldsBetween first (image_of (page_at sheets.old.changed) (file_of (S.disk store.old)) sheets.old.length ++ tail) (S.disk store.new) }
    ensures touched { Touches (LiesIn number) (S.disk store.old).touched (S.disk store.new).touched }
    ensures length { sheets.new.length ≡ sheets.old.length }
    ensures marked { sheets.new.marked ≡ None }
    ensures writes { OnOk result ((S.spare store.old).writes + pages_before sheets.new.changed (pages_to end) ≤ (S.spare store.new).writes + pages_before sheets.old.changed (pages_to end)) }
    ensures spare { (S.spare store.new).end ≡ (S.spare store.old).end }
    ensures taken { S.taken store.new ≡ S.taken store.old }
    ensures cause { HasCause (S.write_faults store.old) (S.write_faults store.new) result }
    ensures read { S.read_faults store.new ≡ S.read_faults store.old }
    ensures over { WritesOver (S.disk store.old) (S.disk store.new) (S.unstored store.old) (S.unstored store.new) }
    ensures idle { end ≡ 0 → S.unstored store.new ≡ S.unstored store.old }
    ensures back { OnErr result ((other : ℕ) → page_at sheets.new.changed other ≡ page_at sheets.old.changed other) }
    ensures others { (other : ℕ) → (other ≡ number → ⊥) → page_at sheets.new.changed other ≡ page_at sheets.old.changed other }
    ensures kept { (S.unstored store.new).change ≡ false → (other : ℕ) → other * 65536 < end → page_at sheets.new.changed other ≡ page_at sheets.old.changed other }
    ensures inside { OnErr result (number * 65536 < end) }
    ensures left { OnErr result ((S.spare store.old).writes ≤ (S.spare store.new).writes + pages_before sheets.old.changed (pages_to end)) }
{
    if is_within(end, number) {
        return save_page(store, sheets, end, number);
    }
    sheets.take(number);
    Ok(())
}

/// Writes what of the changed pages lies before an end, behind which the file has the image's bytes, in ascending order. No page is
/// a changed one then.
#[tactic(auto, using(crate::proofs::Slots::some_held))]
fn save_pages<S: Store>(store: &mut S, sheets: &mut Sheets, end: u64) -> Result<(), Failed>
    requires end { end ≤ sheets.old.length }
    requires unmarked { sheets.old.marked ≡ None }
    requires held { IsSome (S.disk store.old).held }
    requires long { sheets.old.length ≤ length (file_of (S.disk store.old)) }
    requires behind { HasBehind (page_at sheets.old.changed) (file_of (S.disk store.old)) end sheets.old.length }
    requires writes { pages_before sheets.old.changed (pages_to end) ≤ (S.spare store.old).writes }
    requires spare { end ≤ (S.spare store.old).end }
    ensures image { image_of (page_at sheets.new.changed) (file_of (S.disk store.new)) sheets.old.length ≡ image_of (page_at sheets.old.changed) (file_of (S.disk store.old)) sheets.old.length }
    ensures long { length (file_of (S.disk store.new)) ≡ length (file_of (S.disk store.old)) }
    ensures same { (i : ℕ) → end ≤ i → slice_index (file_of (S.disk store.new)) i ≡ slice_index (file_of (S.disk store.old)) i }
    ensures less { (other : ℕ) → page_at sheets.old.changed other ≡ None → page_at sheets.new.changed other ≡ None }
    ensures held { OnOk result (IsSome (S.disk store.new).held) }
    ensures saved { OnOk result ((number : ℕ) → page_at sheets.new.changed number ≡ None) }
    ensures between { (first : Disk S.Under) → (tail : List ℕ) → sheets.old.length + length tail ≤ length (file_of (S.disk store.old))
        → HoldsBetween first (image_of (page_at sheets.old.changed) (file_of (S.disk store.old)) sheets.old.length ++ tail) (S.disk store.old)
        → HoldsBetween first (image_of (page_at sheets.old.changed) (file_of (S.disk store.old)) sheets.old.length ++ tail) (S.disk store.new) }
    ensures touched { Touches (λ range. (number : ℕ) × IsTrue (is_in (page_at sheets.old.changed) number) × LiesIn number range) (S.disk store.old).touched (S.disk store.new).touched }
    ensures length { sheets.new.length ≡ sheets.old.length }
    ensures marked { sheets.new.marked ≡ None }
    ensures writes { (S.spare store.old).writes ≤ (S.spare store.new).writes + pages_before sheets.old.changed (pages_to end) }
    ensures spare { (S.spare store.new).end ≡ (S.spare store.old).end }
    ensures taken { S.taken store.new ≡ S.taken store.old }
    ensures cause { HasCause (S.write_faults store.old) (S.write_faults store.new) result }
    ensures read { S.read_faults store.new ≡ S.read_faults store.old }
    ensures over { WritesOver (S.disk store.old) (S.disk store.new) (S.unstored store.old) (S.unstored store.new) }
    ensures idle { end ≡ 0 → S.unstored store.new ≡ S.unstored store.old }
    ensures kept { OnErr result ((S.unstored store.new).change ≡ false → (other : ℕ) → page_at sheets.new.changed other ≡ None → page_at sheets.old.changed other ≡ None) }
{
    while let Some(number) = sheets.first() {
        save_first(store, sheets, end, number)?;
    }
    Ok(())
}

/// Writes the front of a tail behind an image of so many bytes, over bytes of the file, which does not grow.
fn save_tail<S: Store>(store: &mut S, place: u64, front: &[u8]) -> Result<(), Failed>
    requires held { IsSome (S.disk store.old).held }
    requires place { place + length front.now ≤ length (file_of (S.disk store.old)) }
    requires size { length front.now ≤ 65536 }
    requires writes { 1 ≤ (S.spare store.old).writes }
    requires end { place + length front.now ≤ (S.spare store.old).end }
    ensures written { OnOk result (file_of (S.disk store.new) ≡ put (file_of (S.disk store.old)) place front.now) }
    ensures held { OnOk result (IsSome (S.disk store.new).held) }
    ensures front { take place (file_of (S.disk store.new)) ≡ take place (file_of (S.disk store.old)) }
    ensures long { length (file_of (S.disk store.new)) ≡ length (file_of (S.disk store.old)) }
    ensures between { (first : Disk S.Under) → (new : List ℕ) → length new ≤ length (file_of (S.disk store.old)) → place + length front.now ≤ length new
        → ((t : ℕ) → t < length front.now → slice_index front.now t ≡ slice_index new (place + t)) → HoldsBetween first new (S.disk store.old) → HoldsBetween first new (S.disk store.new) }
    ensures touched { Touches (λ range. (place ≤ range.0) × (range.0 + range.1 ≤ place + length front.now)) (S.disk store.old).touched (S.disk store.new).touched }
    ensures spare { Spent (S.spare store.old) (S.spare store.new) }
    ensures taken { S.taken store.new ≡ S.taken store.old }
    ensures cause { HasCause (S.write_faults store.old) (S.write_faults store.new) result }
    ensures read { S.read_faults store.new ≡ S.read_faults store.old }
    ensures over { WritesOver (S.disk store.old) (S.disk store.new) (S.unstored store.old) (S.unstored store.new) }
    ensures idle { length front.now ≡ 0 → S.unstored store.new ≡ S.unstored store.old }
    ensures some { OnErr result (0 < length front.now) }
{
    if front.is_empty() {
        return Ok(());
    }
    store.write_at(place, front)?;
    Ok(())
}

/// Writes what of the image and of a tail behind it lies before the old end of a file that has grown, and cuts the file where it is
/// longer. After a fault it is between the old one and the new one.
fn write_over<S: Store>(
    store: &mut S,
    sheets: &mut Sheets,
    file_size: u64,
    tail: &[u8],
) -> Result<(), Failed>
    requires unmarked { sheets.old.marked ≡ None }
    requires held { IsSome (S.disk store.old).held }
    requires long { length (file_of (S.disk store.old)) ≡ max file_size (sheets.old.length + length tail.now) }
    requires behind { HasBehind (page_at sheets.old.changed) (file_of (S.disk store.old)) file_size sheets.old.length }
    requires tail_behind { HasTailBehind tail.now sheets.old.length (file_of (S.disk store.old)) (file_size - sheets.old.length) }
    requires size { length tail.now ≤ 65536 }
    requires fits { sheets.old.length + length tail.now < 2 ^ 64 }
    requires writes { pages_before sheets.old.changed (pages_to (min sheets.old.length file_size)) + 2 ≤ (S.spare store.old).writes }
    requires end { sheets.old.length + length tail.now ≤ (S.spare store.old).end }
    ensures saved { (first : Disk S.Under) → HoldsBetween first (image_of (page_at sheets.old.changed) (file_of (S.disk store.old)) sheets.old.length ++ tail.now) (S.disk store.old)
        → OnOk result (Holds first (image_of (page_at sheets.old.changed) (file_of (S.disk store.old)) sheets.old.length ++ tail.now) (S.disk store.new)) }
    ensures failed { (first : Disk S.Under) → HoldsBetween first (image_of (page_at sheets.old.changed) (file_of (S.disk store.old)) sheets.old.length ++ tail.now) (S.disk store.old)
        → OnErr result (HoldsBetween first (image_of (page_at sheets.old.changed) (file_of (S.disk store.old)) sheets.old.length ++ tail.now) (S.disk store.new)) }
    ensures image { image_of (page_at sheets.new.changed) (file_of (S.disk store.new)) sheets.old.length ≡ image_of (page_at sheets.old.changed) (file_of (S.disk store.old)) sheets.old.length }
    ensures long { sheets.old.length ≤ length (file_of (S.disk store.new)) }
    ensures less { (other : ℕ) → page_at sheets.old.changed other ≡ None → page_at sheets.new.changed other ≡ None }
    ensures none { OnOk result ((number : ℕ) → page_at sheets.new.changed number ≡ None) }
    ensures touched { Touches (IsChangedRange (is_in (page_at sheets.old.changed)) sheets.old.length (length tail.now)) (S.disk store.old).touched (S.disk store.new).touched }
    ensures length { sheets.new.length ≡ sheets.old.length }
    ensures marked { sheets.new.marked ≡ None }
    ensures taken { S.taken store.new ≡ S.taken store.old }
    ensures cause { HasCause (S.write_faults store.old) (S.write_faults store.new) result }
    ensures read { S.read_faults store.new ≡ S.read_faults store.old }
    ensures over { WritesOver (S.disk store.old) (S.disk store.new) (S.unstored store.old) (S.unstored store.new) }
    ensures idle { file_size ≡ 0 → S.unstored store.new ≡ S.unstored store.old }
    ensures whole { OnErr result (length (file_of (S.disk store.new)) ≡ length (file_of (S.disk store.old))) }
    ensures backed { Backed (page_at sheets.old.changed) file_size sheets.old.length → OnErr result ((S.unstored store.new).change ≡ false → Backed (page_at sheets.new.changed) file_size sheets.old.length) }
    ensures writes { (S.spare store.old).writes ≤ (S.spare store.new).writes + pages_before sheets.old.changed (pages_to (min sheets.old.length file_size)) + 2 }
{
    let length = sheets.length;
    save_pages(store, sheets, length.min(file_size))?;
    let before = tail_before(file_size, length, tail.len());
    save_tail(store, length, &tail[..before])?;
    let end = length + tail.len() as u64;
    if end < file_size {
        store.set_len(end)?;
    }
    Ok(())
}

/// Cuts a file back to the size that it had, where nothing of it was written over or cut since it was stored. Says whether it has its
/// old bytes then.
fn cut_back<S: Store>(store: &mut S, file_size: u64) -> bool
    requires held { IsSome (S.disk store.old).held }
    requires size { file_size ≤ length (file_of (S.disk store.old)) }
    requires writes { 1 ≤ (S.spare store.old).writes }
    ensures unchanged { IsTrue result → (S.unstored store.old).change ≡ false }
    ensures kept { IsTrue result → ((S.disk store.new ≡ S.disk store.old) × (length (file_of (S.disk store.old)) ≡ file_size)) ⊎ (S.disk store.new ≡ cut (S.disk store.old) file_size) }
    ensures stays { IsFalse result → S.disk store.new ≡ S.disk store.old }
    ensures left { IsFalse result → S.unstored store.new ≡ S.unstored store.old }
    ensures touched { (S.disk store.new).touched ≡ (S.disk store.old).touched }
    ensures taken { S.taken store.new ≡ S.taken store.old }
    ensures write { S.write_faults store.old ≤ S.write_faults store.new }
    ensures read { S.read_faults store.new ≡ S.read_faults store.old }
{
    if store.unstored().change {
        return false;
    }
    store.size() == file_size || store.set_len(file_size).is_ok()
}

/// Writes over what has grown, as `write_over` does; where that fails before a byte was written over, the file is cut back to what it
/// was before it grew.
fn write_over_or_back<S: Store>(
    store: &mut S,
    sheets: &mut Sheets,
    file_size: u64,
    tail: &[u8],
) -> Result<(), SaveError>
    requires unmarked { sheets.old.marked ≡ None }
    requires held { IsSome (S.disk store.old).held }
    requires long { length (file_of (S.disk store.old)) ≡ max file_size (sheets.old.length + length tail.now) }
    requires behind { HasBehind (page_at sheets.old.changed) (file_of (S.disk store.old)) file_size sheets.old.length }
    requires tail_behind { HasTailBehind tail.now sheets.old.length (file_of (S.disk store.old)) (file_size - sheets.old.length) }
    requires size { length tail.now ≤ 65536 }
    requires fits { sheets.old.length + length tail.now < 2 ^ 64 }
    requires writes { pages_before sheets.old.changed (pages_to (min sheets.old.length file_size)) + 3 ≤ (S.spare store.old).writes }
    requires end { sheets.old.length + length tail.now ≤ (S.spare store.old).end }
    requires backed { Backed (page_at sheets.old.changed) file_size sheets.old.length }
    ensures saved { (first : Disk S.Under) → HoldsGrown first (image_of (page_at sheets.old.changed) (file_of (S.disk store.old)) sheets.old.length ++ tail.now) (S.disk store.old)
        → OnOk result (Holds first (image_of (page_at sheets.old.changed) (file_of (S.disk store.old)) sheets.old.length ++ tail.now) (S.disk store.new)) }
    ensures failed { (first : Disk S.Under) → file_size ≡ length (file_of first) → HoldsGrown first (image_of (page_at sheets.old.changed) (file_of (S.disk store.old)) sheets.old.length ++ tail.now) (S.disk store.old)
        → FailsSaving first (image_of (page_at sheets.old.changed) (file_of (S.disk store.old)) sheets.old.length ++ tail.now) (S.disk store.new) result }
    ensures image { image_of (page_at sheets.new.changed) (file_of (S.disk store.new)) sheets.old.length ≡ image_of (page_at sheets.old.changed) (file_of (S.disk store.old)) sheets.old.length }
    ensures backed { Backed (page_at sheets.new.changed) (length (file_of (S.disk store.new))) sheets.old.length }
    ensures less { (other : ℕ) → page_at sheets.old.changed other ≡ None → page_at sheets.new.changed other ≡ None }
    ensures none { OnOk result ((number : ℕ) → page_at sheets.new.changed number ≡ None) }
    ensures touched { Touches (IsChangedRange (is_in (page_at sheets.old.changed)) sheets.old.length (length tail.now)) (S.disk store.old).touched (S.disk store.new).touched }
    ensures length { sheets.new.length ≡ sheets.old.length }
    ensures marked { sheets.new.marked ≡ None }
    ensures taken { S.taken store.new ≡ S.taken store.old }
    ensures cause { HasSaveCause (S.write_faults store.old) (S.write_faults store.new) result }
    ensures read { S.read_faults store.new ≡ S.read_faults store.old }
    ensures growth { UnlessKept result ((S.unstored store.new).growth ≡ (S.unstored store.old).growth) }
    ensures idle { file_size ≡ 0 → UnlessKept result (S.unstored store.new ≡ S.unstored store.old) }
{
    match write_over(store, sheets, file_size, tail) {
        Ok(()) => Ok(()),
        Err(Failed) => {
            let kept = cut_back(store, file_size);
            Err(SaveError::Failed { kept })
        }
    }
}

/// How many pages so many bytes lie in.
fn page_count(size: u64) -> u64
    ensures count { result ≡ pages_to size }
    ensures small { result ≤ 2 ^ 48 }
{
    if size == 0 {
        return 0;
    }
    (size - 1) / PAGE + 1
}

/// How many writes and cuts there are at most: those of the pages on both sides of the end of the file, two parts of a tail, a cut, and
/// one back.
fn most_writes(sheets: &Sheets, file_size: u64) -> u64
    ensures { result ≡ pages_in file_size (sheets.now.length - file_size) + pages_before sheets.now.changed (pages_to (min sheets.now.length file_size)) + 4 }
{
    let length = sheets.length;
    let behind = if length <= file_size {
        0
    } else {
        page_count(length) - file_size / PAGE
    };
    behind + sheets.count_before(page_count(length.min(file_size))) + 4
}

/// Makes the file, of so many bytes, the image and a tail behind it. What lies past its end is written first, so that the file grows,
/// and has that stored, before its bytes are written over. Room for all writes is made before, which is the one want of memory.
pub fn save_image<S: Store>(
    store: &mut S,
    sheets: &mut Sheets,
    file_size: u64,
    tail: &[u8],
) -> Result<(), SaveError>
    requires unmarked { sheets.old.marked ≡ None }
    requires held { IsSome (S.disk store.old).held }
    requires file_size { file_size ≡ length (file_of (S.disk store.old)) }
    requires size { length tail.now ≤ 65536 }
    requires fits { sheets.old.length + length tail.now < 2 ^ 64 }
    requires backed { Backed (page_at sheets.old.changed) (length (file_of (S.disk store.old))) sheets.old.length }
    ensures saved { OnOk result (Holds (S.disk store.old) (image_of (page_at sheets.old.changed) (file_of (S.disk store.old)) sheets.old.length ++ tail.now) (S.disk store.new)) }
    ensures failed { FailsSaving (S.disk store.old) (image_of (page_at sheets.old.changed) (file_of (S.disk store.old)) sheets.old.length ++ tail.now) (S.disk store.new) result }
    ensures image { image_of (page_at sheets.new.changed) (file_of (S.disk store.new)) sheets.old.length ≡ image_of (page_at sheets.old.changed) (file_of (S.disk store.old)) sheets.old.length }
    ensures backed { Backed (page_at sheets.new.changed) (length (file_of (S.disk store.new))) sheets.old.length }
    ensures less { (other : ℕ) → page_at sheets.old.changed other ≡ None → page_at sheets.new.changed other ≡ None }
    ensures none { OnOk result ((number : ℕ) → page_at sheets.new.changed number ≡ None) }
    ensures touched { Touches (IsChangedRange (is_in (page_at sheets.old.changed)) sheets.old.length (length tail.now)) (S.disk store.old).touched (S.disk store.new).touched }
    ensures length { sheets.new.length ≡ sheets.old.length }
    ensures marked { sheets.new.marked ≡ None }
    ensures taken { S.taken store.new ≡ S.taken store.old }
    ensures cause { HasSaveCause (S.write_faults store.old) (S.write_faults store.new) result }
    ensures read { S.read_faults store.new ≡ S.read_faults store.old }
    ensures apart { KeepsApart result (S.unstored store.old) (S.unstored store.new) }
{
    let end = sheets.length + tail.len() as u64;
    store.reserve(most_writes(sheets, file_size), end)?;
    grow(store, sheets, file_size, tail)?;
    write_over_or_back(store, sheets, file_size, tail)
}

/// The bytes of a tail, if there is one.
pub fn tail_slice(tail: &Option<[u8; 16]>) -> &[u8]
    ensures bytes { result.now ≡ tail_bytes tail.now }
    ensures size { length result.now ≤ 16 }
{
    match tail {
        Some(bytes) => bytes,
        None => &[],
    }
}
