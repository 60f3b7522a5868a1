//! An area in pages over the attached file of a store.

ghost use Rattle.std.specs.Prelude.{◌≡◌, ◌↔◌, ◌≤◌, ◌<◌, ◌+◌, ◌-◌, ◌/◌, ◌++◌, ◌^◌, ℕ, List, [], length, take, drop, replicate, false, not, nat_eq, Some, None, IsSome, IfOk, IfErr, IsErrOf, IsOk, IsTrue, OnOk, OnErr};
ghost use Rattle.std.proofs.Props.{props};
ghost use Rattle.std.specs.Option.{option_map};
ghost use Rattle.std.specs.Map.{keys_of};
ghost use Rattle.std.specs.Ordering.{nat_cmp};
ghost use Rattle.std.specs.BTreeMap.{get};
ghost use Rattle.lru.specs.LruCache.{IsValid};
ghost use Rattle.cdf_base.specs.Bytes.{put};
ghost use Rattle.cdf_area.specs.Calls.{Edits, Overwrites, Reads};
ghost use Rattle.cdf_area.specs.Frame.{Frame, with_base};
ghost use Rattle.cdf_store.specs.Disk.{Disk, file_of};
ghost use Rattle.cdf_store.specs.Unstored.{nothing};
ghost use Rattle.cdf_store.specs.declared.unstored.Unstored.{Unstored};
ghost use Rattle.cdf_pages.specs.Cached.{all_clean};
ghost use Rattle.cdf_pages.specs.Pages.{AllServe, Backed, TakesAtMost, image_of, is_in, was};
ghost use Rattle.cdf_base.specs.Causes.{HasCause, HasCauseOf};
ghost use Rattle.cdf_pages.specs.Saving.{Differs, FailsSaving, HasNothingToSave, HasSaveCause, Holds, IsChangedRange, IsSavedAlready, KeepsApart, Touches, tail_bytes};
ghost use Rattle.cdf_pages.specs.Standing.{Changes, ChangesSome, ReadsSome, cost_of_reading, cost_of_writing, pages_in, used_from};
ghost use Rattle.cdf_pages.specs.Table.{page_at};

use crate::cache::Cache;
use crate::in_pages::InPages;
use crate::owning::own_pages;
use crate::page::{PAGE, Page};
use crate::reading::read_range;
use crate::save_error::SaveError;
use crate::saving::{save_image, tail_slice};
use crate::settling::settle_pages;
use crate::sheets::Sheets;
use crate::writing::{write_range, zero_range};
use cdf_area::{Area, AreaError};
use cdf_store::{Failed, Store};
use std::alloc::{AllocFailed, Global};

/// An area over the file that is attached to a store, in pages of 65,536 bytes.
///
/// A page that is read is kept in a cache of 256 pages, and one that is written in a table until it is saved. So an edit costs
/// what it touches. A page that the store lends is not copied until it is written. Nothing is written to the store but by `save`.
#[derive(Drop)]
pub struct PagedArea<S: Store> {
    alloc: Global,
    store: S,
    sheets: Sheets,
    clean: Cache,
    limit: u64,
    /// How many bytes the file has.
    file_size: u64,
    /// Whether a write or a growth may have been made.
    edited: bool,
    ghost backed: { Backed (page_at sheets.changed) (length (file_of (S.disk store))) sheets.length },
    ghost base_backed: { (size : ℕ) → sheets.marked ≡ Some size → (size ≤ sheets.length) × Backed (λ number. was (get nat_cmp sheets.kept number) (page_at sheets.changed number)) (length (file_of (S.disk store))) size },
    ghost serves: { AllServe S.lends (page_at sheets.changed) (file_of (S.disk store)) sheets.length clean.entries },
    ghost measured: { file_size ≡ length (file_of (S.disk store)) },
    ghost valid: { IsValid nat_eq clean } by { Prim.hlevel props },
    ghost cap: { clean.cap ≡ 256 },
    ghost unedited: { edited ≡ false → (number : ℕ) → page_at sheets.changed number ≡ None },
}

impl<S: Store> PagedArea<S> {
    /// The whole file that is attached, which has so many bytes and may be longer than the limit, without a mark. Where there
    /// is no memory the store is handed back.
    pub fn over(
        alloc: Global,
        store: S,
        size: u64,
        limit: u64,
    ) -> Result<PagedArea<S>, AllocFailed<S>>
        requires { Some size ≡ option_map length (S.disk store).held }
        ensures image { IfOk result (λ area. Some (⟦<PagedArea<S> as Area>⟧.image area) ≡ (S.disk store).held) }
        ensures frame { IfOk result (λ area. ⟦<PagedArea<S> as Area>⟧.frame area ≡ record { base = None; limit = limit; under = (S.disk store, S.write_faults store, S.unstored store) }) }
        ensures faults { IfOk result (λ area. ⟦<PagedArea<S> as Area>⟧.faults area ≡ S.read_faults store) }
        ensures edited { IfOk result (λ area. ⟦<PagedArea<S> as Area>⟧.edited area ≡ false) }
        ensures none_changed { IfOk result (λ area. (number : ℕ) → ⟦<PagedArea<S> as InPages>⟧.changed area number ≡ false) }
        ensures none_clean { IfOk result (λ area. ⟦<PagedArea<S> as InPages>⟧.clean area ≡ []) }
        ensures taken { IfOk result (λ area. ⟦<PagedArea<S> as InPages>⟧.taken area ≡ S.taken store) }
        ensures handed_back { IfErr result (λ failed. failed.value ≡ store) }
    {
        PagedArea::new(alloc, store, size, size, limit)
    }

    /// An empty image over the store, whatever stands in the file that is attached, which has so many bytes, or none where there
    /// is none, without a mark. Where there is no memory the store is handed back.
    pub fn fresh(
        alloc: Global,
        store: S,
        size: u64,
        limit: u64,
    ) -> Result<PagedArea<S>, AllocFailed<S>>
        requires { size ≡ length (file_of (S.disk store)) }
        ensures image { IfOk result (λ area. ⟦<PagedArea<S> as Area>⟧.image area ≡ []) }
        ensures frame { IfOk result (λ area. ⟦<PagedArea<S> as Area>⟧.frame area ≡ record { base = None; limit = limit; under = (S.disk store, S.write_faults store, S.unstored store) }) }
        ensures faults { IfOk result (λ area. ⟦<PagedArea<S> as Area>⟧.faults area ≡ S.read_faults store) }
        ensures edited { IfOk result (λ area. ⟦<PagedArea<S> as Area>⟧.edited area ≡ false) }
        ensures none_changed { IfOk result (λ area. (number : ℕ) → ⟦<PagedArea<S> as InPages>⟧.changed area number ≡ false) }
        ensures none_clean { IfOk result (λ area. ⟦<PagedArea<S> as InPages>⟧.clean area ≡ []) }
        ensures taken { IfOk result (λ area. ⟦<PagedArea<S> as InPages>⟧.taken area ≡ S.taken store) }
        ensures handed_back { IfErr result (λ failed. failed.value ≡ store) }
    {
        PagedArea::new(alloc, store, size, 0, limit)
    }

    /// Makes the attached file the image and a tail behind it. Only changed pages are written, and the tail: first what lies past
    /// the end of the file, in ascending order, and then what lies before it. A file that is longer is cut at last. So where there is
    /// no room for the file to grow, none of its bytes is written over; then it is cut back, unless it was empty. A file that grew is
    /// stored before a byte of it is written over, and is cut back where that fails, or where the first such write does. Room for all
    /// writes is made first, which is the one want of memory.
    #[tactic(auto, using(crate::proofs::Images::image_size))]
    pub fn save(&mut self, tail: Option<[u8; 16]>) -> Result<(), SaveError>
        requires held { IsSome (⟦<PagedArea<S> as Area>⟧.frame self.old).under.0.held }
        requires unmarked { (⟦<PagedArea<S> as Area>⟧.frame self.old).base ≡ None }
        requires fits { length (⟦<PagedArea<S> as Area>⟧.image self.old) + 16 < 2 ^ 64 }
        ensures saved { OnOk result (Holds (⟦<PagedArea<S> as Area>⟧.frame self.old).under.0 (⟦<PagedArea<S> as Area>⟧.image self.old ++ tail_bytes tail) (⟦<PagedArea<S> as Area>⟧.frame self.new).under.0) }
        ensures failed { FailsSaving (⟦<PagedArea<S> as Area>⟧.frame self.old).under.0 (⟦<PagedArea<S> as Area>⟧.image self.old ++ tail_bytes tail) (⟦<PagedArea<S> as Area>⟧.frame self.new).under.0 result }
        ensures image { ⟦<PagedArea<S> as Area>⟧.image self.new ≡ ⟦<PagedArea<S> as Area>⟧.image self.old }
        ensures base { (⟦<PagedArea<S> as Area>⟧.frame self.new).base ≡ None }
        ensures limit { (⟦<PagedArea<S> as Area>⟧.frame self.new).limit ≡ (⟦<PagedArea<S> as Area>⟧.frame self.old).limit }
        ensures faults { ⟦<PagedArea<S> as Area>⟧.faults self.new ≡ ⟦<PagedArea<S> as Area>⟧.faults self.old }
        ensures cause { HasSaveCause (⟦<PagedArea<S> as Area>⟧.frame self.old).under.1 (⟦<PagedArea<S> as Area>⟧.frame self.new).under.1 result }
        // Then no page is a changed one. Nothing but changed pages and the tail was written, and nothing was read.
        ensures unchanged { OnOk result ((number : ℕ) → ⟦<PagedArea<S> as InPages>⟧.changed self.new number ≡ false) }
        ensures clean { ⟦<PagedArea<S> as InPages>⟧.clean self.new ≡ ⟦<PagedArea<S> as InPages>⟧.clean self.old }
        ensures taken { ⟦<PagedArea<S> as InPages>⟧.taken self.new ≡ ⟦<PagedArea<S> as InPages>⟧.taken self.old }
        ensures touched { Touches (IsChangedRange (⟦<PagedArea<S> as InPages>⟧.changed self.old) (length (⟦<PagedArea<S> as Area>⟧.image self.old)) (length (tail_bytes tail))) (⟦<PagedArea<S> as Area>⟧.frame self.old).under.0.touched (⟦<PagedArea<S> as Area>⟧.frame self.new).under.0.touched }
        // Nothing is written over or cut while a growth is not stored, unless the old bytes are kept.
        ensures apart { KeepsApart result (⟦<PagedArea<S> as Area>⟧.frame self.old).under.2 (⟦<PagedArea<S> as Area>⟧.frame self.new).under.2 }
        // Where no page is changed and the file is as long as it is to be, the store is not called.
        ensures not_called { HasNothingToSave (⟦<PagedArea<S> as InPages>⟧.changed self.old) (file_of (⟦<PagedArea<S> as Area>⟧.frame self.old).under.0) (⟦<PagedArea<S> as Area>⟧.image self.old) tail → (result ≡ Ok tt) × ((⟦<PagedArea<S> as Area>⟧.frame self.new).under ≡ (⟦<PagedArea<S> as Area>⟧.frame self.old).under) }
        ensures synced { HasNothingToSave (⟦<PagedArea<S> as InPages>⟧.changed self.old) (file_of (⟦<PagedArea<S> as Area>⟧.frame self.old).under.0) (⟦<PagedArea<S> as Area>⟧.image self.old) tail → ⟦<PagedArea<S> as InPages>⟧.synced self.new ≡ ⟦<PagedArea<S> as InPages>⟧.synced self.old }
        // So it is of a file that is the image as it stands.
        ensures untouched { IsSavedAlready (⟦<PagedArea<S> as Area>⟧.edited self.old) (file_of (⟦<PagedArea<S> as Area>⟧.frame self.old).under.0) (⟦<PagedArea<S> as Area>⟧.image self.old) tail → (⟦<PagedArea<S> as Area>⟧.frame self.new).under ≡ (⟦<PagedArea<S> as Area>⟧.frame self.old).under }
        ensures unfailed { IsSavedAlready (⟦<PagedArea<S> as Area>⟧.edited self.old) (file_of (⟦<PagedArea<S> as Area>⟧.frame self.old).under.0) (⟦<PagedArea<S> as Area>⟧.image self.old) tail → IsOk result }
    {
        if self.has_nothing_to_save(&tail) {
            return Ok(());
        }
        let bytes = tail_slice(&tail);
        let outcome = save_image(&mut self.store, &mut self.sheets, self.file_size, bytes);
        self.file_size = self.store.size();
        outcome
    }

    /// Drops each changed page whose bytes the file has there anyway, so that `save` does not write it. The file is read for that.
    #[tactic(auto, using(crate::proofs::Images::image_size))]
    pub fn settle(&mut self) -> Result<(), AreaError>
        requires held { IsSome (⟦<PagedArea<S> as Area>⟧.frame self.old).under.0.held }
        requires unmarked { (⟦<PagedArea<S> as Area>⟧.frame self.old).base ≡ None }
        ensures image { ⟦<PagedArea<S> as Area>⟧.image self.new ≡ ⟦<PagedArea<S> as Area>⟧.image self.old }
        ensures frame { ⟦<PagedArea<S> as Area>⟧.frame self.new ≡ ⟦<PagedArea<S> as Area>⟧.frame self.old }
        ensures edited { ⟦<PagedArea<S> as Area>⟧.edited self.new ≡ ⟦<PagedArea<S> as Area>⟧.edited self.old }
        ensures cause { HasCauseOf AreaError.Fault (⟦<PagedArea<S> as Area>⟧.faults self.old) (⟦<PagedArea<S> as Area>⟧.faults self.new) result }
        // No page becomes a changed one, and where all goes well each that is left has a byte that the file has not.
        ensures fewer { (number : ℕ) → IsTrue (⟦<PagedArea<S> as InPages>⟧.changed self.new number) → IsTrue (⟦<PagedArea<S> as InPages>⟧.changed self.old number) }
        ensures differs { OnOk result ((number : ℕ) → IsTrue (⟦<PagedArea<S> as InPages>⟧.changed self.new number) → Differs (file_of (⟦<PagedArea<S> as Area>⟧.frame self.old).under.0) (⟦<PagedArea<S> as Area>⟧.image self.old) number) }
        ensures clean { ⟦<PagedArea<S> as InPages>⟧.clean self.new ≡ ⟦<PagedArea<S> as InPages>⟧.clean self.old }
        // Of the file no more is read than it has in the changed pages of the image.
        ensures taken { TakesAtMost (⟦<PagedArea<S> as InPages>⟧.taken self.old) (⟦<PagedArea<S> as InPages>⟧.taken self.new) (cost_of_writing (λ number. not (⟦<PagedArea<S> as InPages>⟧.changed self.old number)) [] (length (file_of (⟦<PagedArea<S> as Area>⟧.frame self.old).under.0)) 0 (pages_in 0 (length (⟦<PagedArea<S> as Area>⟧.image self.old)))) }
    {
        settle_pages(
            self.alloc,
            &mut self.store,
            &mut self.sheets,
            self.file_size,
        )
    }

    /// Whether no page is changed, the file is not longer than the image, and no tail is to stand behind it.
    pub fn has_nothing_to_save(&self, tail: &Option<[u8; 16]>) -> bool
        ensures { IsTrue result ↔ HasNothingToSave (⟦<PagedArea<S> as InPages>⟧.changed self.now) (file_of (⟦<PagedArea<S> as Area>⟧.frame self.now).under.0) (⟦<PagedArea<S> as Area>⟧.image self.now) tail.now }
    {
        self.sheets.first().is_none() && tail.is_none() && self.file_size <= self.sheets.length
    }

    /// Has the attached file stored by the device as it stands.
    pub fn sync(&mut self) -> Result<(), Failed>
        requires held { IsSome (⟦<PagedArea<S> as Area>⟧.frame self.old).under.0.held }
        ensures synced { OnOk result (IsTrue (⟦<PagedArea<S> as InPages>⟧.synced self.new)) }
        ensures stored { OnOk result ((⟦<PagedArea<S> as Area>⟧.frame self.new).under.2 ≡ nothing) }
        ensures unstored { OnErr result ((⟦<PagedArea<S> as Area>⟧.frame self.new).under.2 ≡ (⟦<PagedArea<S> as Area>⟧.frame self.old).under.2) }
        ensures image { ⟦<PagedArea<S> as Area>⟧.image self.new ≡ ⟦<PagedArea<S> as Area>⟧.image self.old }
        ensures disk { (⟦<PagedArea<S> as Area>⟧.frame self.new).under.0 ≡ (⟦<PagedArea<S> as Area>⟧.frame self.old).under.0 }
        ensures base { (⟦<PagedArea<S> as Area>⟧.frame self.new).base ≡ (⟦<PagedArea<S> as Area>⟧.frame self.old).base }
        ensures limit { (⟦<PagedArea<S> as Area>⟧.frame self.new).limit ≡ (⟦<PagedArea<S> as Area>⟧.frame self.old).limit }
        ensures edited { ⟦<PagedArea<S> as Area>⟧.edited self.new ≡ ⟦<PagedArea<S> as Area>⟧.edited self.old }
        ensures faults { ⟦<PagedArea<S> as Area>⟧.faults self.new ≡ ⟦<PagedArea<S> as Area>⟧.faults self.old }
        ensures cause { HasCause (⟦<PagedArea<S> as Area>⟧.frame self.old).under.1 (⟦<PagedArea<S> as Area>⟧.frame self.new).under.1 result }
        ensures changed { ⟦<PagedArea<S> as InPages>⟧.changed self.new ≡ ⟦<PagedArea<S> as InPages>⟧.changed self.old }
        ensures clean { ⟦<PagedArea<S> as InPages>⟧.clean self.new ≡ ⟦<PagedArea<S> as InPages>⟧.clean self.old }
        ensures taken { ⟦<PagedArea<S> as InPages>⟧.taken self.new ≡ ⟦<PagedArea<S> as InPages>⟧.taken self.old }
    {
        self.store.sync()
    }

    /// Whether the image may be other than the front of the file.
    pub fn is_edited(&self) -> bool
        ensures unedited { ⟦<PagedArea<S> as Area>⟧.edited self.now ≡ false → result ≡ false }
        ensures front { result ≡ false → ⟦<PagedArea<S> as Area>⟧.image self.now ≡ take (length (⟦<PagedArea<S> as Area>⟧.image self.now)) (file_of (⟦<PagedArea<S> as Area>⟧.frame self.now).under.0) }
    {
        self.edited
    }

    /// The store beneath. What was changed is let go.
    pub fn into_store(self) -> S
        ensures disk { S.disk result ≡ (⟦<PagedArea<S> as Area>⟧.frame self).under.0 }
        ensures write { S.write_faults result ≡ (⟦<PagedArea<S> as Area>⟧.frame self).under.1 }
        ensures read { S.read_faults result ≡ ⟦<PagedArea<S> as Area>⟧.faults self }
        ensures synced { S.synced result ≡ ⟦<PagedArea<S> as InPages>⟧.synced self }
        ensures unstored { S.unstored result ≡ (⟦<PagedArea<S> as Area>⟧.frame self).under.2 }
    {
        self.store
    }

    /// The first `size` bytes of the file that is attached, which has `file_size` bytes.
    fn new(
        alloc: Global,
        store: S,
        file_size: u64,
        size: u64,
        limit: u64,
    ) -> Result<PagedArea<S>, AllocFailed<S>>
        requires file_size { file_size ≡ length (file_of (S.disk store)) }
        requires size { size ≤ file_size }
        ensures image { IfOk result (λ area. ⟦<PagedArea<S> as Area>⟧.image area ≡ take size (file_of (S.disk store))) }
        ensures frame { IfOk result (λ area. ⟦<PagedArea<S> as Area>⟧.frame area ≡ record { base = None; limit = limit; under = (S.disk store, S.write_faults store, S.unstored store) }) }
        ensures faults { IfOk result (λ area. ⟦<PagedArea<S> as Area>⟧.faults area ≡ S.read_faults store) }
        ensures edited { IfOk result (λ area. ⟦<PagedArea<S> as Area>⟧.edited area ≡ false) }
        ensures none_changed { IfOk result (λ area. (number : ℕ) → ⟦<PagedArea<S> as InPages>⟧.changed area number ≡ false) }
        ensures none_clean { IfOk result (λ area. ⟦<PagedArea<S> as InPages>⟧.clean area ≡ []) }
        ensures taken { IfOk result (λ area. ⟦<PagedArea<S> as InPages>⟧.taken area ≡ S.taken store) }
        ensures handed_back { IfErr result (λ failed. failed.value ≡ store) }
    {
        let Ok(clean) = Cache::new(alloc) else {
            return Err(AllocFailed { value: store });
        };
        let sheets = Sheets::new(alloc, size);
        Ok(PagedArea {
            alloc,
            store,
            sheets,
            clean,
            limit,
            file_size,
            edited: false,
        })
    }
}

impl<S: Store> InPages for PagedArea<S> {
    ghost changed = { λ a. is_in (page_at a.sheets.changed) };

    ghost marked = { λ a. is_in (λ number. was (get nat_cmp a.sheets.kept number) (page_at a.sheets.changed number)) };

    ghost clean = { λ a. keys_of a.clean.entries };

    ghost taken = { λ a. S.taken a.store };

    ghost synced = { λ a. S.synced a.store };

    ghost cached = { λ a. all_clean S.lends (page_at a.sheets.changed) (file_of (S.disk a.store)) a.sheets.length a.clean a.valid a.cap a.serves };
}

impl<S: Store> Area for PagedArea<S> {
    ghost image = { λ a. image_of (page_at a.sheets.changed) (file_of (S.disk a.store)) a.sheets.length };

    ghost Under = { Disk S.Under × ℕ × Unstored };

    ghost frame = { λ a. record {
      base = option_map (λ size. image_of (λ number. was (get nat_cmp a.sheets.kept number) (page_at a.sheets.changed number)) (file_of (S.disk a.store)) size) a.sheets.marked;
      limit = a.limit;
      under = (S.disk a.store, S.write_faults a.store, S.unstored a.store);
    } };

    ghost faults = { λ a. S.read_faults a.store };

    ghost edited = { λ a. a.edited };

    #[tactic(auto, using(crate::proofs::Images::image_size))]
    fn size(&self) -> u64 {
        self.sheets.length
    }

    fn limit(&self) -> u64 {
        self.limit
    }

    #[tactic(auto, using(crate::proofs::Images::image_size))]
    fn get(&mut self, place: u64, out: &mut [u8]) -> Result<(), AreaError>
        requires { place + length out.old ≤ length (⟦<PagedArea<S> as Area>⟧.image self.old) }
        ensures bytes { OnOk result (out.new ≡ take (length out.new) (drop place (⟦<PagedArea<S> as Area>⟧.image self.old))) }
        ensures area { Reads ⟦<PagedArea<S> as Area>⟧.image ⟦<PagedArea<S> as Area>⟧.frame ⟦<PagedArea<S> as Area>⟧.faults ⟦<PagedArea<S> as Area>⟧.edited self.old self.new result }
        // Its pages come to the front one after another, up to one that cannot be read, and only a missing one is read.
        ensures changed { ⟦<PagedArea<S> as InPages>⟧.changed self.new ≡ ⟦<PagedArea<S> as InPages>⟧.changed self.old }
        ensures used { OnOk result (⟦<PagedArea<S> as InPages>⟧.clean self.new ≡ used_from (⟦<PagedArea<S> as InPages>⟧.changed self.old) (place / 65536) (pages_in place (length out.old)) (⟦<PagedArea<S> as InPages>⟧.clean self.old)) }
        ensures some { OnErr result (ReadsSome (⟦<PagedArea<S> as InPages>⟧.changed self.old) (⟦<PagedArea<S> as InPages>⟧.clean self.old) (⟦<PagedArea<S> as InPages>⟧.clean self.new) place (length out.old)) }
        ensures taken { TakesAtMost (⟦<PagedArea<S> as InPages>⟧.taken self.old) (⟦<PagedArea<S> as InPages>⟧.taken self.new) (cost_of_reading (⟦<PagedArea<S> as InPages>⟧.changed self.old) (⟦<PagedArea<S> as InPages>⟧.clean self.old) (length (file_of (⟦<PagedArea<S> as Area>⟧.frame self.old).under.0)) (place / 65536) (pages_in place (length out.old))) }
    {
        read_range(
            self.alloc,
            &mut self.store,
            &self.sheets,
            &mut self.clean,
            place,
            out,
        )
    }

    #[tactic(auto, using(crate::proofs::Images::image_size))]
    fn set(&mut self, place: u64, bytes: &[u8]) -> Result<(), AreaError>
        requires { place + length bytes.now ≤ length (⟦<PagedArea<S> as Area>⟧.image self.old) }
        ensures written { OnOk result (⟦<PagedArea<S> as Area>⟧.image self.new ≡ put (⟦<PagedArea<S> as Area>⟧.image self.old) place bytes.now) }
        ensures area { Overwrites ⟦<PagedArea<S> as Area>⟧.image ⟦<PagedArea<S> as Area>⟧.frame ⟦<PagedArea<S> as Area>⟧.faults self.old self.new result }
        // Exactly the pages of the range become changed ones, and some of them at most where there is an error.
        ensures changes { OnOk result (Changes (⟦<PagedArea<S> as InPages>⟧.changed self.old) (⟦<PagedArea<S> as InPages>⟧.changed self.new) (⟦<PagedArea<S> as InPages>⟧.clean self.old) (⟦<PagedArea<S> as InPages>⟧.clean self.new) place (length bytes.now)) }
        ensures some { OnErr result (ChangesSome (⟦<PagedArea<S> as InPages>⟧.changed self.old) (⟦<PagedArea<S> as InPages>⟧.changed self.new) (⟦<PagedArea<S> as InPages>⟧.clean self.old) (⟦<PagedArea<S> as InPages>⟧.clean self.new) place (length bytes.now)) }
        ensures taken { TakesAtMost (⟦<PagedArea<S> as InPages>⟧.taken self.old) (⟦<PagedArea<S> as InPages>⟧.taken self.new) (cost_of_writing (⟦<PagedArea<S> as InPages>⟧.changed self.old) (⟦<PagedArea<S> as InPages>⟧.clean self.old) (length (file_of (⟦<PagedArea<S> as Area>⟧.frame self.old).under.0)) (place / 65536) (pages_in place (length bytes.now))) }
    {
        if bytes.is_empty() {
            return Ok(());
        }
        let _size = self.sheets.length;
        let from = place / PAGE;
        let upto = (place + (bytes.len() as u64 - 1)) / PAGE + 1;
        self.edited = true;
        let owned = own_pages(
            self.alloc,
            &mut self.store,
            &mut self.sheets,
            &mut self.clean,
            place,
            place + bytes.len() as u64,
            from,
            upto,
        );
        let _count = self.clean.len();
        owned?;
        write_range(&mut self.sheets, place, bytes);
        Ok(())
    }

    #[tactic(auto, using(crate::proofs::Images::image_size))]
    fn extend(&mut self, n: u64) -> Result<(), AreaError>
        requires { length (⟦<PagedArea<S> as Area>⟧.image self.old) + n ≤ (⟦<PagedArea<S> as Area>⟧.frame self.old).limit }
        ensures longer { OnOk result (⟦<PagedArea<S> as Area>⟧.image self.new ≡ ⟦<PagedArea<S> as Area>⟧.image self.old ++ replicate n 0) }
        ensures stays { OnErr result (⟦<PagedArea<S> as Area>⟧.image self.new ≡ ⟦<PagedArea<S> as Area>⟧.image self.old) }
        ensures area { Edits ⟦<PagedArea<S> as Area>⟧.frame ⟦<PagedArea<S> as Area>⟧.faults self.old self.new result }
        // Exactly the pages of the range become changed ones, and some of them at most where there is an error.
        ensures changes { OnOk result (Changes (⟦<PagedArea<S> as InPages>⟧.changed self.old) (⟦<PagedArea<S> as InPages>⟧.changed self.new) (⟦<PagedArea<S> as InPages>⟧.clean self.old) (⟦<PagedArea<S> as InPages>⟧.clean self.new) (length (⟦<PagedArea<S> as Area>⟧.image self.old)) n) }
        ensures some { OnErr result (ChangesSome (⟦<PagedArea<S> as InPages>⟧.changed self.old) (⟦<PagedArea<S> as InPages>⟧.changed self.new) (⟦<PagedArea<S> as InPages>⟧.clean self.old) (⟦<PagedArea<S> as InPages>⟧.clean self.new) (length (⟦<PagedArea<S> as Area>⟧.image self.old)) n) }
        ensures taken { TakesAtMost (⟦<PagedArea<S> as InPages>⟧.taken self.old) (⟦<PagedArea<S> as InPages>⟧.taken self.new) (cost_of_writing (⟦<PagedArea<S> as InPages>⟧.changed self.old) (⟦<PagedArea<S> as InPages>⟧.clean self.old) (length (file_of (⟦<PagedArea<S> as Area>⟧.frame self.old).under.0)) ((length (⟦<PagedArea<S> as Area>⟧.image self.old)) / 65536) (pages_in (length (⟦<PagedArea<S> as Area>⟧.image self.old)) n)) }
    {
        if n == 0 {
            return Ok(());
        }
        let _limit = self.limit;
        let place = self.sheets.length;
        let from = place / PAGE;
        let upto = (place + (n - 1)) / PAGE + 1;
        self.edited = true;
        let owned = own_pages(
            self.alloc,
            &mut self.store,
            &mut self.sheets,
            &mut self.clean,
            place,
            place + n,
            from,
            upto,
        );
        let _count = self.clean.len();
        owned?;
        zero_range(&mut self.sheets, n);
        Ok(())
    }

    #[tactic(auto, using(crate::proofs::Images::image_size))]
    fn shorten(&mut self, n: u64)
        requires room { n ≤ length (⟦<PagedArea<S> as Area>⟧.image self.old) }
        requires unmarked { (⟦<PagedArea<S> as Area>⟧.frame self.old).base ≡ None }
        ensures shorter { ⟦<PagedArea<S> as Area>⟧.image self.new ≡ take (length (⟦<PagedArea<S> as Area>⟧.image self.old) - n) (⟦<PagedArea<S> as Area>⟧.image self.old) }
        ensures frame { ⟦<PagedArea<S> as Area>⟧.frame self.new ≡ ⟦<PagedArea<S> as Area>⟧.frame self.old }
        ensures edited { ⟦<PagedArea<S> as Area>⟧.edited self.new ≡ ⟦<PagedArea<S> as Area>⟧.edited self.old }
        ensures faults { ⟦<PagedArea<S> as Area>⟧.faults self.new ≡ ⟦<PagedArea<S> as Area>⟧.faults self.old }
        ensures changed { ⟦<PagedArea<S> as InPages>⟧.changed self.new ≡ ⟦<PagedArea<S> as InPages>⟧.changed self.old }
        ensures clean { ⟦<PagedArea<S> as InPages>⟧.clean self.new ≡ ⟦<PagedArea<S> as InPages>⟧.clean self.old }
        ensures taken { ⟦<PagedArea<S> as InPages>⟧.taken self.new ≡ ⟦<PagedArea<S> as InPages>⟧.taken self.old }
    {
        self.sheets.length -= n;
    }

    fn mark(&mut self)
        ensures image { ⟦<PagedArea<S> as Area>⟧.image self.new ≡ ⟦<PagedArea<S> as Area>⟧.image self.old }
        ensures frame { ⟦<PagedArea<S> as Area>⟧.frame self.new ≡ with_base (⟦<PagedArea<S> as Area>⟧.frame self.old) (Some (⟦<PagedArea<S> as Area>⟧.image self.old)) }
        ensures edited { ⟦<PagedArea<S> as Area>⟧.edited self.new ≡ ⟦<PagedArea<S> as Area>⟧.edited self.old }
        ensures faults { ⟦<PagedArea<S> as Area>⟧.faults self.new ≡ ⟦<PagedArea<S> as Area>⟧.faults self.old }
        ensures marked { (number : ℕ) → ⟦<PagedArea<S> as InPages>⟧.marked self.new number ≡ ⟦<PagedArea<S> as InPages>⟧.changed self.old number }
        ensures changed { ⟦<PagedArea<S> as InPages>⟧.changed self.new ≡ ⟦<PagedArea<S> as InPages>⟧.changed self.old }
        ensures clean { ⟦<PagedArea<S> as InPages>⟧.clean self.new ≡ ⟦<PagedArea<S> as InPages>⟧.clean self.old }
        ensures taken { ⟦<PagedArea<S> as InPages>⟧.taken self.new ≡ ⟦<PagedArea<S> as InPages>⟧.taken self.old }
    {
        self.sheets.mark();
    }

    fn keep(&mut self)
        requires { IsSome (⟦<PagedArea<S> as Area>⟧.frame self.old).base }
        ensures image { ⟦<PagedArea<S> as Area>⟧.image self.new ≡ ⟦<PagedArea<S> as Area>⟧.image self.old }
        ensures frame { ⟦<PagedArea<S> as Area>⟧.frame self.new ≡ with_base (⟦<PagedArea<S> as Area>⟧.frame self.old) None }
        ensures edited { ⟦<PagedArea<S> as Area>⟧.edited self.new ≡ ⟦<PagedArea<S> as Area>⟧.edited self.old }
        ensures faults { ⟦<PagedArea<S> as Area>⟧.faults self.new ≡ ⟦<PagedArea<S> as Area>⟧.faults self.old }
        ensures changed { ⟦<PagedArea<S> as InPages>⟧.changed self.new ≡ ⟦<PagedArea<S> as InPages>⟧.changed self.old }
        ensures clean { ⟦<PagedArea<S> as InPages>⟧.clean self.new ≡ ⟦<PagedArea<S> as InPages>⟧.clean self.old }
        ensures taken { ⟦<PagedArea<S> as InPages>⟧.taken self.new ≡ ⟦<PagedArea<S> as InPages>⟧.taken self.old }
    {
        self.sheets.keep();
    }

    fn undo(&mut self)
        requires { IsSome (⟦<PagedArea<S> as Area>⟧.frame self.old).base }
        ensures image { (⟦<PagedArea<S> as Area>⟧.frame self.old).base ≡ Some (⟦<PagedArea<S> as Area>⟧.image self.new) }
        ensures frame { ⟦<PagedArea<S> as Area>⟧.frame self.new ≡ with_base (⟦<PagedArea<S> as Area>⟧.frame self.old) None }
        ensures edited { ⟦<PagedArea<S> as Area>⟧.edited self.new ≡ ⟦<PagedArea<S> as Area>⟧.edited self.old }
        ensures faults { ⟦<PagedArea<S> as Area>⟧.faults self.new ≡ ⟦<PagedArea<S> as Area>⟧.faults self.old }
        ensures changed { (number : ℕ) → ⟦<PagedArea<S> as InPages>⟧.changed self.new number ≡ ⟦<PagedArea<S> as InPages>⟧.marked self.old number }
        ensures clean { ⟦<PagedArea<S> as InPages>⟧.clean self.new ≡ ⟦<PagedArea<S> as InPages>⟧.clean self.old }
        ensures taken { ⟦<PagedArea<S> as InPages>⟧.taken self.new ≡ ⟦<PagedArea<S> as InPages>⟧.taken self.old }
    {
        self.sheets.undo();
    }
}
