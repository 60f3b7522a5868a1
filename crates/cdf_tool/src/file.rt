//! The file that is asked for is attached, and the script is run over it.

ghost use Rattle.std.specs.Prelude.{◌≡◌, ◌≢◌, ◌&&◌, ◌⊎◌, ℕ, [], true, false, length, map, IfErr, IfOk, IfSome, IsTrue, Some, None, not};
ghost use Rattle.std.specs.Option.{option_map};
ghost use Rattle.cdf_area.specs.Frame.{Frame};
ghost use Rattle.cdf_store.specs.Disk.{file_in, file_of};
ghost use Rattle.cdf_store.specs.Named.{Allows, lookup};
ghost use Rattle.cdf_store.specs.Unstored.{nothing};
ghost use Rattle.cdf_model.specs.Limits.{image_limit};
ghost use Rattle.cdf_saving.specs.Counts.{Counted, counts};
ghost use Rattle.cdf_saving.specs.Refusing.{was_refused};
ghost use Rattle.cdf_saving.specs.Saved.{LeavesApart};
ghost use Rattle.cdf_saving.specs.Statuses.{IsDone, replaced_by, status_of};
ghost use Rattle.cdf_words.specs.Asking.{asked_for};
ghost use Rattle.cdf_tool.specs.Areas.{EndsAttached, EndsInMemory};
ghost use Rattle.cdf_tool.specs.Due.{Untouched};
ghost use Rattle.cdf_tool.specs.Ends.{EndsNamed, SpoilsTo};
ghost use Rattle.cdf_tool.specs.Outlets.{with_taps};
ghost use Rattle.cdf_tool.specs.Says.{Tells};

use crate::opened::run_area;
use crate::saving::finish;
use crate::say::say_no_file;
use cdf_area::{Area, MemArea};
use cdf_model::limits::IMAGE_LIMIT;
use cdf_pages::PagedArea;
use cdf_saving::{Ended, Notes, Status, end_status};
use cdf_store::{AttachError, Sink, Source, Store};
use cdf_tap::Tap;
use cdf_words::Asked;
use std::alloc::{AllocFailed, Global};

/// An area over the file that is attached, which has so many bytes: over its image, or over an empty one. Where there is no memory
/// the store is handed back.
fn area_over<S: Store>(
    alloc: Global,
    new: bool,
    store: S,
    size: u64,
) -> Result<PagedArea<S>, AllocFailed<S>>
    requires { Some size ≡ option_map length (S.disk store).held }
    ensures image { new ≡ false → IfOk result (λ area. ⟦<PagedArea<S> as Area>⟧.image area ≡ file_of (S.disk store)) }
    ensures empty { new ≡ true → IfOk result (λ area. ⟦<PagedArea<S> as Area>⟧.image area ≡ []) }
    ensures frame { IfOk result (λ area. ⟦<PagedArea<S> as Area>⟧.frame area ≡ record { base = None; limit = image_limit; under = (S.disk store, S.write_faults store, S.unstored store) }) }
    ensures faults { IfOk result (λ area. ⟦<PagedArea<S> as Area>⟧.faults area ≡ S.read_faults store) }
    ensures unedited { new ≡ false → IfOk result (λ area. ⟦<PagedArea<S> as Area>⟧.edited area ≡ false) }
    ensures handed_back { IfErr result (λ failed. failed.value ≡ store) }
{
    if new {
        PagedArea::fresh(alloc, store, size, IMAGE_LIMIT)
    } else {
        PagedArea::over(alloc, store, size, IMAGE_LIMIT)
    }
}

/// Runs the script over the file that is attached, which has so many bytes, or over a new one in its place.
fn run_attached<S: Store, I: Source, O: Sink>(
    alloc: Global,
    asked: &Asked<'_>,
    store: S,
    size: u64,
    script: &mut I,
    out: &mut O,
    taps: &mut Vec<Box<dyn Tap>>,
) -> Ended<S>
    requires { Some size ≡ option_map length (S.disk store).held }
    ensures ends { EndsAttached asked.now.new asked.now.no_save asked.now.space (file_of (S.disk store)) (S.disk store) (S.disk result.store) (I.left script.old) (I.left script.new) (with_taps (O.written out.old) (map (λ tap. meaning tap) taps.old.items)) (with_taps (O.written out.new) (map (λ tap. meaning tap) taps.new.items)) result.notes.left result.status }
    ensures told { Tells result.notes.broken (S.disk result.store).held (O.written out.old) (O.written out.new) result.status }
    ensures none_left { result.status ≢ Status.StoreWriteFault → result.notes.left ≡ None }
    ensures replaced { result.notes.replaced ≡ 0 }
    ensures refusals { IsDone result.status → result.status ≡ status_of (was_refused result.notes.refusals) }
    ensures synced { IsDone result.status → (S.disk result.store ≡ S.disk store) ⊎ IsTrue (S.synced result.store) }
    ensures new_synced { IsDone result.status → asked.now.new ≡ true → asked.now.no_save ≡ false → IsTrue (S.synced result.store) }
    ensures stored { IsDone result.status → S.unstored store ≡ nothing → S.unstored result.store ≡ nothing }
    ensures apart { LeavesApart result.notes.left (S.unstored store) (S.unstored result.store) }
    ensures counted { Counted (counts (S.read_faults store) (S.write_faults store) (O.faults out.old) (I.faults script.old)) (counts (S.read_faults result.store) (S.write_faults result.store) (O.faults out.new) (I.faults script.new)) result.status }
{
    match area_over(alloc, asked.new, store, size) {
        Ok(area) => {
            let ran = run_area(alloc, asked.new, asked.space, area, script, out, taps);
            finish(asked.new, asked.no_save, ran)
        }
        Err(failed) => Ended {
            status: Status::NoMemory,
            notes: Notes::none(),
            store: failed.value,
        },
    }
}

/// Runs the script over a new file in memory, which is not saved.
fn run_in_memory<S: Store, I: Source, O: Sink>(
    alloc: Global,
    space: bool,
    store: S,
    script: &mut I,
    out: &mut O,
    taps: &mut Vec<Box<dyn Tap>>,
) -> Ended<S>
    ensures ends { EndsInMemory space (I.left script.old) (I.left script.new) (with_taps (O.written out.old) (map (λ tap. meaning tap) taps.old.items)) (with_taps (O.written out.new) (map (λ tap. meaning tap) taps.new.items)) result.status }
    ensures told { result.status ≢ Status.Rejected }
    ensures untold { result.notes.broken ≡ None }
    ensures left { result.notes.left ≡ None }
    ensures not_saved { result.status ≢ Status.StoreWriteFault }
    ensures replaced { result.notes.replaced ≡ 0 }
    ensures refusals { IsDone result.status → result.status ≡ status_of (was_refused result.notes.refusals) }
    ensures counted { (reads writes : ℕ) → Counted (counts reads writes (O.faults out.old) (I.faults script.old)) (counts reads writes (O.faults out.new) (I.faults script.new)) result.status }
    ensures store { result.store ≡ store }
{
    let area = MemArea::new(alloc, Vec::new(alloc), IMAGE_LIMIT);
    let ran = run_area(alloc, true, space, area, script, out, taps);
    match ran.outcome {
        Ok(refusals) => Ended {
            status: end_status(refusals),
            notes: Notes::of_script(refusals),
            store,
        },
        Err(status) => Ended {
            status,
            notes: Notes::none(),
            store,
        },
    }
}

/// Whether the run goes over a new file that is not saved, for which the store is not called.
fn is_in_memory(asked: &Asked<'_>) -> bool
    ensures { result ≡ (asked.now.new && asked.now.no_save) }
{
    asked.new && asked.no_save
}

/// Notes how many bytes a new file took the place of, where it was saved.
fn note_replaced<S: Store>(new: bool, size: u64, ended: Ended<S>) -> Ended<S>
    requires { ended.notes.replaced ≡ 0 }
    ensures replaced { result.notes.replaced ≡ replaced_by new size ended.status }
    ensures status { result.status ≡ ended.status }
    ensures broken { result.notes.broken ≡ ended.notes.broken }
    ensures left { result.notes.left ≡ ended.notes.left }
    ensures refusals { result.notes.refusals ≡ ended.notes.refusals }
    ensures store { result.store ≡ ended.store }
{
    let mut ended = ended;
    if new && ended.status.is_done() {
        ended.notes.replaced = size;
    }
    ended
}

/// Attaches the file that is asked for, and runs the script over it.
pub fn run_file<S: Store, I: Source, O: Sink>(
    alloc: Global,
    asked: &Asked<'_>,
    store: S,
    script: &mut I,
    out: &mut O,
    taps: &mut Vec<Box<dyn Tap>>,
) -> Ended<S>
    requires free { (S.disk store).held ≡ None }
    requires allowed { Allows (S.disk store).only asked.now.name.now }
    ensures ends { EndsNamed (asked_for asked.now) (S.disk store) (S.disk result.store) (I.left script.old) (I.left script.new) (with_taps (O.written out.old) (map (λ tap. meaning tap) taps.old.items)) (with_taps (O.written out.new) (map (λ tap. meaning tap) taps.new.items)) result.status }
    ensures told { Tells result.notes.broken (S.disk result.store).held (O.written out.old) (O.written out.new) result.status }
    ensures counted { Counted (counts (S.read_faults store) (S.write_faults store) (O.faults out.old) (I.faults script.old)) (counts (S.read_faults result.store) (S.write_faults result.store) (O.faults out.new) (I.faults script.new)) result.status }
    ensures left { result.status ≡ Status.StoreWriteFault → SpoilsTo (asked_for asked.now) (S.disk store) (S.disk result.store) (I.left script.old) (I.left script.new) (with_taps (O.written out.old) (map (λ tap. meaning tap) taps.old.items)) (with_taps (O.written out.new) (map (λ tap. meaning tap) taps.new.items)) result.notes.left }
    ensures none_left { result.status ≢ Status.StoreWriteFault → result.notes.left ≡ None }
    ensures replaced { IfSome (S.disk store).files (λ files. result.notes.replaced ≡ replaced_by (asked.now.new && not asked.now.no_save) (length (file_in (lookup asked.now.name.now files))) result.status) }
    ensures refusals { IsDone result.status → result.status ≡ status_of (was_refused result.notes.refusals) }
    ensures synced { IsDone result.status → Untouched (asked_for asked.now) (S.disk store) (S.disk result.store) ⊎ IsTrue (S.synced result.store) }
    ensures new_synced { IsDone result.status → asked.now.new ≡ true → asked.now.no_save ≡ false → IsTrue (S.synced result.store) }
    ensures stored { IsDone result.status → S.unstored store ≡ nothing → S.unstored result.store ≡ nothing }
    ensures apart { LeavesApart result.notes.left (S.unstored store) (S.unstored result.store) }
    ensures not_called { (asked.now.new && asked.now.no_save) ≡ true → result.store ≡ store }
{
    if is_in_memory(asked) {
        return run_in_memory(alloc, asked.space, store, script, out, taps);
    }
    let mut store = store;
    match store.attach(asked.name, asked.new) {
        Ok(Some(size)) => {
            let ended = run_attached(alloc, asked, store, size, script, out, taps);
            note_replaced(asked.new, size, ended)
        }
        Ok(None) => {
            let status = say_no_file(out);
            Ended {
                status,
                notes: Notes::none(),
                store,
            }
        }
        Err(AttachError::Failed) => Ended {
            status: Status::StoreReadFault,
            notes: Notes::none(),
            store,
        },
        Err(AttachError::NoMemory) => Ended {
            status: Status::NoMemory,
            notes: Notes::none(),
            store,
        },
    }
}
