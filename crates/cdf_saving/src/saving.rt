//! The image of a run is saved to the file that is attached.

ghost use Rattle.std.specs.Prelude.{◌≡◌, ◌≤◌, ℕ, length, take, true, false, IsSome, IsTrue, None};
ghost use Rattle.cdf_format.specs.Sealed.{sealed, trailer};
ghost use Rattle.cdf_model.specs.Limits.{image_limit};
ghost use Rattle.cdf_pages.specs.Saving.{Differs, tail_bytes};
ghost use Rattle.cdf_saving.specs.Counts.{ReadsCounted, WritesCounted};
ghost use Rattle.cdf_saving.specs.Refusing.{was_refused};
ghost use Rattle.cdf_saving.specs.Saved.{EndsSaving, LeavesApart, TellsLeft};
ghost use Rattle.cdf_saving.specs.Statuses.{IsDone, status_of};
ghost use Rattle.cdf_store.specs.Disk.{file_of};
ghost use Rattle.cdf_store.specs.Unstored.{nothing};

use crate::ended::Ended;
use crate::notes::{Left, Notes};
use crate::refusals::Refusals;
use crate::status::{Status, area_status, end_status};
use cdf_area::Area;
use cdf_pages::{InPages, PagedArea, SaveError};
use cdf_store::{Failed, Store};

/// Whether the file that is attached is the image, sealed, already: it was opened, and not edited.
pub fn is_saved<S: Store>(new: bool, area: &PagedArea<S>) -> bool
    ensures opened { result ≡ true → new ≡ false }
    ensures front { result ≡ true → ⟦<PagedArea<S> as Area>⟧.image area.now ≡ take (length (⟦<PagedArea<S> as Area>⟧.image area.now)) (file_of (⟦<PagedArea<S> as Area>⟧.frame area.now).under.0) }
    ensures unedited { new ≡ false → ⟦<PagedArea<S> as Area>⟧.edited area.now ≡ false → result ≡ true }
{
    !new && !area.is_edited()
}

/// Writes the image to the file that is attached, and behind it its checksum, where it has one, and has the file stored, also where
/// there was nothing to write. Each changed page differs from the file.
fn write<S: Store>(refusals: Refusals, area: PagedArea<S>, seal: Option<[u8; 16]>) -> Ended<S>
    requires held { IsSome (⟦<PagedArea<S> as Area>⟧.frame area).under.0.held }
    requires fits { length (⟦<PagedArea<S> as Area>⟧.image area) ≤ image_limit }
    requires unmarked { (⟦<PagedArea<S> as Area>⟧.frame area).base ≡ None }
    requires seal { tail_bytes seal ≡ trailer (⟦<PagedArea<S> as Area>⟧.image area) }
    requires settled { (number : ℕ) → IsTrue (⟦<PagedArea<S> as InPages>⟧.changed area number) → Differs (file_of (⟦<PagedArea<S> as Area>⟧.frame area).under.0) (⟦<PagedArea<S> as Area>⟧.image area) number }
    ensures ends { EndsSaving (was_refused refusals) (⟦<PagedArea<S> as Area>⟧.image area) (⟦<PagedArea<S> as Area>⟧.frame area).under.0 (S.disk result.store) result.status }
    ensures untold { result.notes.broken ≡ None }
    ensures replaced { result.notes.replaced ≡ 0 }
    ensures left { TellsLeft result.notes.left (file_of (⟦<PagedArea<S> as Area>⟧.frame area).under.0) (sealed (⟦<PagedArea<S> as Area>⟧.image area)) (file_of (S.disk result.store)) result.status }
    ensures refusals { IsDone result.status → result.status ≡ status_of (was_refused result.notes.refusals) }
    ensures synced { IsDone result.status → IsTrue (S.synced result.store) }
    ensures stored { IsDone result.status → S.unstored result.store ≡ nothing }
    ensures apart { LeavesApart result.notes.left (⟦<PagedArea<S> as Area>⟧.frame area).under.2 (S.unstored result.store) }
    ensures reads { ReadsCounted (⟦<PagedArea<S> as Area>⟧.faults area) (S.read_faults result.store) result.status }
    ensures writes { WritesCounted (⟦<PagedArea<S> as Area>⟧.frame area).under.1 (S.write_faults result.store) result.status }
{
    let mut area = area;
    match area.save(seal) {
        Ok(()) => match area.sync() {
            Ok(()) => Ended {
                status: end_status(refusals),
                notes: Notes::of_script(refusals),
                store: area.into_store(),
            },
            Err(Failed) => Ended {
                status: Status::StoreWriteFault,
                notes: Notes::of_saving(refusals, Left::Unsynced),
                store: area.into_store(),
            },
        },
        Err(SaveError::Failed { kept }) => {
            let left = if kept { Left::Old } else { Left::Part };
            Ended {
                status: Status::StoreWriteFault,
                notes: Notes::of_saving(refusals, left),
                store: area.into_store(),
            }
        }
        Err(SaveError::NoMemory) => Ended {
            status: Status::NoMemory,
            notes: Notes::none(),
            store: area.into_store(),
        },
    }
}

/// Saves the image to the file that is attached, and behind it its checksum, where it has one. Of its pages those alone are written
/// that differ from the file, which is read for that. The file is stored also where none does: so a run that repeats one that could
/// not store the file asks for that again.
pub fn save<S: Store>(refusals: Refusals, area: PagedArea<S>, seal: Option<[u8; 16]>) -> Ended<S>
    requires held { IsSome (⟦<PagedArea<S> as Area>⟧.frame area).under.0.held }
    requires fits { length (⟦<PagedArea<S> as Area>⟧.image area) ≤ image_limit }
    requires unmarked { (⟦<PagedArea<S> as Area>⟧.frame area).base ≡ None }
    requires seal { tail_bytes seal ≡ trailer (⟦<PagedArea<S> as Area>⟧.image area) }
    ensures ends { EndsSaving (was_refused refusals) (⟦<PagedArea<S> as Area>⟧.image area) (⟦<PagedArea<S> as Area>⟧.frame area).under.0 (S.disk result.store) result.status }
    ensures untold { result.notes.broken ≡ None }
    ensures replaced { result.notes.replaced ≡ 0 }
    ensures left { TellsLeft result.notes.left (file_of (⟦<PagedArea<S> as Area>⟧.frame area).under.0) (sealed (⟦<PagedArea<S> as Area>⟧.image area)) (file_of (S.disk result.store)) result.status }
    ensures refusals { IsDone result.status → result.status ≡ status_of (was_refused result.notes.refusals) }
    ensures synced { IsDone result.status → IsTrue (S.synced result.store) }
    ensures stored { IsDone result.status → S.unstored result.store ≡ nothing }
    ensures apart { LeavesApart result.notes.left (⟦<PagedArea<S> as Area>⟧.frame area).under.2 (S.unstored result.store) }
    ensures reads { ReadsCounted (⟦<PagedArea<S> as Area>⟧.faults area) (S.read_faults result.store) result.status }
    ensures writes { WritesCounted (⟦<PagedArea<S> as Area>⟧.frame area).under.1 (S.write_faults result.store) result.status }
{
    let mut area = area;
    match area.settle() {
        Ok(()) => write(refusals, area, seal),
        Err(error) => Ended {
            status: area_status(error),
            notes: Notes::none(),
            store: area.into_store(),
        },
    }
}
