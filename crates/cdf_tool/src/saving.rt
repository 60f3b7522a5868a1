//! A run over the file that is attached ends, and its image is saved.

ghost use Rattle.std.specs.Prelude.{◌≡◌, ◌≢◌, ◌≤◌, ◌⊎◌, length, true, false, IsSome, IsTrue, IfOk, IfErr, IsErrOf, OnOk, None};
ghost use Rattle.cdf_format.specs.Sealed.{sealed};
ghost use Rattle.cdf_format.specs.WellFormed.{Good, WellFormed};
ghost use Rattle.cdf_model.specs.Limits.{image_limit};
ghost use Rattle.cdf_store.specs.Disk.{file_of};
ghost use Rattle.cdf_saving.specs.Counts.{ReadsCounted, ReadsCountedBehind, WritesCounted};
ghost use Rattle.cdf_saving.specs.Refusing.{was_refused};
ghost use Rattle.cdf_saving.specs.Saved.{EndsSaving, LeavesApart, TellsLeft};
ghost use Rattle.cdf_store.specs.Unstored.{nothing};
ghost use Rattle.cdf_saving.specs.Statuses.{IsDone, status_of};
ghost use Rattle.cdf_tool.specs.Areas.{EndsStored};

use crate::opened::Ran;
use cdf_area::Area;
use cdf_pages::{InPages, PagedArea};
use cdf_saving::{Ended, Notes, Refusals, Status, area_status, end_status, is_saved, save};
use cdf_session::read_seal;
use cdf_store::Store;

/// Makes the checksum of the image, where one is in use, and saves the two.
fn seal_and_save<S: Store>(refusals: Refusals, area: PagedArea<S>) -> Ended<S>
    requires good { Good (⟦<PagedArea<S> as Area>⟧.image area) }
    requires held { IsSome (⟦<PagedArea<S> as Area>⟧.frame area).under.0.held }
    requires fits { length (⟦<PagedArea<S> as Area>⟧.image area) ≤ image_limit }
    requires unmarked { (⟦<PagedArea<S> as Area>⟧.frame area).base ≡ None }
    ensures ends { EndsSaving (was_refused refusals) (⟦<PagedArea<S> as Area>⟧.image area) (⟦<PagedArea<S> as Area>⟧.frame area).under.0 (S.disk result.store) result.status }
    ensures untold { result.notes.broken ≡ None }
    ensures replaced { result.notes.replaced ≡ 0 }
    ensures left { TellsLeft result.notes.left (file_of (⟦<PagedArea<S> as Area>⟧.frame area).under.0) (sealed (⟦<PagedArea<S> as Area>⟧.image area)) (file_of (S.disk result.store)) result.status }
    ensures refusals { IsDone result.status → result.status ≡ status_of (was_refused result.notes.refusals) }
    ensures synced { IsDone result.status → IsTrue (S.synced result.store) }
    ensures stored { IsDone result.status → S.unstored result.store ≡ nothing }
    ensures apart { LeavesApart result.notes.left (⟦<PagedArea<S> as Area>⟧.frame area).under.2 (S.unstored result.store) }
    ensures reads { ReadsCounted (⟦<PagedArea<S> as Area>⟧.faults area) (S.read_faults result.store) result.status }
    ensures writes { WritesCounted (⟦<PagedArea<S> as Area>⟧.frame area).under.1 (S.write_faults result.store) result.status }
{
    let mut area = area;
    match read_seal(&mut area) {
        Ok(seal) => save(refusals, area, seal),
        Err(error) => Ended {
            status: area_status(error),
            notes: Notes::none(),
            store: area.into_store(),
        },
    }
}

/// Ends a run over the file that is attached, and saves the image unless the run stopped, that is not asked for or it is saved already.
pub fn finish<S: Store>(new: bool, no_save: bool, ran: Ran<PagedArea<S>>) -> Ended<S>
    requires good { IfOk ran.outcome (λ _. Good (⟦<PagedArea<S> as Area>⟧.image ran.area)) }
    requires fits { IfOk ran.outcome (λ _. length (⟦<PagedArea<S> as Area>⟧.image ran.area) ≤ image_limit) }
    requires unmarked { (⟦<PagedArea<S> as Area>⟧.frame ran.area).base ≡ None }
    requires held { IsSome (⟦<PagedArea<S> as Area>⟧.frame ran.area).under.0.held }
    requires opened { new ≡ false → IfOk ran.outcome (λ _. WellFormed (file_of (⟦<PagedArea<S> as Area>⟧.frame ran.area).under.0)) }
    requires no_write { IsErrOf ran.outcome Status.StoreWriteFault → ⊥ }
    requires not_done { IfErr ran.outcome (λ status. IsDone status → ⊥) }
    requires untold { IfOk ran.outcome (λ _. ran.broken ≡ None) }
    ensures told { result.notes.broken ≡ ran.broken }
    ensures replaced { result.notes.replaced ≡ 0 }
    ensures ends { EndsStored no_save (⟦<PagedArea<S> as Area>⟧.image ran.area) (⟦<PagedArea<S> as Area>⟧.frame ran.area).under.0 (S.disk result.store) ran.outcome result.status }
    ensures left { TellsLeft result.notes.left (file_of (⟦<PagedArea<S> as Area>⟧.frame ran.area).under.0) (sealed (⟦<PagedArea<S> as Area>⟧.image ran.area)) (file_of (S.disk result.store)) result.status }
    ensures refusals { IsDone result.status → result.status ≡ status_of (was_refused result.notes.refusals) }
    ensures synced { IsDone result.status → (S.disk result.store ≡ (⟦<PagedArea<S> as Area>⟧.frame ran.area).under.0) ⊎ IsTrue (S.synced result.store) }
    ensures new_synced { IsDone result.status → new ≡ true → no_save ≡ false → IsTrue (S.synced result.store) }
    ensures stored { IsDone result.status → (⟦<PagedArea<S> as Area>⟧.frame ran.area).under.2 ≡ nothing → S.unstored result.store ≡ nothing }
    ensures apart { LeavesApart result.notes.left (⟦<PagedArea<S> as Area>⟧.frame ran.area).under.2 (S.unstored result.store) }
    ensures reads { ReadsCountedBehind ran.outcome (⟦<PagedArea<S> as Area>⟧.faults ran.area) (S.read_faults result.store) result.status }
    ensures writes { WritesCounted (⟦<PagedArea<S> as Area>⟧.frame ran.area).under.1 (S.write_faults result.store) result.status }
    ensures unmoved { new ≡ false → OnOk ran.outcome (⟦<PagedArea<S> as Area>⟧.edited ran.area ≡ false) → (S.disk result.store ≡ (⟦<PagedArea<S> as Area>⟧.frame ran.area).under.0) × (result.status ≢ Status.StoreWriteFault) }
{
    let Ran {
        area,
        outcome,
        broken,
    } = ran;
    match outcome {
        Ok(refusals) => {
            if no_save || is_saved(new, &area) {
                Ended {
                    status: end_status(refusals),
                    notes: Notes::of_script(refusals),
                    store: area.into_store(),
                }
            } else {
                seal_and_save(refusals, area)
            }
        }
        Err(status) => Ended {
            status,
            notes: Notes::of_verdict(broken),
            store: area.into_store(),
        },
    }
}
