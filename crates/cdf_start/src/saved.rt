//! What a run left in memory is saved through the log.

ghost use Rattle.std.specs.Prelude.{◌≡◌};
ghost use Rattle.cdf_journal.specs.Crashes.{LeavesOnly, Parts};
ghost use Rattle.cdf_journal.specs.Opening.{Rests, sole_file};
ghost use Rattle.cdf_journal.specs.Stages.{AtRest, IsOldOrNew};
ghost use Rattle.cdf_saving.specs.Statuses.{IsDone};
ghost use Rattle.cdf_start.specs.Starting.{EndsSaved};

use cdf_journal::{Disk, JournalStore};
use cdf_saving::Status;
use cdf_store::Store;

/// Saves what a run left that came to its end, and answers how it ended then.
pub fn save_ended<D: Disk>(status: Status, journal: &mut JournalStore<D>) -> Status
    ensures ends { EndsSaved (D.faults (⟦<JournalStore<D> as Store>⟧.disk journal.old).under) (D.faults (⟦<JournalStore<D> as Store>⟧.disk journal.new).under) status result }
    ensures unsaved { (IsDone status → ⊥) → (⟦<JournalStore<D> as Store>⟧.disk journal.new).under ≡ (⟦<JournalStore<D> as Store>⟧.disk journal.old).under }
    ensures any_moment { IsDone status → (parts : Parts) → AtRest D.seen D.may_leave (⟦<JournalStore<D> as Store>⟧.disk journal.old).under parts → LeavesOnly D.moment D.left_since (⟦<JournalStore<D> as Store>⟧.disk journal.old).under (⟦<JournalStore<D> as Store>⟧.disk journal.new).under (IsOldOrNew parts.main (sole_file (⟦<JournalStore<D> as Store>⟧.disk journal.old))) }
    ensures saved { IsDone result → (parts : Parts) → AtRest D.seen D.may_leave (⟦<JournalStore<D> as Store>⟧.disk journal.old).under parts → Rests D.seen D.may_leave (⟦<JournalStore<D> as Store>⟧.disk journal.new).under (sole_file (⟦<JournalStore<D> as Store>⟧.disk journal.old)) }
{
    if !status.is_done() {
        return status;
    }
    match journal.commit() {
        Ok(()) => status,
        Err(_) => Status::StoreWriteFault,
    }
}
