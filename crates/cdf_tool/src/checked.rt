//! The file that is asked for is checked, and no more.

ghost use Rattle.std.specs.Prelude.{◌≡◌, ℕ, List, length, Some, None, false};
ghost use Rattle.std.specs.declared.option.Option.{Option};
ghost use Rattle.std.specs.Option.{option_map};
ghost use Rattle.cdf_model.specs.Limits.{image_limit};
ghost use Rattle.cdf_store.specs.Disk.{file_of};
ghost use Rattle.cdf_store.specs.Named.{Allows};
ghost use Rattle.cdf_saving.specs.Counts.{Counted, counts};
ghost use Rattle.cdf_saving.specs.Refusing.{was_refused};
ghost use Rattle.cdf_saving.specs.Statuses.{IsDone, status_of};
ghost use Rattle.cdf_words.specs.Asking.{asked_for};
ghost use Rattle.cdf_tool.specs.Checking.{EndsChecked, EndsOverFile, SaysAccepted, accepted_text};
ghost use Rattle.cdf_tool.specs.Reading.{WritesNothing};
ghost use Rattle.cdf_tool.specs.Says.{Tells};

use crate::opened::{Refused, refuse};
use crate::say::{say_accepted, say_no_file};
use cdf_area::Area;
use cdf_check::Broken;
use cdf_model::limits::IMAGE_LIMIT;
use cdf_pages::PagedArea;
use cdf_saving::{Ended, Notes, Status, area_status};
use cdf_session::{Refusal, Session};
use cdf_store::{AttachError, Sink, Store};
use cdf_words::Asked;
use std::alloc::Global;

/// What a check leaves over an area.
#[derive(Drop)]
struct Checked<A> {
    area: A,
    status: Status,
    /// The rule that the file breaks, where it was rejected.
    broken: Option<Broken>,
}

/// Says that the file of a session is well formed, and what its records take, where that is asked for.
fn confirm<A: Area, O: Sink>(
    alloc: Global,
    space: bool,
    session: &mut Session<A>,
    out: &mut O,
) -> Status
    ensures says { SaysAccepted (accepted_text space (A.image session.old)) (O.written out.old) (O.written out.new) result }
    ensures frame { A.frame session.new ≡ A.frame session.old }
    ensures counted { (source : ℕ) → Counted (counts (A.faults session.old) 0 (O.faults out.old) source) (counts (A.faults session.new) 0 (O.faults out.new) source) result }
{
    if !space {
        return say_accepted(alloc, None, out);
    }
    match session.space() {
        Ok(space) => say_accepted(alloc, Some(space), out),
        Err(error) => area_status(error),
    }
}

/// Checks the file in an area, and says what came of it.
fn check_area<A: Area, O: Sink>(alloc: Global, space: bool, area: A, out: &mut O) -> Checked<A>
    requires unmarked { (A.frame area).base ≡ None }
    requires limit { (A.frame area).limit ≡ image_limit }
    ensures ends { EndsOverFile space (A.image area) (O.written out.old) (O.written out.new) result.status }
    ensures told { Tells result.broken (Some (A.image area)) (O.written out.old) (O.written out.new) result.status }
    ensures frame { A.frame result.area ≡ A.frame area }
    ensures counted { (source : ℕ) → Counted (counts (A.faults area) 0 (O.faults out.old) source) (counts (A.faults result.area) 0 (O.faults out.new) source) result.status }
{
    match Session::adopt(alloc, area) {
        Ok(session) => {
            let mut session = session;
            let status = confirm(alloc, space, &mut session, out);
            let area = session.into_area();
            Checked {
                area,
                status,
                broken: None,
            }
        }
        Err(Refusal { area, why }) => {
            let Refused { status, broken } = refuse(alloc, why, out);
            Checked {
                area,
                status,
                broken,
            }
        }
    }
}

/// Checks the file that is attached, which has so many bytes.
fn check_attached<S: Store, O: Sink>(
    alloc: Global,
    space: bool,
    store: S,
    size: u64,
    out: &mut O,
) -> Ended<S>
    requires { Some size ≡ option_map length (S.disk store).held }
    ensures ends { EndsOverFile space (file_of (S.disk store)) (O.written out.old) (O.written out.new) result.status }
    ensures none_left { result.notes.left ≡ None }
    ensures replaced { result.notes.replaced ≡ 0 }
    ensures refusals { IsDone result.status → result.status ≡ status_of (was_refused result.notes.refusals) }
    ensures told { Tells result.notes.broken (S.disk result.store).held (O.written out.old) (O.written out.new) result.status }
    ensures disk { S.disk result.store ≡ S.disk store }
    ensures unstored { S.unstored result.store ≡ S.unstored store }
    ensures counted { (source : ℕ) → Counted (counts (S.read_faults store) (S.write_faults store) (O.faults out.old) source) (counts (S.read_faults result.store) (S.write_faults result.store) (O.faults out.new) source) result.status }
{
    match PagedArea::over(alloc, store, size, IMAGE_LIMIT) {
        Ok(area) => {
            let Checked {
                area,
                status,
                broken,
            } = check_area(alloc, space, area, out);
            let store = area.into_store();
            Ended {
                status,
                notes: Notes::of_verdict(broken),
                store,
            }
        }
        Err(failed) => Ended {
            status: Status::NoMemory,
            notes: Notes::none(),
            store: failed.value,
        },
    }
}

/// Attaches the file that is asked for, and checks it. It is no new one.
pub fn check_file<S: Store, O: Sink>(
    alloc: Global,
    asked: &Asked<'_>,
    store: S,
    out: &mut O,
) -> Ended<S>
    requires free { (S.disk store).held ≡ None }
    requires allowed { Allows (S.disk store).only asked.now.name.now }
    requires old { asked.now.new ≡ false }
    ensures ends { (left : Option (List ℕ)) → EndsChecked (asked_for asked.now) (S.disk store) (S.disk result.store) left left (O.written out.old) (O.written out.new) result.status }
    ensures none_left { result.notes.left ≡ None }
    ensures replaced { result.notes.replaced ≡ 0 }
    ensures refusals { IsDone result.status → result.status ≡ status_of (was_refused result.notes.refusals) }
    ensures told { Tells result.notes.broken (S.disk result.store).held (O.written out.old) (O.written out.new) result.status }
    ensures counted { (source : ℕ) → Counted (counts (S.read_faults store) (S.write_faults store) (O.faults out.old) source) (counts (S.read_faults result.store) (S.write_faults result.store) (O.faults out.new) source) result.status }
    ensures reads { WritesNothing (S.disk store) (S.disk result.store) (S.write_faults store) (S.write_faults result.store) result.status }
    ensures unstored { S.unstored result.store ≡ S.unstored store }
{
    let mut store = store;
    match store.attach(asked.name, false) {
        Ok(Some(size)) => check_attached(alloc, asked.space, store, size, out),
        Ok(None) => {
            let status = say_no_file(out);
            Ended {
                status,
                notes: Notes::none(),
                store,
            }
        }
        Err(AttachError::Failed) => Ended {
            status: Status::StoreReadFault,
            notes: Notes::none(),
            store,
        },
        Err(AttachError::NoMemory) => Ended {
            status: Status::NoMemory,
            notes: Notes::none(),
            store,
        },
    }
}
