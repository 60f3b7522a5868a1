//! The file in an area is opened, and the script is run over it.

ghost use Rattle.std.specs.Prelude.{◌≡◌, ◌≢◌, ◌≤◌, ℕ, List, [], Bool, length, map, true, false, IfOk, IfErr, IfSome, OnOk, None};
ghost use Rattle.cdf_format.specs.Sealed.{image_of, sealed};
ghost use Rattle.cdf_format.specs.WellFormed.{Good, WellFormed};
ghost use Rattle.cdf_model.specs.Limits.{image_limit};
ghost use Rattle.cdf_session.specs.Sessions.{Begins, Explains};
ghost use Rattle.cdf_saving.specs.Counts.{Counted, CountedIn, counts};
ghost use Rattle.cdf_tool.specs.Areas.{EndsOver, Refuses, status_from};
ghost use Rattle.cdf_tool.specs.Ends.{EndsUnread, Opens};
ghost use Rattle.cdf_tool.specs.Idle.{IfIdle};
ghost use Rattle.cdf_tool.specs.Outlets.{with_taps};
ghost use Rattle.cdf_tool.specs.Says.{Tells, old_file};

use crate::measured::run_measured;
use crate::say::say_rejected;
use cdf_area::Area;
use cdf_check::Broken;
use cdf_saving::{Refusals, Status, area_status};
use cdf_session::{AdoptError, Refusal, Session};
use cdf_store::{Sink, Source};
use cdf_tap::Tap;
use std::alloc::Global;

/// What a run leaves over an area: which lines were refused, or the status with which it stopped.
#[derive(Drop)]
pub struct Ran<A> {
    pub area: A,
    pub outcome: Result<Refusals, Status>,
    /// The rule that the file breaks, where it was rejected.
    pub broken: Option<Broken>,
}

/// Takes up the file in an area, or makes a new one in an empty area.
fn open<A: Area>(alloc: Global, new: bool, area: A) -> Result<Session<A>, Refusal<A>>
    requires empty { new ≡ true → A.image area ≡ [] }
    requires unmarked { (A.frame area).base ≡ None }
    requires limit { (A.frame area).limit ≡ image_limit }
    ensures opens { IfOk result (λ session. Opens new (A.image area) (A.image session)) }
    ensures unedited { new ≡ false → IfOk result (λ session. A.edited session ≡ A.edited area) }
    ensures refused { IfErr result (λ r. Refuses new (A.image area) r.why) }
    ensures area { Begins A.image A.frame A.faults area result }
{
    if new {
        Session::create(alloc, area)
    } else {
        Session::adopt(alloc, area)
    }
}

/// What came of saying why no session began.
#[derive(Clone, Copy)]
pub struct Refused {
    pub status: Status,
    /// The rule that the file breaks, where it was written.
    pub broken: Option<Broken>,
}

/// The rule that a file breaks, where it was written.
fn if_rejected(status: Status, broken: Broken) -> Option<Broken>
    ensures told { IfSome result (λ told. (status ≡ Status.Rejected) × (told ≡ broken)) }
    ensures untold { result ≡ None → status ≢ Status.Rejected }
{
    match status {
        Status::Rejected => Some(broken),
        _ => None,
    }
}

/// Says why no session began.
pub fn refuse<O: Sink>(alloc: Global, why: AdoptError, out: &mut O) -> Refused
    ensures ends { (new : Bool) (file : List ℕ) → Refuses new file why → EndsUnread new file (O.written out.old) (O.written out.new) result.status }
    ensures told { (new : Bool) (file : List ℕ) → Refuses new file why → Tells result.broken (old_file new file) (O.written out.old) (O.written out.new) result.status }
    ensures counted { (before now source : ℕ) → Explains why before now → Counted (counts before 0 (O.faults out.old) source) (counts now 0 (O.faults out.new) source) result.status }
{
    match why {
        AdoptError::Rejected { broken } => {
            let status = say_rejected(alloc, broken, out);
            Refused {
                status,
                broken: if_rejected(status, broken),
            }
        }
        AdoptError::Failed { error } => Refused {
            status: area_status(error),
            broken: None,
        },
    }
}

/// Opens the file in an area, or makes a new one, runs the script over it, and says what the records take, where that is asked for.
pub fn run_area<A: Area, I: Source, O: Sink>(
    alloc: Global,
    new: bool,
    space: bool,
    area: A,
    script: &mut I,
    out: &mut O,
    taps: &mut Vec<Box<dyn Tap>>,
) -> Ran<A>
    requires empty { new ≡ true → A.image area ≡ [] }
    requires unmarked { (A.frame area).base ≡ None }
    requires limit { (A.frame area).limit ≡ image_limit }
    ensures ends { EndsOver new space (A.image area) (I.left script.old) (I.left script.new) (with_taps (O.written out.old) (map (λ tap. meaning tap) taps.old.items)) (with_taps (O.written out.new) (map (λ tap. meaning tap) taps.new.items)) (A.image result.area) result.outcome }
    ensures told { Tells result.broken (old_file new (A.image area)) (O.written out.old) (O.written out.new) (status_from result.outcome) }
    ensures good { IfOk result.outcome (λ _. Good (A.image result.area)) }
    ensures well_formed { IfOk result.outcome (λ _. WellFormed (sealed (A.image result.area))) }
    ensures fits { IfOk result.outcome (λ _. length (A.image result.area) ≤ image_limit) }
    ensures unedited { new ≡ false → OnOk result.outcome (IfIdle image_limit (image_of (A.image area)) (I.left script.old) (A.edited result.area ≡ A.edited area)) }
    ensures frame { A.frame result.area ≡ A.frame area }
    ensures counted { CountedIn (counts (A.faults area) 0 (O.faults out.old) (I.faults script.old)) (counts (A.faults result.area) 0 (O.faults out.new) (I.faults script.new)) result.outcome }
{
    match open(alloc, new, area) {
        Ok(session) => {
            let mut session = session;
            let outcome = run_measured(alloc, space, &mut session, script, out, taps);
            Ran {
                area: session.into_area(),
                outcome,
                broken: None,
            }
        }
        Err(Refusal { area, why }) => {
            let Refused { status, broken } = refuse(alloc, why, out);
            Ran {
                area,
                outcome: Err(status),
                broken,
            }
        }
    }
}
