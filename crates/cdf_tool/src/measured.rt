//! A script is run, and then what the records take is said, where that is asked for.

ghost use Rattle.std.specs.Prelude.{◌≡◌, ℕ, true, map, IfOk, IfErr, OnOk};
ghost use Rattle.std.specs.Io.KnownBytes.{Appends};
ghost use Rattle.cdf_area.specs.Calls.{Stays};
ghost use Rattle.cdf_saving.specs.Counts.{CountedIn, counts};
ghost use Rattle.cdf_saving.specs.Refusing.{was_refused};
ghost use Rattle.cdf_tool.specs.Idle.{IfIdle};
ghost use Rattle.cdf_tool.specs.Outlets.{with_taps};
ghost use Rattle.cdf_tool.specs.Script.{FinishesWith, HaltsWith, LineStops, last_line};

use crate::say::say_space;
use crate::script::run_script;
use cdf_area::Area;
use cdf_saving::{Refusals, Status, area_status};
use cdf_session::Session;
use cdf_store::{Sink, Source};
use cdf_tap::Tap;
use std::alloc::Global;

/// Says what the records of the image take.
fn measure<A: Area, O: Sink>(
    alloc: Global,
    session: &mut Session<A>,
    out: &mut O,
) -> Result<(), Status>
    ensures said { OnOk result (Appends (O.written out.old) (O.written out.new) (last_line true (A.image session.old))) }
    ensures stops { IfErr result (LineStops (last_line true (A.image session.old)) (O.written out.old) (O.written out.new)) }
    ensures reads { OnOk result (Stays A.image A.frame A.faults A.edited session.old session.new) }
    ensures frame { A.frame session.new ≡ A.frame session.old }
    ensures counted { CountedIn (counts (A.faults session.old) 0 (O.faults out.old) 0) (counts (A.faults session.new) 0 (O.faults out.new) 0) result }
{
    match session.space() {
        Ok(space) => say_space(alloc, space, out),
        Err(error) => Err(area_status(error)),
    }
}

/// Runs a script line by line, and says which lines were refused. Then it says what the records take, where that is asked for.
pub fn run_measured<A: Area, I: Source, O: Sink>(
    alloc: Global,
    space: bool,
    session: &mut Session<A>,
    script: &mut I,
    out: &mut O,
    taps: &mut Vec<Box<dyn Tap>>,
) -> Result<Refusals, Status>
    ensures ok { IfOk result (λ refusals. FinishesWith space (A.frame session.old).limit (A.image session.old) (I.left script.old) (I.left script.new) (with_taps (O.written out.old) (map (λ tap. meaning tap) taps.old.items)) (A.image session.new) (was_refused refusals) (with_taps (O.written out.new) (map (λ tap. meaning tap) taps.new.items))) }
    ensures err { IfErr result (λ status. HaltsWith space (A.frame session.old).limit (A.image session.old) (I.left script.old) (I.left script.new) (with_taps (O.written out.old) (map (λ tap. meaning tap) taps.old.items)) (with_taps (O.written out.new) (map (λ tap. meaning tap) taps.new.items)) status) }
    ensures idle { OnOk result (IfIdle (A.frame session.old).limit (A.image session.old) (I.left script.old) (Stays A.image A.frame A.faults A.edited session.old session.new)) }
    ensures frame { A.frame session.new ≡ A.frame session.old }
    ensures counted { CountedIn (counts (A.faults session.old) 0 (O.faults out.old) (I.faults script.old)) (counts (A.faults session.new) 0 (O.faults out.new) (I.faults script.new)) result }
{
    let refusals = match run_script(alloc, session, script, out, taps) {
        Ok(refusals) => refusals,
        Err(status) => return Err(status),
    };
    if !space {
        return Ok(refusals);
    }
    match measure(alloc, session, out) {
        Ok(()) => Ok(refusals),
        Err(status) => Err(status),
    }
}
