//! A script is run line by line.

ghost use Rattle.std.specs.Prelude.{◌≡◌, ◌≤◌, ℕ, [], true, false, is_some, map, IsTrue, IfOk, IfErr, OnOk};
ghost use Rattle.cdf_area.specs.Calls.{Stays};
ghost use Rattle.cdf_lines.specs.Pending.{line_of};
ghost use Rattle.cdf_saving.specs.Counts.{CountedIn, counts};
ghost use Rattle.cdf_saving.specs.Refusing.{was_refused};
ghost use Rattle.cdf_tool.specs.Taking.{Takes, TakesNone};
ghost use Rattle.cdf_tool.specs.Idle.{IfIdle, all_idle_over, line_idles};
ghost use Rattle.cdf_tool.specs.Outlets.{with_taps};
ghost use Rattle.cdf_tool.specs.Replay.{AreShort, GathersReply, GivesNext, IsDrained, IsShort, PassesAll, Replies as AllReplies, Stops, StopsAt};
ghost use Rattle.cdf_tool.specs.Script.{Finishes, Halts};

use crate::replay::{Answer, answer_line};
use crate::showing::{dump, report};
use cdf_area::Area;
use cdf_lines::{Line, Lines};
use cdf_model::limits::SCRIPT_LIMIT;
use cdf_saving::{Refusals, RefusedLine, Status, area_status};
use cdf_script::is_blank_line;
use cdf_session::Session;
use cdf_store::{Failed, Sink, Source};
use cdf_tap::Tap;
use cdf_walk::Gathered;
use std::alloc::{AllocError, Global};

/// The most bytes that are taken of the source at a time.
const PIECE: usize = 65_536;

/// Goes on to the next line that is not blank, and says whether there is one. A blank line costs as little as can be: nothing else stands
/// in this loop.
#[inline(never)]
fn next_to_answer(lines: &mut Lines) -> bool
    ensures none { result ≡ false → PassesAll lines.old lines.new }
    ensures line { IsTrue result → GivesNext lines.old lines.new }
{
    'ready: while lines.next_line() {
        if !is_blank_line(&lines.line()) {
            return true;
        }
    }
    false
}

/// Answers a line, and answers it where it was refused. Its reply is gathered; where it shows the data set, or there is none, what was
/// gathered before is written.
fn gather_reply<A: Area, O: Sink>(
    alloc: Global,
    session: &mut Session<A>,
    line: &Line,
    replies: &mut Gathered,
    out: &mut O,
    taps: &mut Vec<Box<dyn Tap>>,
) -> Result<Option<RefusedLine>, Status>
    requires { IsShort (line_of line.now) }
    ensures ok { IfOk result (λ refused. GathersReply (A.frame session.old).limit (A.image session.old) line.now (A.image session.new) (is_some refused) (with_taps (O.written out.old) (map (λ tap. meaning tap) taps.old.items)) replies.old (with_taps (O.written out.new) (map (λ tap. meaning tap) taps.new.items)) replies.new) }
    ensures stops { IfErr result (λ status. StopsAt (A.frame session.old).limit (A.image session.old) line.now (with_taps (O.written out.old) (map (λ tap. meaning tap) taps.old.items)) replies.old (with_taps (O.written out.new) (map (λ tap. meaning tap) taps.new.items)) status) }
    ensures idle { line_idles (A.frame session.old).limit (A.image session.old) (line_of line.now) ≡ true → OnOk result (Stays A.image A.frame A.faults A.edited session.old session.new) }
    ensures frame { A.frame session.new ≡ A.frame session.old }
    ensures counted { (source : ℕ) → CountedIn (counts (A.faults session.old) 0 (O.faults out.old) source) (counts (A.faults session.new) 0 (O.faults out.new) source) result }
{
    match answer_line(alloc, session, line, taps) {
        Ok(Answer::Reply { text, refused }) => match replies.add(&text, out) {
            Ok(()) => Ok(refused),
            Err(Failed) => Err(Status::OutputFault),
        },
        Ok(Answer::Dump) => match dump(alloc, session, line.number, replies, out) {
            Ok(()) => Ok(None),
            Err(status) => Err(status),
        },
        Ok(Answer::Report { name }) => {
            match report(
                alloc,
                session,
                line.number,
                name.as_slice(),
                taps,
                replies,
                out,
            ) {
                Ok(()) => Ok(None),
                Err(status) => Err(status),
            }
        }
        Err(error) => match replies.write(out) {
            Ok(()) => Err(area_status(error)),
            Err(Failed) => Err(Status::OutputFault),
        },
    }
}

/// Answers the lines that are ready, and says which of them were refused. Their replies are written before it ends, unless the sink fails.
fn answer_lines<A: Area, O: Sink>(
    alloc: Global,
    session: &mut Session<A>,
    lines: &mut Lines,
    replies: &mut Gathered,
    out: &mut O,
    taps: &mut Vec<Box<dyn Tap>>,
) -> Result<Refusals, Status>
    requires short { AreShort lines.old.ready }
    requires none_left { replies.old ≡ [] }
    ensures ok { IfOk result (λ refusals. AllReplies (A.frame session.old).limit (A.image session.old) lines.old.given lines.old.ready (A.image session.new) (was_refused refusals) (with_taps (O.written out.old) (map (λ tap. meaning tap) taps.old.items)) (with_taps (O.written out.new) (map (λ tap. meaning tap) taps.new.items))) }
    ensures drained { OnOk result (IsDrained lines.old lines.new) }
    ensures none_left { OnOk result (replies.new ≡ []) }
    ensures stops { IfErr result (λ status. Stops (A.frame session.old).limit (A.image session.old) lines.old.given lines.old.ready (with_taps (O.written out.old) (map (λ tap. meaning tap) taps.old.items)) (with_taps (O.written out.new) (map (λ tap. meaning tap) taps.new.items)) status) }
    ensures idle { all_idle_over (A.frame session.old).limit (A.image session.old) lines.old.ready ≡ true → OnOk result (Stays A.image A.frame A.faults A.edited session.old session.new) }
    ensures frame { A.frame session.new ≡ A.frame session.old }
    ensures counted { (source : ℕ) → CountedIn (counts (A.faults session.old) 0 (O.faults out.old) source) (counts (A.faults session.new) 0 (O.faults out.new) source) result }
{
    let mut refusals = Refusals::none();
    'ready: while next_to_answer(lines) {
        match gather_reply(alloc, session, &lines.line(), replies, out, taps) {
            Ok(refused) => refusals.count(refused),
            Err(status) => return Err(status),
        }
    }
    match replies.write(out) {
        Ok(()) => Ok(refusals),
        Err(Failed) => Err(Status::OutputFault),
    }
}

/// Takes the next piece of a script, and says whether there was one. At the end of the script its last line is ready.
fn take_piece<I: Source>(script: &mut I, lines: &mut Lines, taken: &mut u64) -> Result<bool, Status>
    requires not_over { lines.old.over ≡ false }
    requires within { taken.old ≤ SCRIPT_LIMIT }
    ensures ok { IfOk result (λ more. Takes more (I.left script.old) (I.left script.new) lines.old lines.new taken.old taken.new) }
    ensures err { IfErr result (λ status. TakesNone (I.left script.old) (I.left script.new) taken.old status) }
    ensures counted { (reads output : ℕ) → CountedIn (counts reads 0 output (I.faults script.old)) (counts reads 0 output (I.faults script.new)) result }
{
    let mut piece = [0u8; PIECE];
    let count = match script.read(&mut piece) {
        Ok(count) => count,
        Err(Failed) => return Err(Status::ScriptFault),
    };
    if count == 0 {
        lines.finish();
        return Ok(false);
    }
    *taken += count as u64;
    if *taken > SCRIPT_LIMIT {
        return Err(Status::ScriptTooLong);
    }
    match lines.feed(&piece[..count]) {
        Ok(()) => Ok(true),
        Err(AllocError) => Err(Status::NoMemory),
    }
}

/// Runs a script line by line, and says which lines were refused. The replies to the lines of a piece are written before the next is read.
pub fn run_script<A: Area, I: Source, O: Sink>(
    alloc: Global,
    session: &mut Session<A>,
    script: &mut I,
    out: &mut O,
    taps: &mut Vec<Box<dyn Tap>>,
) -> Result<Refusals, Status>
    ensures ok { IfOk result (λ refusals. Finishes (A.frame session.old).limit (A.image session.old) (I.left script.old) (I.left script.new) (with_taps (O.written out.old) (map (λ tap. meaning tap) taps.old.items)) (A.image session.new) (was_refused refusals) (with_taps (O.written out.new) (map (λ tap. meaning tap) taps.new.items))) }
    ensures err { IfErr result (λ status. Halts (A.frame session.old).limit (A.image session.old) (I.left script.old) (I.left script.new) (with_taps (O.written out.old) (map (λ tap. meaning tap) taps.old.items)) (with_taps (O.written out.new) (map (λ tap. meaning tap) taps.new.items)) status) }
    ensures idle { OnOk result (IfIdle (A.frame session.old).limit (A.image session.old) (I.left script.old) (Stays A.image A.frame A.faults A.edited session.old session.new)) }
    ensures frame { A.frame session.new ≡ A.frame session.old }
    ensures counted { CountedIn (counts (A.faults session.old) 0 (O.faults out.old) (I.faults script.old)) (counts (A.faults session.new) 0 (O.faults out.new) (I.faults script.new)) result }
{
    let mut lines = Lines::new(alloc);
    let mut replies = Gathered::new(alloc);
    let mut refusals = Refusals::none();
    let mut taken = 0u64;
    for _ in 0..SCRIPT_LIMIT + 1 {
        let more = match take_piece(script, &mut lines, &mut taken) {
            Ok(more) => more,
            Err(status) => return Err(status),
        };
        match answer_lines(alloc, session, &mut lines, &mut replies, out, taps) {
            Ok(more) => refusals.join(more),
            Err(status) => return Err(status),
        }
        if !more {
            return Ok(refusals);
        }
    }
    Err(Status::ScriptTooLong)
}
