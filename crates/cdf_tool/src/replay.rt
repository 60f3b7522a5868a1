//! One line of a script is answered.

ghost use Rattle.std.specs.Prelude.{◌≡◌, ℕ, List, true, is_some, map, IfOk, OnOk};
ghost use Rattle.cdf_area.specs.Calls.{Edits, Stays};
ghost use Rattle.cdf_model.specs.Grammar.{Asks, parse as asked_for};
ghost use Rattle.cdf_model.specs.Sayable.{Sayable};
ghost use Rattle.cdf_model.specs.Turns.{is_refused};
ghost use Rattle.cdf_model.specs.Whole.{CanBeWritten};
ghost use Rattle.cdf_lines.specs.Pending.{line_of};
ghost use Rattle.cdf_session.specs.Built.{is_applied};
ghost use Rattle.cdf_tap.specs.Meanings.{kinds_of};
ghost use Rattle.cdf_tool.specs.Answering.{IsAnswer, IsReplyOf, RepliesTo};
ghost use Rattle.cdf_tool.specs.Idle.{asks_idly, line_idles};
ghost use Rattle.cdf_tool.specs.Replay.{IsSayable, IsShort, asked_by};

use crate::conditions::read_broken_condition;
use cdf_area::{Area, AreaError};
use cdf_lines::Line;
use cdf_model::{Bytes, Command, LineError, Outcome, Reason};
use cdf_reply::reply_text;
use cdf_saving::{BrokenCondition, LineMark, RefusedLine};
use cdf_script::{ParseError, Parsed, parse};
use cdf_session::Session;
use cdf_tap::{Tap, has_tap};
use std::alloc::{AllocError, Global};

/// What a line is answered.
#[derive(Drop)]
pub enum Answer {
    /// This reply, which is empty for a blank line, and the line, where it was refused.
    Reply {
        text: Vec<u8>,
        refused: Option<RefusedLine>,
    },
    /// All events of the data set, which are yet to be written.
    Dump,
    /// What the taps of a name say, of which there are some. They are yet to be shown the events.
    Report {
        name: Bytes,
    },
}

/// What tells more of a refused line than its reason.
#[derive(Clone, Copy)]
struct Remarks {
    broken: Option<BrokenCondition>,
    mark: Option<LineMark>,
}

impl Remarks {
    /// What a line looks like.
    fn of_line(line: &Line) -> Remarks {
        Remarks {
            broken: None,
            mark: mark_of(line),
        }
    }
}

/// A line of a number that was refused, where it comes to a refusal.
fn refused_line(number: u64, outcome: &Outcome, remarks: Remarks) -> Option<RefusedLine>
    ensures { is_some result ≡ is_refused outcome.now }
{
    match outcome {
        Outcome::Done { .. } => None,
        Outcome::Refused { reason } => Some(RefusedLine {
            number,
            reason: *reason,
            broken: remarks.broken,
            mark: remarks.mark,
        }),
    }
}

/// The reply to a line of a number that comes to this.
fn answer_of(
    alloc: Global,
    number: u64,
    outcome: &Outcome,
    remarks: Remarks,
) -> Result<Answer, AllocError>
    requires { CanBeWritten outcome.now }
    ensures { IfOk result (IsReplyOf number outcome.now) }
{
    let text = reply_text(alloc, number, outcome)?;
    let refused = refused_line(number, outcome, remarks);
    Ok(Answer::Reply { text, refused })
}

/// The reply to a line that is no command.
fn answer_to_fault(alloc: Global, line: &Line, fault: LineError) -> Result<Answer, AllocError>
    ensures { IfOk result (IsReplyOf line.now.number (Outcome.Refused (Reason.BadLine fault))) }
{
    let reason = Reason::BadLine { fault };
    answer_of(
        alloc,
        line.number,
        &Outcome::Refused { reason },
        Remarks::of_line(line),
    )
}

/// What a line looks like whose command comes to this. A command that there is not yet is a word that is not known.
fn mark_of_command(line: &Line, outcome: &Outcome) -> Option<LineMark> {
    match outcome {
        Outcome::Refused {
            reason: Reason::BadLine {
                fault: LineError::UnknownWord { .. },
            },
        } => Some(LineMark::NotYet),
        _ => mark_of(line),
    }
}

/// Carries out a command, which a line asks for, and replies what it comes to.
fn answer_outcome<A: Area>(
    alloc: Global,
    session: &mut Session<A>,
    line: &Line,
    command: &Command,
) -> Result<Answer, AreaError>
    requires sayable { Sayable command.now }
    requires applied { is_applied command.now ≡ true }
    ensures replies { IfOk result (RepliesTo (A.frame session.old).limit (A.image session.old) line.now.number command.now (A.image session.new)) }
    ensures idle { asks_idly (A.frame session.old).limit (A.image session.old) (Asks command.now) ≡ true → OnOk result (Stays A.image A.frame A.faults A.edited session.old session.new) }
    ensures area { Edits A.frame A.faults session.old session.new result }
{
    let outcome = session.apply(command)?;
    let broken = read_broken_condition(session, command, &outcome)?;
    let remarks = Remarks {
        broken,
        mark: mark_of_command(line, &outcome),
    };
    Ok(answer_of(alloc, line.number, &outcome, remarks)?)
}

/// Answers a report of a name, which a line asks for.
fn answer_report(
    alloc: Global,
    line: &Line,
    taps: &Vec<Box<dyn Tap>>,
    name: Bytes,
) -> Result<Answer, AllocError>
    ensures { (limit : ℕ) (b : List ℕ) → IfOk result (IsAnswer limit b (kinds_of (map (λ tap. meaning tap) taps.now.items)) line.now.number (Asks (Command.Report name)) b) }
{
    if has_tap(taps, name.as_slice()) {
        return Ok(Answer::Report { name });
    }
    let reason = Reason::NoSuchTap;
    answer_of(
        alloc,
        line.number,
        &Outcome::Refused { reason },
        Remarks::of_line(line),
    )
}

/// Answers a command, which a line asks for.
fn answer_command<A: Area>(
    alloc: Global,
    session: &mut Session<A>,
    line: &Line,
    taps: &Vec<Box<dyn Tap>>,
    command: Command,
) -> Result<Answer, AreaError>
    requires { Sayable command }
    ensures answers { IfOk result (IsAnswer (A.frame session.old).limit (A.image session.old) (kinds_of (map (λ tap. meaning tap) taps.now.items)) line.now.number (Asks command) (A.image session.new)) }
    ensures idle { asks_idly (A.frame session.old).limit (A.image session.old) (Asks command) ≡ true → OnOk result (Stays A.image A.frame A.faults A.edited session.old session.new) }
    ensures area { Edits A.frame A.faults session.old session.new result }
{
    match command {
        Command::Dump => Ok(Answer::Dump),
        Command::Report { tap } => Ok(answer_report(alloc, line, taps, tap)?),
        other => answer_outcome(alloc, session, line, &other),
    }
}

/// Answers what a line asks for.
fn answer_parsed<A: Area>(
    alloc: Global,
    session: &mut Session<A>,
    line: &Line,
    taps: &Vec<Box<dyn Tap>>,
    parsed: Parsed,
) -> Result<Answer, AreaError>
    requires { IsSayable (asked_by parsed) }
    ensures answers { IfOk result (IsAnswer (A.frame session.old).limit (A.image session.old) (kinds_of (map (λ tap. meaning tap) taps.now.items)) line.now.number (asked_by parsed) (A.image session.new)) }
    ensures idle { asks_idly (A.frame session.old).limit (A.image session.old) (asked_by parsed) ≡ true → OnOk result (Stays A.image A.frame A.faults A.edited session.old session.new) }
    ensures area { Edits A.frame A.faults session.old session.new result }
{
    match parsed {
        Parsed::Blank => Ok(Answer::Reply {
            text: Vec::new(alloc),
            refused: None,
        }),
        Parsed::Cmd { c } => answer_command(alloc, session, line, taps, c),
    }
}

/// Answers a line. A dump or a report is yet to be written then.
pub fn answer_line<A: Area>(
    alloc: Global,
    session: &mut Session<A>,
    line: &Line,
    taps: &Vec<Box<dyn Tap>>,
) -> Result<Answer, AreaError>
    requires { IsShort (line_of line.now) }
    ensures answers { IfOk result (IsAnswer (A.frame session.old).limit (A.image session.old) (kinds_of (map (λ tap. meaning tap) taps.now.items)) line.now.number (asked_for (line_of line.now)) (A.image session.new)) }
    ensures idle { line_idles (A.frame session.old).limit (A.image session.old) (line_of line.now) ≡ true → OnOk result (Stays A.image A.frame A.faults A.edited session.old session.new) }
    ensures area { Edits A.frame A.faults session.old session.new result }
{
    match parse(alloc, line) {
        Ok(parsed) => answer_parsed(alloc, session, line, taps, parsed),
        Err(ParseError::Bad { fault }) => Ok(answer_to_fault(alloc, line, fault)?),
        Err(ParseError::NoMemory) => Err(AreaError::NoMemory),
    }
}

/// What a line looks like.
fn mark_of(line: &Line<'_>) -> Option<LineMark> {
    let text = line.text;
    if text.starts_with(b"\xEF\xBB\xBF") {
        Some(LineMark::ByteOrderMark)
    } else if text.starts_with(b"\xFF\xFE") || text.starts_with(b"\xFE\xFF") {
        Some(LineMark::Utf16)
    } else if text.ends_with(b"\r") {
        Some(LineMark::CarriageReturn)
    } else {
        None
    }
}
