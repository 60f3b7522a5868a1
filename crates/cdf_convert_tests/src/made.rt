//! Files that scripts make, and sessions over them.

ghost use Rattle.std.specs.Prelude.{◌≡◌, ◌<◌, ◌≤◌, length, true, None, IfOk};
ghost use Rattle.cdf_convert.specs.Laws.{IsOfBytes};
ghost use Rattle.cdf_format.specs.Content.{content};
ghost use Rattle.cdf_model.specs.Limits.{image_limit};
ghost use Rattle.cdf_model.specs.Sayable.{Sayable};
ghost use Rattle.cdf_session.specs.Built.{is_applied};
ghost use Rattle.cdf_writer.specs.Fine.{Fine};

use cdf_area::{Area, MemArea};
use cdf_model::limits::IMAGE_LIMIT;
use cdf_model::{Command, Outcome};
use cdf_script::{Parsed, parse_line};
use cdf_session::Session;
use std::alloc::Global;
use std::test::Fail;

/// Carries out a command, which is not refused.
fn apply(session: &mut Session<MemArea>, number: usize, command: &Command) -> Result<(), Fail>
    requires sayable { Sayable command.now }
    requires applied { is_applied command.now ≡ true }
{
    match session.apply(command)? {
        Outcome::Done { .. } => Ok(()),
        Outcome::Refused { reason } => Err(Fail::new(format_args!(
            "line {number} was refused: {reason:?}"
        ))),
    }
}

/// Carries out a command that shows no events.
fn run_command(session: &mut Session<MemArea>, number: usize, command: Command) -> Result<(), Fail>
    requires { Sayable command }
{
    match command {
        Command::Dump | Command::Report { .. } => Err(Fail::new("a line asks for events")),
        other => apply(session, number, &other),
    }
}

/// Carries out the command of a line, if it has any.
fn run_line(
    alloc: Global,
    session: &mut Session<MemArea>,
    number: usize,
    line: &[u8],
) -> Result<(), Fail> {
    match parse_line(alloc, line) {
        Ok(Parsed::Blank) => Ok(()),
        Ok(Parsed::Cmd { c }) => run_command(session, number, c),
        Err(_) => Err(Fail::new("a line is no command")),
    }
}

/// The file that a script makes.
pub fn made(alloc: Global, script: &[u8]) -> Result<Vec<u8>, Fail> {
    let area = MemArea::new(alloc, Vec::new(alloc), IMAGE_LIMIT);
    let Ok(mut session) = Session::create(alloc, area) else {
        return Err(Fail::new("no session began"));
    };
    for (number, line) in script.split(|byte| *byte == b'\n').enumerate() {
        run_line(alloc, &mut session, number, line)?;
    }
    Ok(session.into_area().into_bytes())
}

/// A byte is less than 256.
fn is_byte(byte: u8)
    ensures { byte < 256 }
{
    let _byte = byte;
}

/// Each element is a byte.
fn are_bytes(bytes: &[u8])
    ensures { IsOfBytes bytes.now }
{
    for byte in bytes {
        is_byte(*byte);
    }
}

/// An area of these bytes that has no mark.
pub fn area_of(alloc: Global, bytes: &[u8]) -> Result<MemArea, Fail>
    ensures bytes { IfOk result (λ area. IsOfBytes (⟦<MemArea as Area>⟧.image area)) }
    ensures short { IfOk result (λ area. length (⟦<MemArea as Area>⟧.image area) ≤ image_limit) }
    ensures unmarked { IfOk result (λ area. (⟦<MemArea as Area>⟧.frame area).base ≡ None) }
    ensures limit { IfOk result (λ area. (⟦<MemArea as Area>⟧.frame area).limit ≡ image_limit) }
{
    if bytes.len() as u64 > IMAGE_LIMIT {
        return Err(Fail::new("a file is too long"));
    }
    are_bytes(bytes);
    let bytes = Vec::from_slice(alloc, bytes)?;
    Ok(MemArea::new(alloc, bytes, IMAGE_LIMIT))
}

/// A session over the file that an area holds.
pub fn session_over<A: Area + Drop>(alloc: Global, area: A) -> Result<Session<A>, Fail>
    requires bytes { IsOfBytes (A.image area) }
    requires short { length (A.image area) ≤ image_limit }
    requires unmarked { (A.frame area).base ≡ None }
    requires limit { (A.frame area).limit ≡ image_limit }
    ensures { IfOk result (λ session. Fine (content (A.image session))) }
{
    match Session::adopt(alloc, area) {
        Ok(session) => Ok(session),
        Err(_) => Err(Fail::new("a file was not taken up")),
    }
}
