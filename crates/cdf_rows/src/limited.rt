//! A session over a new file that may grow to so many bytes: what a row with a limit runs, in place of the program.

ghost use Rattle.std.specs.Prelude.{◌≡◌, true};
ghost use Rattle.cdf_model.specs.Sayable.{Sayable};
ghost use Rattle.cdf_session.specs.Built.{is_applied};

use crate::devices::Ran;
use crate::row::Row;
use anyhow::{Result, bail, ensure};
use cdf_area::MemArea;
use cdf_model::limits::IMAGE_LIMIT;
use cdf_model::{Command, Outcome};
use cdf_reply::reply_text;
use cdf_script::{Parsed, parse_line};
use cdf_session::{NEW_SIZE, Session};
use std::alloc::Global;

/// What is answered to a line.
#[derive(Drop)]
struct Answer {
    text: Vec<u8>,
    is_refused: bool,
}

/// A session over a new file that may grow to so many bytes.
fn new_within(alloc: Global, limit: u64) -> Result<Session<MemArea>> {
    ensure!(
        (NEW_SIZE..=IMAGE_LIMIT).contains(&limit),
        "no image has the limit {limit}"
    );
    let area = MemArea::new(alloc, Vec::new(alloc), limit);
    match Session::create(alloc, area) {
        Ok(session) => Ok(session),
        Err(_) => bail!("no session began"),
    }
}

/// Answers a command that comes to an outcome, on a line of a number.
fn answer_outcome(
    alloc: Global,
    session: &mut Session<MemArea>,
    number: u64,
    command: &Command,
) -> Result<Answer>
    requires sayable { Sayable command.now }
    requires applied { is_applied command.now ≡ true }
{
    let Ok(outcome) = session.apply(command) else {
        bail!("the command of line {number} was not carried out");
    };
    Ok(Answer {
        text: reply_text(alloc, number, &outcome)?,
        is_refused: matches!(outcome, Outcome::Refused { .. }),
    })
}

/// Answers a command, on a line of a number. One that shows the events takes the whole program.
fn answer_command(
    alloc: Global,
    session: &mut Session<MemArea>,
    number: u64,
    command: Command,
) -> Result<Answer>
    requires { Sayable command }
{
    match command {
        Command::Dump => bail!("line {number} is a dump"),
        Command::Report { .. } => bail!("line {number} is a report"),
        other => answer_outcome(alloc, session, number, &other),
    }
}

/// Answers a line of a number, which is blank or a command.
fn answer_line(
    alloc: Global,
    session: &mut Session<MemArea>,
    number: u64,
    line: &[u8],
) -> Result<Option<Answer>> {
    match parse_line(alloc, line) {
        Ok(Parsed::Blank) => Ok(None),
        Ok(Parsed::Cmd { c }) => Ok(Some(answer_command(alloc, session, number, c)?)),
        Err(_) => bail!("line {number} is no command"),
    }
}

/// Runs the script of a row over a new file that may grow to so many bytes.
pub fn run_limited(alloc: Global, row: &Row, limit: u64) -> Result<Ran> {
    ensure!(row.before.as_str() == "new", "a limit is for a new file");
    let mut session = new_within(alloc, limit)?;
    let mut text = Vec::new(alloc);
    let mut status = 0;
    for (number, line) in row.script.split(|byte| *byte == b'\n').enumerate() {
        let number = number.wrapping_add(1) as u64;
        if let Some(answer) = answer_line(alloc, &mut session, number, line)? {
            text.extend_from_slice(&answer.text)?;
            status = status.max(usize::from(answer.is_refused));
        }
    }
    Ok(Ran {
        status,
        text,
        told: String::new(alloc),
        file: Some(session.into_area().into_bytes()),
        is_other_kept: true,
        calls: [0; 3],
    })
}
