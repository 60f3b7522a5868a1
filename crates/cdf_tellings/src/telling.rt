//! What a person is told.

ghost use Rattle.std.specs.Prelude.{◌≡◌, ◌<◌, IsTrue, IsFalse};
ghost use Rattle.cdf_saving.specs.Statuses.{IsDone};

use crate::causes::Cause;
use crate::files::Nature;
use crate::quoted::Quoted;
use crate::refusals::RefusalsWords;
use crate::rules::words_of_rule;
use crate::words::{JOURNAL, WordsFault, fault_of_words};
use cdf_check::Broken;
use cdf_saving::{Left, Notes, Status};
use cdf_store::{FileFailure, Stream};
use cdf_words::{Asked, WordsError, read_words};
use std::alloc::Global;
use std::fmt;

/// How a run comes at its file.
#[derive(Clone, Copy, Debug, PartialEq, Eq)]
pub enum Access {
    /// Not at all: it begins with a new one, and saves nothing.
    InMemory,
    /// At the file alone.
    Alone,
    /// At the file and the log beside it.
    WithLog,
}

/// What the words of the command line ask for.
#[derive(Clone, Copy, Debug)]
pub enum Said<'a> {
    /// A run over the file of this name, which is saved or not.
    Run {
        name: &'a str,
        saves: bool,
        access: Access,
    },
    /// Nothing that can be done.
    Fault(WordsFault<'a>),
    /// They were not read for want of memory.
    Unread,
}

impl<'a> Said<'a> {
    /// What these words ask for. They are those behind the program's own name.
    pub fn of_words(alloc: Global, words: &'a [String]) -> Said<'a> {
        let (words, has_log) = behind_journal(words);
        match read_words(alloc, words) {
            Ok(asked) => Said::Run {
                name: asked.name,
                saves: !asked.no_save && !asked.check,
                access: access_of(&asked, has_log),
            },
            Err(WordsError::Usage) => Said::Fault(fault_of_words(words)),
            Err(WordsError::NoMemory) => Said::Unread,
        }
    }
}

/// The words of the run itself, and whether the word before them asks for a log.
fn behind_journal(words: &[String]) -> (&[String], bool) {
    match words.split_first() {
        Some((first, rest)) if first.as_str() == JOURNAL => (rest, true),
        _ => (words, false),
    }
}

/// How a run comes at its file that was asked for this.
fn access_of(asked: &Asked<'_>, has_log: bool) -> Access {
    if asked.new && asked.no_save {
        Access::InMemory
    } else if has_log {
        Access::WithLog
    } else {
        Access::Alone
    }
}

/// What the file and its device tell once a run has ended.
#[derive(Clone, Copy, Debug)]
pub struct FileNews {
    /// Why the device failed, where it says so.
    pub failure: Option<FileFailure>,
    /// The device says that it wrote nothing.
    pub is_unwritten: bool,
    /// What the file is that was rejected.
    pub nature: Option<Nature>,
}

impl FileNews {
    /// Nothing is known.
    pub fn none() -> FileNews {
        FileNews {
            failure: None,
            is_unwritten: false,
            nature: None,
        }
    }
}

/// What is told of a run: what its words asked for, how it ended, and what is known of the file. It is written as lines, the last of
/// them without its newline.
#[derive(Clone, Copy, Debug)]
pub struct Telling<'a> {
    pub said: Said<'a>,
    pub status: Status,
    pub notes: Notes,
    pub news: FileNews,
}

/// The name of the program and that of the file, which a line begins with.
#[derive(Clone, Copy)]
struct Subject<'a>(Option<&'a str>);

impl fmt::Display for Subject<'_> {
    fn fmt<W: fmt::Write>(&self, f: &mut fmt::Formatter<W>) -> fmt::Result {
        match self.0 {
            Some(name) => write!(f, "cdfedit: {}: ", Quoted(name)),
            None => f.write_str("cdfedit: "),
        }
    }
}

/// What could not be done, for a status from 2 on.
fn words_of_status(status: Status) -> &'static str {
    match status {
        Status::Done => "all was done",
        Status::SomeRefused => "some lines were refused",
        Status::Usage => "these words ask for nothing that can be done",
        Status::NoFile => "there is no such file",
        Status::Rejected => "the file breaks a rule",
        Status::StoreReadFault => "the file could not be opened or read",
        Status::StoreWriteFault => "the file could not be saved",
        Status::OutputFault => "the answers could not be written",
        Status::NoMemory => "there was not enough memory",
        Status::ScriptFault => "the script could not be read",
        Status::ScriptTooLong => "the script has more than 1073741824 bytes",
        Status::BadJournal => "its log is open, and is no journal of it",
    }
}

/// The word for what became of a file whose saving failed, which a program can look for.
fn mark_of_left(left: Option<Left>, is_unwritten: bool) -> &'static str {
    match left {
        Some(Left::Unsynced) => "unstored: ",
        Some(Left::Old) => "unchanged: ",
        _ if is_unwritten => "unchanged: ",
        Some(Left::Part) | None => "partly: ",
    }
}

/// What became of a file whose saving failed. Where all of its bytes are as they were to be and nothing was written, they may be those of
/// an earlier run, which could not be stored either.
fn words_of_left(left: Option<Left>, is_unwritten: bool) -> &'static str {
    match left {
        Some(Left::Unsynced) if is_unwritten =>
            "nothing was written now, and what stands in it may not be stored",
        Some(Left::Unsynced) =>
            "it was written, but may not be stored, and is to be written anew from a copy",
        Some(Left::Old) => "nothing was changed",
        _ if is_unwritten => "nothing was changed",
        Some(Left::Part) | None =>
            "it was written in part: each of its bytes is an old or a new one",
    }
}

/// The same of a file that was to be saved through its log.
const UNFINISHED: &str = "unfinished: the file could not be saved";

/// What is to be done with it.
const TO_BE_MENDED: &str =
    "open it with --journal next, which makes it the old file or the new one";

/// Writes a rule that the file breaks.
fn write_rule<W: fmt::Write>(broken: Broken, f: &mut fmt::Formatter<W>) -> fmt::Result {
    let Broken { phase, rule, at } = broken;
    let words = words_of_rule(phase, rule).unwrap_or("a rule is broken");
    write!(f, "rule {phase}.{rule} at byte {at}: {words}")
}

impl<'a> Telling<'a> {
    /// What is told where there was no memory to read the words.
    pub fn unread() -> Telling<'a>
        ensures { result.status ≡ Status.NoMemory }
    {
        Telling {
            said: Said::Unread,
            status: Status::NoMemory,
            notes: Notes::none(),
            news: FileNews::none(),
        }
    }

    /// Whether anything is told: of a run that ended with a status from 2 on, that refused a line, or that replaced a file.
    pub fn is_due(&self) -> bool
        ensures failed { (IsDone self.now.status → ⊥) → IsTrue result }
        ensures refused { 0 < self.now.notes.refusals.refused → IsTrue result }
        ensures replaced { 0 < self.now.notes.replaced → IsTrue result }
        ensures silent { IsDone self.now.status → self.now.notes.refusals.refused ≡ 0 → self.now.notes.replaced ≡ 0 → IsFalse result }
    {
        !self.status.is_done() || self.notes.refusals.refused > 0 || self.notes.replaced > 0
    }

    /// Whether standard error is the file itself, into which nothing may be told.
    pub fn goes_into_file(&self) -> bool {
        matches!(
            self.news.failure,
            Some(FileFailure::IsStream(Stream::Error))
        )
    }

    fn subject(&self) -> Subject<'a> {
        match self.said {
            Said::Run { name, .. } => Subject(Some(name)),
            Said::Fault(_) | Said::Unread => Subject(None),
        }
    }

    /// The name of the file, where the run came at it without its log, and something may be told.
    pub fn unlogged_name(&self) -> Option<&'a str> {
        match self.said {
            Said::Run {
                name,
                access: Access::Alone,
                ..
            } if !self.goes_into_file() => Some(name),
            _ => None,
        }
    }

    fn has_log(&self) -> bool {
        matches!(
            self.said,
            Said::Run {
                access: Access::WithLog,
                ..
            }
        )
    }

    fn saves(&self) -> bool {
        matches!(self.said, Said::Run { saves: true, .. })
    }

    /// Writes why the device failed, where that is known.
    fn write_cause<W: fmt::Write>(&self, f: &mut fmt::Formatter<W>) -> fmt::Result {
        match self.news.failure {
            Some(failure) => write!(f, ": {}", Cause(failure)),
            None => Ok(()),
        }
    }

    /// Writes that the file was rejected.
    fn write_rejection<W: fmt::Write>(&self, f: &mut fmt::Formatter<W>) -> fmt::Result {
        match self.notes.broken {
            Some(broken) => write_rule(broken, f)?,
            None => f.write_str(words_of_status(Status::Rejected))?,
        }
        match self.news.nature {
            Some(nature) => {
                let (words, packing) = nature.words();
                write!(f, ": {words}{packing}")
            }
            None => Ok(()),
        }
    }

    /// Writes what could not be done.
    fn write_failure<W: fmt::Write>(&self, f: &mut fmt::Formatter<W>) -> fmt::Result {
        if let (Status::Usage, Said::Fault(fault)) = (self.status, self.said) {
            return write!(f, "{fault}");
        }
        write!(f, "{}", self.subject())?;
        match self.status {
            Status::Rejected => self.write_rejection(f),
            Status::StoreReadFault => {
                f.write_str(words_of_status(self.status))?;
                self.write_cause(f)?;
                f.write_str("; nothing was saved")
            }
            Status::StoreWriteFault if self.has_log() => {
                f.write_str(UNFINISHED)?;
                self.write_cause(f)?;
                write!(f, "; {TO_BE_MENDED}")
            }
            Status::StoreWriteFault => {
                f.write_str(mark_of_left(self.notes.left, self.news.is_unwritten))?;
                f.write_str(words_of_status(self.status))?;
                self.write_cause(f)?;
                f.write_str("; ")?;
                f.write_str(words_of_left(self.notes.left, self.news.is_unwritten))
            }
            Status::Usage | Status::NoFile => f.write_str(words_of_status(self.status)),
            _ => {
                f.write_str(words_of_status(self.status))?;
                f.write_str("; nothing was saved")
            }
        }
    }

    /// Writes which lines were refused, and whether the file was saved all the same.
    fn write_refusals<W: fmt::Write>(&self, f: &mut fmt::Formatter<W>) -> fmt::Result {
        write!(
            f,
            "{}{}",
            self.subject(),
            RefusalsWords(self.notes.refusals)
        )?;
        if !self.status.is_done() {
            return Ok(());
        }
        f.write_str(if !self.saves() {
            "; nothing was saved"
        } else if self.has_log() {
            "; what changed was saved"
        } else if self.news.is_unwritten {
            "; nothing was to be saved"
        } else {
            "; the file was saved"
        })
    }

    /// Writes that a new file took the place of another.
    fn write_replaced<W: fmt::Write>(&self, f: &mut fmt::Formatter<W>) -> fmt::Result {
        let count = self.notes.replaced;
        write!(
            f,
            "{}the new file took the place of one of {count} bytes",
            self.subject()
        )
    }
}

impl fmt::Display for Telling<'_> {
    fn fmt<W: fmt::Write>(&self, f: &mut fmt::Formatter<W>) -> fmt::Result {
        let is_replaced = self.status.is_done() && self.notes.replaced > 0;
        if !self.status.is_done() {
            self.write_failure(f)?;
        } else if is_replaced {
            self.write_replaced(f)?;
        }
        if self.notes.refusals.refused == 0 {
            return Ok(());
        }
        if !self.status.is_done() || is_replaced {
            f.write_str("\n")?;
        }
        self.write_refusals(f)
    }
}
