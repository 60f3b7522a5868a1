//! The program over what its runtime gives: the words of the command line, the real files, standard input and standard output.
#![tactic(auto)]

mod beside;
mod locks;
mod standard;

ghost use Rattle.std.specs.Prelude.{◌≡◌};
ghost use Rattle.std.specs.Process.{exit_status};
ghost use Rattle.cdf_saving.specs.Statuses.{number_of};

use beside::has_open_log;
use cdf_journal::FileDisk;
use cdf_saving::Status;
use cdf_start::Started;
use cdf_store::{FileStore, Lockable, StdSink, StdSource};
use cdf_tap::{NeedsVarType, Tally, Tap};
use cdf_tellings::{FileNews, OpenLog, Said, Telling, WordsFault, look};
use locks::locks_of;
use standard::hold_standard;
use std::alloc::AllocError;
use std::env::Env;
use std::io::ErrorKind;
use std::os::fd::AsRawFd;
use std::process::ExitCode;
use std::rt::Files;
use std::{env, io};

/// The words after the program's name.
fn words_of(rt: &(impl Env + AllocGlobal)) -> io::Result<Vec<String>> {
    let mut words = Vec::new(rt.alloc());
    for word in env::args(rt)?.skip(1) {
        words.push(word)?;
    }
    Ok(words)
}

/// The exit status that says how a run ended.
fn exit_of(status: Status) -> ExitCode
    ensures { exit_status result ≡ number_of status }
{
    ExitCode::from(status.number())
}

/// Tells on standard error what there is to tell, unless that is the file itself. A line that cannot be written is let go: the status
/// says the rest.
fn tell(rt: &impl Eprint, telling: Telling<'_>) {
    if telling.is_due() && !telling.goes_into_file() {
        let _ = rt.eprintln(telling);
    }
}

/// What the file and its device tell once a run over them has ended.
fn news_of<R: Files>(started: &mut Started<FileStore<R>, FileDisk<R>>) -> FileNews
where
    R::File: AsRawFd + Lockable,
{
    let failure = match started.disk.failure() {
        Some(failure) => Some(failure),
        None => started.store.failure(),
    };
    let is_unwritten = !started.store.is_written();
    let nature = match started.notes.broken {
        Some(broken) => look(&mut started.store, broken),
        None => None,
    };
    FileNews {
        failure,
        is_unwritten,
        nature,
    }
}

/// Tells on standard error that a file has an open log, where a run did not ask for it.
fn tell_open_log<R>(rt: &R, telling: Telling<'_>)
where
    R: Files + Eprint + AllocGlobal,
{
    if let Some(name) = telling.unlogged_name() {
        if has_open_log(rt, rt.alloc(), name) {
            let _ = rt.eprintln(OpenLog(name));
        }
    }
}

/// Runs what these words ask for, tells what there is to tell, and answers how the run ended. A check heeds the locks of other programs.
/// Where a word is not UTF-8 there are no words.
fn run_words<R>(rt: &R, words: &[String], is_text: bool, taps: &mut Vec<Box<dyn Tap>>) -> Status
where
    R: Files + Env + Input + Print + Eprint + AllocGlobal,
    R::File: AsRawFd + Lockable,
{
    let store = FileStore::with_locks(rt, rt.alloc(), locks_of(rt.alloc(), words));
    let mut script = StdSource::new(rt.reader());
    let mut out = StdSink::new(io::writer(rt));
    let disk = FileDisk::new(rt, rt.alloc());
    let mut started = cdf_start::start(rt.alloc(), words, store, disk, &mut script, &mut out, taps);
    let said = if is_text {
        Said::of_words(rt.alloc(), words)
    } else {
        Said::Fault(WordsFault::NotUtf8)
    };
    let news = news_of(&mut started);
    let telling = Telling {
        said,
        status: started.status,
        notes: started.notes,
        news,
    };
    tell(rt, telling);
    tell_open_log(rt, telling);
    started.status
}

/// Runs what these words ask for, with the taps that the program comes with, which a report may name.
fn run_with_taps<R>(rt: &R, words: &[String], is_text: bool) -> Result<Status, AllocError>
where
    R: Files + Env + Input + Print + Eprint + AllocGlobal,
    R::File: AsRawFd + Lockable,
{
    let alloc = rt.alloc();
    let mut taps: Vec<Box<dyn Tap>> = Vec::new(alloc);
    taps.push(Box::new(alloc, Tally::new(alloc)?)?)?;
    taps.push(Box::new(alloc, NeedsVarType::new(alloc)?)?)?;
    Ok(run_words(rt, words, is_text, &mut taps))
}

/// Reads the words of the command line, and runs what they ask for. Words that are not UTF-8 name no file; where there is no memory to
/// read the words or to make the taps, the status is that of a run without memory.
fn run_program<R>(rt: &R) -> Status
where
    R: Files + Env + Input + Print + Eprint + AllocGlobal,
    R::File: AsRawFd + Lockable,
{
    let ran = match words_of(rt) {
        Ok(words) => run_with_taps(rt, &words, true),
        Err(error) if error.kind() == ErrorKind::InvalidData => run_with_taps(rt, &[], false),
        Err(_) => Err(AllocError),
    };
    if let Ok(status) = ran {
        return status;
    }
    let telling = Telling::unread();
    tell(rt, telling);
    telling.status
}

/// Runs the program to its end, and answers its exit status. Standard streams that are closed stay so: no file gets their descriptors.
pub fn start<R>(rt: &R) -> ExitCode
where
    R: Files + Env + Input + Print + Eprint + AllocGlobal,
    R::File: AsRawFd + Lockable,
{
    let held = hold_standard(rt);
    let status = run_program(rt);
    drop(held);
    exit_of(status)
}
