//! `cdf_bench`: does one piece of work with the libraries, on data that it makes itself, and prints a line that depends on all of it.
//! On standard error it says how many microseconds each part took.
//!
//!     rle SIZE            packs so many bytes, and reads them back
//!     digest FILE         the MD5 digest of a file that is held in memory
//!     names COUNT ASKED   a million look-ups of so many different ones among so many names
//!     pages COUNT SIZE    so many reads of 8 bytes from a file of so many bytes in pages, and as many again
//!     undo COUNT SIZE     so many writes of 8 bytes under one mark of an area of so many bytes, and back
//!     copy FILE [COPY]    the compact image of what a file tells, which is written to the copy
//!     log COUNT SIZE      the bytes that are written where so many values are put into a file of so many bytes through a log
#![tactic(auto)]

mod copy;
mod data;
mod failed;
mod log;
mod names;
mod pages;
mod rle;
mod undo;
mod whole;

use failed::Failed;
use std::env::Env;
use std::process::ExitCode;
use std::rt::Runtime;
use std::time::Instant;
use std::{env, io};

/// The words after the program's name.
fn read_words(rt: &(impl Env + AllocGlobal)) -> io::Result<Vec<String>> {
    let mut words = Vec::new(rt.alloc());
    for word in env::args(rt)?.skip(1) {
        words.push(word)?;
    }
    Ok(words)
}

fn text(words: &[String], place: usize) -> Result<&str, Failed> {
    match words.get(place) {
        Some(word) => Ok(word.as_str()),
        None => Err(Failed::Words),
    }
}

fn number(words: &[String], place: usize) -> Result<usize, Failed> {
    match text(words, place)?.parse::<usize>() {
        Ok(number) => Ok(number),
        Err(_) => Err(Failed::Words),
    }
}

/// Says how long a part took that began at `start`.
fn say_lap(rt: &impl Runtime, part: &str, start: &Instant) -> Result<(), Failed> {
    let micros = start.elapsed(rt)?.as_micros();
    eprintln!(rt; "{part} {micros}")?;
    Ok(())
}

fn run(rt: &(impl Runtime + AllocGlobal)) -> Result<(), Failed> {
    let words = read_words(rt)?;
    match text(&words, 0)? {
        "rle" => rle::run(rt, number(&words, 1)?),
        "copy" => copy::run(rt, text(&words, 1)?, words.get(2)),
        "digest" => whole::run(rt, text(&words, 1)?),
        "names" => names::run(rt, number(&words, 1)?, number(&words, 2)?),
        "pages" => pages::run(rt, number(&words, 1)?, number(&words, 2)?),
        "log" => log::run(rt, number(&words, 1)?, number(&words, 2)?),
        "undo" => undo::run(rt, number(&words, 1)?, number(&words, 2)?),
        _ => Err(Failed::Words),
    }
}

fn main(rt: HostRuntime) -> ExitCode {
    match run(&rt) {
        Ok(()) => ExitCode::SUCCESS,
        Err(_) => ExitCode::FAILURE,
    }
}
