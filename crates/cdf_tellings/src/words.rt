//! Why words of the command line ask for nothing that can be done.

use crate::help::{HELP, SHORT_HELP, VERSION};
use crate::quoted::Quoted;
use std::fmt;

/// Why words ask for nothing, or that they ask for help alone.
#[derive(Clone, Copy, Debug)]
pub enum WordsFault<'a> {
    /// They ask for the help.
    Help,
    /// They ask for the version.
    Version,
    /// A word is not UTF-8.
    NotUtf8,
    /// No file is named.
    NoFile,
    /// More than one file is named.
    TwoFiles(&'a str, &'a str),
    /// This word is no flag.
    NoFlag(&'a str),
    /// This word is one that is planned.
    NotYet(&'a str),
    /// This flag stands twice.
    Twice(&'a str),
    /// This flag has a value.
    WithValue(&'a str),
    /// The word that asks for a log is not the first one.
    JournalNotFirst,
    /// A new file is not checked.
    CheckedNew,
    /// They were refused, and no fault is found.
    Unknown,
}

/// The flags.
static FLAGS: [&str; 4] = ["--new", "--check", "--no-save", "--space"];

/// The word that asks for a log, where it is the first one.
pub const JOURNAL: &str = "--journal";

/// What is planned, as flags: options, and a command of a script that is not there yet.
static PLANNED: [&str; 3] = ["--make", "--tap", "--set-compress"];

/// Whether a word before `--` is a flag or would be one: it begins with `-` and is longer.
fn is_like_flag(word: &str) -> bool {
    word.len() > 1 && word.starts_with('-')
}

/// What of help the words ask for before `--`.
fn asks_help<'a>(words: &'a [String]) -> Option<WordsFault<'a>> {
    for word in words {
        match word.as_str() {
            "--" => return None,
            "--help" | "-h" => return Some(WordsFault::Help),
            "--version" | "-V" => return Some(WordsFault::Version),
            _ => {}
        }
    }
    None
}

/// What is wrong with a word that is like a flag, if it is none.
fn fault_of_flag(word: &str) -> Option<WordsFault<'_>> {
    let name = match word.split_once('=') {
        Some((name, _)) => name,
        None => word,
    };
    if word == JOURNAL {
        Some(WordsFault::JournalNotFirst)
    } else if PLANNED.contains(&name) {
        Some(WordsFault::NotYet(name))
    } else if !FLAGS.contains(&name) {
        Some(WordsFault::NoFlag(word))
    } else if name.len() < word.len() {
        Some(WordsFault::WithValue(name))
    } else {
        None
    }
}

/// Whether a word stands before a place among the words.
fn stands_before(words: &[String], place: usize, word: &str) -> bool {
    words
        .iter()
        .take(place)
        .any(|before| before.as_str() == word)
}

/// The first fault of the flags that stand before `--`.
fn fault_of_flags<'a>(words: &'a [String]) -> Option<WordsFault<'a>> {
    for (place, word) in words.iter().enumerate() {
        let word = word.as_str();
        if word == "--" {
            return None;
        }
        if is_like_flag(word) {
            let fault = fault_of_flag(word);
            if fault.is_some() {
                return fault;
            }
            if stands_before(words, place, word) {
                return Some(WordsFault::Twice(word));
            }
        }
    }
    None
}

/// What is wrong with the files that are named, if anything is.
fn fault_of_files<'a>(words: &'a [String]) -> Option<WordsFault<'a>> {
    let mut is_plain = false;
    let mut found: Option<&'a str> = None;
    for word in words {
        let word = word.as_str();
        if !is_plain && word == "--" {
            is_plain = true;
        } else if is_plain || !is_like_flag(word) {
            if let Some(first) = found {
                return Some(WordsFault::TwoFiles(first, word));
            }
            found = Some(word);
        }
    }
    match found {
        Some(_) => None,
        None => Some(WordsFault::NoFile),
    }
}

/// Why these words ask for nothing. They are such words.
pub fn fault_of_words<'a>(words: &'a [String]) -> WordsFault<'a> {
    if let Some(help) = asks_help(words) {
        return help;
    }
    if let Some(fault) = fault_of_flags(words) {
        return fault;
    }
    if let Some(fault) = fault_of_files(words) {
        return fault;
    }
    let is_checked = words.iter().any(|word| word.as_str() == "--check");
    let is_new = words.iter().any(|word| word.as_str() == "--new");
    if is_checked && is_new {
        WordsFault::CheckedNew
    } else {
        WordsFault::Unknown
    }
}

impl<'a> WordsFault<'a> {
    /// Writes what is wrong.
    fn write_fault<W: fmt::Write>(&self, f: &mut fmt::Formatter<W>) -> fmt::Result {
        match *self {
            WordsFault::Help | WordsFault::Version => Ok(()),
            WordsFault::NotUtf8 => f.write_str(
                "a word is not UTF-8, so no file can be named by it",
            ),
            WordsFault::NoFile => f.write_str("no file is named"),
            WordsFault::TwoFiles(first, second) => {
                write!(
                    f,
                    "two files are named: {}, {}",
                    Quoted(first),
                    Quoted(second)
                )
            }
            WordsFault::NoFlag(word) => write!(f, "{} is no flag", Quoted(word)),
            WordsFault::NotYet(word) => write!(f, "{} is not there yet", Quoted(word)),
            WordsFault::Twice(word) => write!(f, "{} stands twice", Quoted(word)),
            WordsFault::WithValue(word) => write!(f, "{} takes no value", Quoted(word)),
            WordsFault::JournalNotFirst => f.write_str("--journal is to be the first word"),
            WordsFault::CheckedNew => f.write_str("--check does not go with --new"),
            WordsFault::Unknown => f.write_str("these words ask for nothing that can be done"),
        }
    }
}

impl fmt::Display for WordsFault<'_> {
    fn fmt<W: fmt::Write>(&self, f: &mut fmt::Formatter<W>) -> fmt::Result {
        match self {
            WordsFault::Help => f.write_str(HELP),
            WordsFault::Version => f.write_str(VERSION),
            _ => {
                f.write_str("cdfedit: ")?;
                self.write_fault(f)?;
                f.write_str("\n")?;
                f.write_str(SHORT_HELP)
            }
        }
    }
}
