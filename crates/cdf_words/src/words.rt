//! The words of the command line are read.

ghost use Rattle.std.specs.Prelude.{◌≡◌, map, string_bytes, codes, Err, Some, None, true, false, IfOk};
ghost use Rattle.clap.specs.Words.{app_of, rule_of};
ghost use Rattle.cdf_words.specs.Asking.{ask, asked_for, said};
ghost use Rattle.cdf_words.specs.CommandLine.{command, file_rule, flag_rule, plain_app};

use clap::error::ErrorKind;
use clap::{Arg, ArgAction, Command};
use std::alloc::{AllocError, Global};

/// What a run is asked for.
#[derive(Clone, Copy)]
pub struct Asked<'a> {
    /// Begin with a new file.
    pub new: bool,
    /// Say whether the file is well formed, and no more.
    pub check: bool,
    /// Do not save.
    pub no_save: bool,
    /// Show what the records take, once the script was answered.
    pub space: bool,
    pub name: &'a str,
}

/// Why words ask for nothing.
#[derive(Clone, Copy, Debug, PartialEq, Eq)]
pub enum WordsError {
    /// They break the rules of the command line.
    Usage,
    /// There is no memory to read them.
    NoMemory,
}

impl From<AllocError> for WordsError {
    ghost use Rattle.std.specs.Prelude.{◌≡◌};
    ghost use Rattle.cdf_words.specs.declared.words.WordsError.TheVariants.{NoMemory};

    ghost from_gives = { λ _ e. e ≡ NoMemory };

    fn from(_: AllocError) -> Self {
        WordsError::NoMemory
    }
}

/// A flag of this name, with two dashes before it.
fn flag<'a>(alloc: Global, name: &'a str) -> Arg<'a>
    ensures rule { rule_of result ≡ flag_rule name.entry.now }
    ensures local { result.global ≡ false }
{
    Arg::new(alloc, name).long(name).action(ArgAction::SetTrue)
}

/// The file.
fn file<'a>(alloc: Global) -> Arg<'a>
    ensures rule { rule_of result ≡ file_rule }
    ensures local { result.global ≡ false }
{
    Arg::new(alloc, "file")
        .action(ArgAction::Set)
        .required(true)
}

/// The command without its arguments. It has no help of its own.
fn plain<'a>(alloc: Global) -> Command<'a>
    ensures { app_of result ≡ plain_app }
{
    Command::new(alloc, "cdfedit")
        .no_binary_name(true)
        .disable_help_flag(true)
}

/// The command with its flags and its file.
fn cdfedit<'a>(alloc: Global) -> Result<Command<'a>, AllocError>
    ensures { IfOk result (λ c. app_of c ≡ command) }
{
    let command = plain(alloc)
        .arg(flag(alloc, "new"))?
        .arg(flag(alloc, "check"))?
        .arg(flag(alloc, "no-save"))?
        .arg(flag(alloc, "space"))?
        .arg(file(alloc))?;
    Ok(command)
}

/// Why the words were not read: by their own fault, or for want of memory.
fn cause(kind: ErrorKind) -> WordsError
    ensures { result ≡ WordsError.Usage → kind ≡ ErrorKind.OutOfMemory → ⊥ }
{
    match kind {
        ErrorKind::OutOfMemory => WordsError::NoMemory,
        _ => WordsError::Usage,
    }
}

/// What the words say, be it to check a file that is made.
fn parse(alloc: Global, words: &[String]) -> Result<Asked<'_>, WordsError>
    ensures said { IfOk result (λ asked. said (map string_bytes words.now) ≡ Some (asked_for asked)) }
    ensures usage { result ≡ Err WordsError.Usage → said (map string_bytes words.now) ≡ None }
{
    let command = cdfedit(alloc)?;
    match command.try_get_matches_from(words) {
        Ok(matches) => Ok(Asked {
            new: matches.get_flag("new"),
            check: matches.get_flag("check"),
            no_save: matches.get_flag("no-save"),
            space: matches.get_flag("space"),
            name: matches.get_str("file").unwrap(),
        }),
        Err(error) => Err(cause(error.kind())),
    }
}

/// What the words ask for, if they are such words.
pub fn read_words(alloc: Global, words: &[String]) -> Result<Asked<'_>, WordsError>
    ensures asked { IfOk result (λ asked. ask (map string_bytes words.now) ≡ Some (asked_for asked)) }
    ensures old { IfOk result (λ asked. asked.check ≡ true → asked.new ≡ false) }
    ensures usage { result ≡ Err WordsError.Usage → ask (map string_bytes words.now) ≡ None }
{
    let asked = parse(alloc, words)?;
    if asked.new && asked.check {
        return Err(WordsError::Usage);
    }
    Ok(asked)
}
