//! What a run makes of the locks of other programs.

ghost use Rattle.std.specs.Prelude.{◌≡◌, ◌↔◌, map, string_bytes, true, IsSomeAnd};
ghost use Rattle.cdf_start.specs.Words.{run_words};
ghost use Rattle.cdf_words.specs.Asking.{ask};

use cdf_start::behind_journal;
use cdf_store::Locks;
use cdf_words::{Asked, read_words};
use std::alloc::Global;

/// What the locks of other programs are to a run that was asked for this. A check heeds them, so that it does not judge a file that is
/// half saved. An edit ignores them, since who started it may have locked the file for it.
fn locks_for(asked: &Asked<'_>) -> Locks
    ensures { result ≡ Locks.Heeded ↔ (asked.now.check ≡ true) }
{
    if asked.check {
        Locks::Heeded
    } else {
        Locks::Ignored
    }
}

/// What the locks of other programs are to the run of these words. They are ignored where the words cannot be read.
pub fn locks_of(alloc: Global, words: &[String]) -> Locks
    ensures { result ≡ Locks.Heeded → IsSomeAnd (ask (run_words (map string_bytes words.now))) (λ asked. asked.check ≡ true) }
{
    let run = match behind_journal(words) {
        Some(rest) => rest,
        None => words,
    };
    match read_words(alloc, run) {
        Ok(asked) => locks_for(&asked),
        Err(_) => Locks::Ignored,
    }
}
