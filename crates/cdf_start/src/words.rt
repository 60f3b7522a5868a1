//! The word that asks for a log.

ghost use Rattle.std.specs.Prelude.{◌≡◌, ◌&&◌, map, string_bytes};
ghost use Rattle.std.specs.Option.{option_map};
ghost use Rattle.cdf_start.specs.Words.{behind_journal};

use cdf_words::Asked;

/// The word that asks for a log, where it is the first.
const JOURNAL: &str = "--journal";

/// The words behind the one that asks for a log, where it is the first.
pub fn behind_journal(words: &[String]) -> Option<&[String]>
    ensures { option_map (λ rest. map string_bytes rest.now) result ≡ behind_journal (map string_bytes words.now) }
{
    let (first, rest) = words.split_first()?;
    if first.as_str() == JOURNAL {
        Some(rest)
    } else {
        None
    }
}

/// Whether a run needs no file: over a new one that is not saved.
pub fn is_in_memory(asked: &Asked<'_>) -> bool
    ensures { result ≡ (asked.now.new && asked.now.no_save) }
{
    asked.new && asked.no_save
}
