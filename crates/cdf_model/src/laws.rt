//! What follows from the definitions, each law as the clause of a function.

ghost use Rattle.std.specs.Prelude.{◌≡◌, ◌↔◌, ◌+◌, ◌*◌, ◌^◌, ◌<◌, ◌≤◌, ℕ, suc, List, [], ◌∷◌, ◌++◌, length, map, take, true, false, Some, Ok, IsOkAnd};
ghost use Rattle.std.specs.Fmt.{decimal};
ghost use Rattle.std.specs.List.{All, flat_map, join_with_byte, list_all, slice_get};
ghost use Rattle.cdf_model.specs.declared.data_type.DataType.{DataType};
ghost use Rattle.cdf_model.specs.Arguments.{number_in};
ghost use Rattle.cdf_model.specs.declared.command.Command.{Command};
ghost use Rattle.cdf_model.specs.Grammar.{parse, Asks, Blank};
ghost use Rattle.cdf_model.specs.Limits.{line_limit};
ghost use Rattle.cdf_model.specs.Lines.{joined, kept, split, is_blank, is_one_line};
ghost use Rattle.cdf_model.specs.Quoting.{AWord, quote, at_end, before_quote, meaning, first_word, words};
ghost use Rattle.cdf_model.specs.DataSet.{DataSet};
ghost use Rattle.cdf_model.specs.Events.{events_of};
ghost use Rattle.cdf_model.specs.Sayable.{Sayable};
ghost use Rattle.cdf_model.specs.Spots.{rest};
ghost use Rattle.cdf_model.specs.Taps.{Tap, shown_to, state_after};
ghost use Rattle.cdf_model.specs.Values.{quoted, quoted_byte, text_size, values_in, values_text};
ghost use Rattle.cdf_model.specs.Walks.{Counts, Gave, records_of};
ghost use Rattle.cdf_model.specs.Written.{WritesLine};
ghost use Rattle.cdf_model.specs.declared.event.Event.{Event};
ghost use Rattle.cdf_model.specs.declared.spot.Spot.{Spot};
ghost use Rattle.cdf_model.specs.declared.spot.Spot.TheVariants as spots;

/// The lines of a text, each with its newline, and the bytes after the last newline are the text, and none of them has a newline in it.
pub fn lines_are_the_text()
    ensures text { (text : List ℕ) → joined (split text).0 (split text).1 ≡ text }
    ensures lines { (text : List ℕ) → list_all is_one_line (split text).0 ≡ true }
    ensures rest { (text : List ℕ) → is_one_line (split text).1 ≡ true }
{}

/// Bytes that are written between quotes mean themselves, and the quote behind them is the closing one. So a word between quotes that
/// ends its text, or has a separator behind it, is read as its bytes.
pub fn quoted_word_is_read_as_itself()
    ensures meaning { (place : ℕ) (bytes : List ℕ) → All (λ b. b < 256) bytes → meaning place (flat_map quoted_byte bytes) ≡ Ok bytes }
    ensures closed { (bytes text : List ℕ) → All (λ b. b < 256) bytes → before_quote (flat_map quoted_byte bytes ++ quote ∷ text) ≡ Some (length (flat_map quoted_byte bytes)) }
    ensures word { (place : ℕ) (bytes text : List ℕ) → All (λ b. b < 256) bytes → at_end text ≡ true → first_word place (quoted bytes ++ text) ≡ AWord (record { place = place; bytes = bytes }) (length (quoted bytes)) }
{}

/// The words that are read on a line are those that are written on it, in their order.
pub fn words_are_read_as_written()
    ensures { (line : List ℕ) (ws : List (List ℕ)) → WritesLine line ws ↔ IsOkAnd (words line) (λ read. map (λ word. word.bytes) read ≡ ws) }
{}

/// Words that are written between quotes and joined by one blank each are read as these words, in their order.
pub fn quoted_words_are_read_as_themselves()
    ensures { (ws : List (List ℕ)) → All (λ word. All (λ b. b < 256) word) ws → IsOkAnd (words (join_with_byte 32 (map quoted ws))) (λ read. map (λ word. word.bytes) read ≡ ws) }
{}

/// The decimal text of a number of at most 32 bits is read as the number.
pub fn decimal_is_read_as_its_number()
    ensures { (n : ℕ) → n < 2 ^ 32 → number_in (decimal n) ≡ Some n }
{}

/// A line gives nothing exactly where it is blank: each other line is a command or a fault.
pub fn a_line_is_blank()
    ensures { (line : List ℕ) → (parse (Some line) ≡ Blank) ↔ (is_blank line ≡ true) }
{}

/// A line that is not too long gives a command with no assumed scope, and with as many values as it takes, which fit on a line.
pub fn a_command_is_sayable()
    ensures line { (line : List ℕ) (c : Command) → length line ≤ line_limit → parse (Some line) ≡ Asks c → Sayable c }
    ensures kept { (line : List ℕ) (c : Command) → parse (kept line) ≡ Asks c → Sayable c }
{}

/// The values that a reply shows are words, and as the values of a command they are read as the same bytes.
pub fn shown_values_are_read_back()
    ensures { (t : DataType) (elems count : ℕ) (bytes : List ℕ) → 0 < text_size t elems → length bytes ≡ count * text_size t elems → All (λ b. b < 256) bytes → IsOkAnd (words (values_text t elems bytes)) (λ read. values_in t elems count (map (λ word. word.bytes) read) ≡ Ok bytes) }
{}

/// A walk begins with no event given. Each call gives the event that is next in the content, and none comes exactly behind the last.
pub fn walks_give()
    ensures begins { (d : DataSet) → Gave d spots.Head 0 }
    ensures goes_on { (d : DataSet) (spot after : Spot) (k : ℕ) (event : Event) → Gave d spot k → rest d spot ≡ event ∷ rest d after → Gave d after (k + 1) × (slice_get (events_of d) k ≡ Some event) }
    ensures ends { (d : DataSet) (spot : Spot) (k : ℕ) → Gave d spot k → rest d spot ≡ [] → k ≡ length (events_of d) }
{}

/// A walk that counts the records it gave has, with those that are left, all records of the data set.
pub fn walks_count()
    ensures begins { (d : DataSet) → Counts d spots.Head 0 }
    ensures goes_on { (d : DataSet) (spot after : Spot) (n : ℕ) (event : Event) → Counts d spot n → rest d spot ≡ event ∷ rest d after → Counts d after (n + records_of event) }
{}

/// A tap sees the shortest part from the front of the events, of at least one event, behind which its state is final; where there is none, it sees all of them.
pub fn a_tap_sees_until_its_end()
    ensures ends { (tap : Tap) (shown : List Event) (k : ℕ) → k < length shown → tap.is_final (state_after tap (take (suc k) shown)) ≡ true → ((j : ℕ) → j < k → tap.is_final (state_after tap (take (suc j) shown)) ≡ false) → shown_to tap shown ≡ (state_after tap (take (suc k) shown), true) }
    ensures sees_all { (tap : Tap) (shown : List Event) → ((j : ℕ) → j < length shown → tap.is_final (state_after tap (take (suc j) shown)) ≡ false) → shown_to tap shown ≡ (state_after tap shown, false) }
{}
