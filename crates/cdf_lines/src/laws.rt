//! What follows from the definitions, each law as the clause of a function: whatever the pieces of a script, its lines are those of the bytes joined.

ghost use Rattle.std.specs.Prelude.{◌≡◌, ℕ, List, ◌++◌};
ghost use Rattle.cdf_model.specs.Lines.{kept, lines, split, whole_lines};
ghost use Rattle.cdf_lines.specs.Pending.{Pending, fed, last_of, new_lines, new_rest};

/// A further piece ends its lines, the first of which goes on from the bytes taken so far.
pub fn whole_lines_grow()
    ensures { (taken piece : List ℕ) → whole_lines (taken ++ piece) ≡ whole_lines taken ++ new_lines (kept (split taken).1) piece }
{}

/// What has not ended after a further piece.
pub fn rest_grows()
    ensures { (taken piece : List ℕ) → kept (split (taken ++ piece)).1 ≡ new_rest (kept (split taken).1) piece }
{}

/// All lines of a text: those that a newline ends, and what stands after the last newline.
pub fn last_line_counts()
    ensures { (text : List ℕ) → lines text ≡ whole_lines text ++ last_of (kept (split text).1) }
{}

/// Two pieces are as their bytes joined.
pub fn pieces_join()
    ensures { (p : Pending) (a b : List ℕ) → fed (fed p a) b ≡ fed p (a ++ b) }
{}
