//! What the steps of such a cut do together, as the clauses of a function.

ghost use Rattle.std.specs.Prelude.{◌≡◌, ◌≤◌, ◌+◌, ℕ, List, length};
ghost use Rattle.cdf_edits.specs.Commands.Allowances.{AllKeep};
ghost use Rattle.cdf_edits.specs.Commands.Cuts.{del_recs_changes};
ghost use Rattle.cdf_edits.specs.Commands.Room.{cut_room};
ghost use Rattle.cdf_format.specs.Content.{content, variable_of};
ghost use Rattle.cdf_format.specs.Owners.{owned};
ghost use Rattle.cdf_format.specs.Shape.{VariableShape, shape};
ghost use Rattle.cdf_model.specs.RecordSteps.{without_records};
ghost use Rattle.cdf_model.specs.VariableSteps.{with_variable};
ghost use Rattle.cdf_model.specs.declared.kinds.Kind.{Kind};
ghost use Rattle.cdf_packed_deletes.specs.Closing.{ClosingDone, done_acts, done_own};
ghost use Rattle.cdf_packed_deletes.specs.Opening.{OpeningDone, opened, opened_twice};
ghost use Rattle.cdf_packed_deletes.specs.Steps.{ClosesBySteps, OpensTwice};
ghost use Rattle.cdf_puts.specs.Going.{GoesOn, found_in};
ghost use Rattle.cdf_puts.specs.SoFar.{taken_bytes};

/// Records went from a packed variable without a rule for missing records, later ones closed up, and MaxRec was lowered: the image goes on from the
/// first one, each record keeps what `del-recs` does not concern, the steps are those of the command, and the content is without these records.
pub fn closing_is_done()
    ensures goes { (b mid now : List ℕ) (kind : Kind) (before : List VariableShape) (own : VariableShape) (after : List VariableShape) (first last : ℕ) → (x : ClosingDone b mid now kind before own after first last) → GoesOn b now kind before own (done_own x) after (done_acts x) }
    ensures keeps { (b mid now : List ℕ) (kind : Kind) (before : List VariableShape) (own : VariableShape) (after : List VariableShape) (first last : ℕ) → (x : ClosingDone b mid now kind before own after first last) → AllKeep b now (del_recs_changes b (shape b) (found_in b kind before own) first last) (done_acts x) (owned b (shape b)) }
    ensures steps { (b mid now : List ℕ) (kind : Kind) (before : List VariableShape) (own : VariableShape) (after : List VariableShape) (first last : ℕ) → (x : ClosingDone b mid now kind before own after first last) → ClosesBySteps b now (found_in b kind before own) first last own (done_own x) (done_acts x) }
    ensures takes { (b mid now : List ℕ) (kind : Kind) (before : List VariableShape) (own : VariableShape) (after : List VariableShape) (first last : ℕ) → (x : ClosingDone b mid now kind before own after first last) → taken_bytes (done_acts x) ≤ cut_room (variable_of b own) own.index first last }
    ensures longer { (b mid now : List ℕ) (kind : Kind) (before : List VariableShape) (own : VariableShape) (after : List VariableShape) (first last : ℕ) → (x : ClosingDone b mid now kind before own after first last) → (length b ≤ length now) × (length now ≤ length b + cut_room (variable_of b own) own.index first last) }
    ensures content { (b mid now : List ℕ) (kind : Kind) (before : List VariableShape) (own : VariableShape) (after : List VariableShape) (first last : ℕ) → (x : ClosingDone b mid now kind before own after first last) → content now ≡ with_variable (content b) (found_in b kind before own) (without_records (variable_of b own).sparse (variable_of b own) first last) }
{}

/// Records went from a packed variable under a rule for missing records, then what was past the new MaxRec, which was written where it fell: the
/// image goes on from the first one, each record keeps what `del-recs` does not concern, the steps are those of the command, and the content is
/// without these records.
pub fn opening_is_done()
    ensures goes { (b mid past now : List ℕ) (kind : Kind) (before : List VariableShape) (own : VariableShape) (after : List VariableShape) (first last : ℕ) → (x : OpeningDone b mid past now kind before own after first last) → GoesOn b now kind before own (opened x) after (opened_twice x) }
    ensures keeps { (b mid past now : List ℕ) (kind : Kind) (before : List VariableShape) (own : VariableShape) (after : List VariableShape) (first last : ℕ) → (x : OpeningDone b mid past now kind before own after first last) → AllKeep b now (del_recs_changes b (shape b) (found_in b kind before own) first last) (opened_twice x) (owned b (shape b)) }
    ensures steps { (b mid past now : List ℕ) (kind : Kind) (before : List VariableShape) (own : VariableShape) (after : List VariableShape) (first last : ℕ) → (x : OpeningDone b mid past now kind before own after first last) → OpensTwice b now (found_in b kind before own) first last own (opened x) (opened_twice x) }
    ensures takes { (b mid past now : List ℕ) (kind : Kind) (before : List VariableShape) (own : VariableShape) (after : List VariableShape) (first last : ℕ) → (x : OpeningDone b mid past now kind before own after first last) → taken_bytes (opened_twice x) ≤ cut_room (variable_of b own) own.index first last }
    ensures longer { (b mid past now : List ℕ) (kind : Kind) (before : List VariableShape) (own : VariableShape) (after : List VariableShape) (first last : ℕ) → (x : OpeningDone b mid past now kind before own after first last) → (length b ≤ length now) × (length now ≤ length b + cut_room (variable_of b own) own.index first last) }
    ensures content { (b mid past now : List ℕ) (kind : Kind) (before : List VariableShape) (own : VariableShape) (after : List VariableShape) (first last : ℕ) → (x : OpeningDone b mid past now kind before own after first last) → content now ≡ with_variable (content b) (found_in b kind before own) (without_records (variable_of b own).sparse (variable_of b own) first last) }
{}
