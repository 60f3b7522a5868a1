//! What a cut of all past MaxRec and the put of a record behind it do together, each law as the clause of a function.

ghost use Rattle.std.specs.Prelude.{◌≡◌, ◌<◌, ◌≤◌, ◌+◌, ◌++◌, ℕ, List, length, true};
ghost use Rattle.cdf_edits.specs.Commands.Allowances.{AllKeep};
ghost use Rattle.cdf_edits.specs.Commands.PutSteps.{PutsBySteps, Stage};
ghost use Rattle.cdf_edits.specs.Commands.Puts.{put_changes};
ghost use Rattle.cdf_edits.specs.Commands.Room.{put_room};
ghost use Rattle.cdf_edits.specs.Index.Blocks.{first_written};
ghost use Rattle.cdf_edits.specs.Space.Acts.{Act, ActsFollow};
ghost use Rattle.cdf_format.specs.Content.{content, variable_of};
ghost use Rattle.cdf_format.specs.Index.{leaves_of};
ghost use Rattle.cdf_format.specs.Owners.{owned};
ghost use Rattle.cdf_format.specs.Shape.{VariableShape, shape};
ghost use Rattle.cdf_format.specs.Stored.{is_little};
ghost use Rattle.cdf_format.specs.VariableFields.{record_bytes};
ghost use Rattle.cdf_model.specs.ByteOrder.{turned};
ghost use Rattle.cdf_model.specs.DataSet.{extent};
ghost use Rattle.cdf_model.specs.RecordSteps.{with_record};
ghost use Rattle.cdf_model.specs.VariableSteps.{with_variable};
ghost use Rattle.cdf_model.specs.declared.kinds.Kind.{Kind};
ghost use Rattle.cdf_puts.specs.Going.{GoesOn, found_in};
ghost use Rattle.cdf_puts.specs.SoFar.{taken_bytes};
ghost use Rattle.cdf_puts.specs.declared.putting.NewRecord.{NewRecord};
ghost use Rattle.cdf_put_steps.specs.Along.{stored_pad};
ghost use Rattle.cdf_packed_cuts.specs.Past.{HasRoom, PackedPast};
ghost use Rattle.cdf_packed_puts.specs.Putting.{EndsBefore, Packing};
ghost use Rattle.cdf_packed_gaps.specs.CutThenPut.{CutThenPut, CutsForPut, PackingToCut};

/// Where there is room for the put of a record past MaxRec + 1, there is room for the cut of what is past MaxRec. That leaves the variable and the content, and no block or entry from there on; and what the put after it has room for is within the room of both.
pub fn cut_leaves_put()
    ensures room { (b : List ℕ) (kind : Kind) (before : List VariableShape) (own : VariableShape) (after : List VariableShape) (first n limit : ℕ) → CutsForPut b kind before own after first n → (variable_of b own).rle ≡ true → length b + put_room (variable_of b own) own.index n ≤ limit → HasRoom b (leaves_of own.index) (record_bytes b own.vdr) first limit }
    ensures gone { (b mid : List ℕ) (kind : Kind) (before : List VariableShape) (own : VariableShape) (after : List VariableShape) (first n : ℕ) → CutsForPut b kind before own after first n → (cut : PackedPast b mid kind before own after first) → EndsBefore (extent (variable_of mid cut.own').max_rec) cut.own'.index }
    ensures variable { (b mid : List ℕ) (kind : Kind) (before : List VariableShape) (own : VariableShape) (after : List VariableShape) (first n : ℕ) → CutsForPut b kind before own after first n → (cut : PackedPast b mid kind before own after first) → variable_of mid cut.own' ≡ variable_of b own }
    ensures content { (b mid : List ℕ) (kind : Kind) (before : List VariableShape) (own : VariableShape) (after : List VariableShape) (first n : ℕ) → CutsForPut b kind before own after first n → PackedPast b mid kind before own after first → content mid ≡ content b }
    ensures within { (b mid : List ℕ) (kind : Kind) (before : List VariableShape) (own : VariableShape) (after : List VariableShape) (first n : ℕ) → CutsForPut b kind before own after first n → (cut : PackedPast b mid kind before own after first) → (variable_of b own).rle ≡ true → taken_bytes cut.acts + put_room (variable_of mid cut.own') cut.own'.index n ≤ put_room (variable_of b own) own.index n }
    ensures fits { (b mid : List ℕ) (kind : Kind) (before : List VariableShape) (own : VariableShape) (after : List VariableShape) (first n : ℕ) (acts : List Act) → CutsForPut b kind before own after first n → (cut : PackedPast b mid kind before own after first) → (variable_of b own).rle ≡ true → taken_bytes acts ≤ put_room (variable_of mid cut.own') cut.own'.index n → taken_bytes (cut.acts ++ acts) ≤ put_room (variable_of b own) own.index n }
{}

/// The image after the cut is one in which the record may be put, and it alone is written.
pub fn put_goes_on()
    ensures packs { (b mid : List ℕ) (kind : Kind) (before : List VariableShape) (own : VariableShape) (after : List VariableShape) (first limit : ℕ) (put : NewRecord) → PackingToCut b kind before own after first put limit → (cut : PackedPast b mid kind before own after first) → Packing mid kind before cut.own' after put limit }
    ensures begins { (b mid : List ℕ) (kind : Kind) (before : List VariableShape) (own : VariableShape) (after : List VariableShape) (first limit : ℕ) (put : NewRecord) → PackingToCut b kind before own after first put limit → (cut : PackedPast b mid kind before own after first) → first_written (variable_of mid cut.own') put.rec ≡ put.rec }
{}

/// What is past MaxRec was cut, a record was put, and MaxRec was raised: the first image goes on to the last one, each record keeps what it has to, the steps are those of `put-rec`, and the content has the record.
pub fn cut_and_put()
    ensures goes { (b mid now : List ℕ) (kind : Kind) (before : List VariableShape) (own : VariableShape) (after : List VariableShape) (first n : ℕ) (raw : List ℕ) (cut : PackedPast b mid kind before own after first) (to : Stage) (acts : List Act) → CutThenPut b mid now kind before own after first n raw cut to acts → GoesOn b now kind before own to.own after (cut.acts ++ acts) }
    ensures follows { (b mid now : List ℕ) (kind : Kind) (before : List VariableShape) (own : VariableShape) (after : List VariableShape) (first n : ℕ) (raw : List ℕ) (cut : PackedPast b mid kind before own after first) (to : Stage) (acts : List Act) → CutThenPut b mid now kind before own after first n raw cut to acts → ActsFollow b now (cut.acts ++ acts) }
    ensures keeps { (b mid now : List ℕ) (kind : Kind) (before : List VariableShape) (own : VariableShape) (after : List VariableShape) (first n : ℕ) (raw : List ℕ) (cut : PackedPast b mid kind before own after first) (to : Stage) (acts : List Act) → CutThenPut b mid now kind before own after first n raw cut to acts → AllKeep b now (put_changes b (shape b) (found_in b kind before own) n) (cut.acts ++ acts) (owned b (shape b)) }
    ensures steps { (b mid now : List ℕ) (kind : Kind) (before : List VariableShape) (own : VariableShape) (after : List VariableShape) (first n : ℕ) (raw : List ℕ) (cut : PackedPast b mid kind before own after first) (to : Stage) (acts : List Act) → CutThenPut b mid now kind before own after first n raw cut to acts → length raw ≡ record_bytes b own.vdr → PutsBySteps b now (found_in b kind before own) n own (cut.acts ++ acts) }
    ensures content { (b mid now : List ℕ) (kind : Kind) (before : List VariableShape) (own : VariableShape) (after : List VariableShape) (first n : ℕ) (raw : List ℕ) (cut : PackedPast b mid kind before own after first) (to : Stage) (acts : List Act) → CutThenPut b mid now kind before own after first n raw cut to acts
        → length raw ≡ record_bytes b own.vdr → length (stored_pad b own) ≡ record_bytes b own.vdr → (bytes : List ℕ) → turned (variable_of b own).type (is_little b) raw ≡ bytes → content now ≡ with_variable (content b) (found_in b kind before own) (with_record (variable_of b own) n bytes) }
{}
