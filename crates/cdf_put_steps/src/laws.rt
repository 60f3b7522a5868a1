//! What the steps of a put do together, each law as the clause of a function.

ghost use Rattle.std.specs.Prelude.{◌≡◌, ◌<◌, ◌≤◌, ◌++◌, ℕ, List, [], length, false};
ghost use Rattle.cdf_edits.specs.Commands.Allowances.{AllKeep};
ghost use Rattle.cdf_edits.specs.Commands.PutSteps.{Put, PutsBySteps, PutsLeaf, Stage};
ghost use Rattle.cdf_edits.specs.Commands.Puts.{put_changes};
ghost use Rattle.cdf_edits.specs.Edits.Standing.{StandsAmong};
ghost use Rattle.cdf_edits.specs.Index.Blocks.{cuts_before_put};
ghost use Rattle.cdf_edits.specs.Space.Acts.{Act, ActsFollow};
ghost use Rattle.cdf_format.specs.Content.{content, variable_of};
ghost use Rattle.cdf_format.specs.Owners.{owned};
ghost use Rattle.cdf_format.specs.Shape.{VariableShape, shape};
ghost use Rattle.cdf_format.specs.Stored.{is_little};
ghost use Rattle.cdf_format.specs.VariableFields.{max_rec_at, record_bytes};
ghost use Rattle.cdf_format.specs.WellFormed.{Good};
ghost use Rattle.cdf_model.specs.ByteOrder.{turned};
ghost use Rattle.cdf_model.specs.DataSet.{extent};
ghost use Rattle.cdf_model.specs.Limits.{image_limit};
ghost use Rattle.cdf_model.specs.VariableSteps.{with_variable};
ghost use Rattle.cdf_model.specs.Reading.{pad_record};
ghost use Rattle.cdf_model.specs.RecordSteps.{with_record};
ghost use Rattle.cdf_model.specs.declared.kinds.Kind.{Kind};
ghost use Rattle.cdf_puts.specs.Going.{GoesOn, found_in};
ghost use Rattle.cdf_puts.specs.SoFar.{MaxRecDone};
ghost use Rattle.cdf_put_steps.specs.Along.{LeavesAlong, PutsAlong, at_start, put_in, stored_pad};

/// Two steps from image to image, each by acts of any kind, are one.
pub fn images_go_along()
    ensures { (b mid now : List ℕ) (kind : Kind) (before : List VariableShape) (own own' own'' : VariableShape) (after : List VariableShape) (acts acts' : List Act) → Good b → StandsAmong b kind before own after → GoesOn b mid kind before own own' after acts → GoesOn mid now kind before own' own'' after acts' → GoesOn b now kind before own own'' after (acts ++ acts') }
{}

/// A put of which nothing is cut first begins with its image, and each leaf that is put leads it on.
pub fn put_goes_along()
    ensures starts { (b : List ℕ) (kind : Kind) (before : List VariableShape) (own : VariableShape) (after : List VariableShape) (n : ℕ) (raw : List ℕ) → Good b → StandsAmong b kind before own after → cuts_before_put (variable_of b own) n ≡ false → PutsAlong b kind before own after n raw (at_start b (put_in b kind before own n raw) own) [] }
    ensures leads { (b : List ℕ) (kind : Kind) (before : List VariableShape) (own : VariableShape) (after : List VariableShape) (n : ℕ) (raw : List ℕ) (mid to : Stage) (acts : List Act) → PutsAlong b kind before own after n raw mid acts → PutsLeaf (put_in b kind before own n raw) mid to → GoesOn mid.image to.image kind before mid.own to.own after to.acts → PutsAlong b kind before own after n raw to (acts ++ to.acts) }
{}

/// The leaves of a put begin with any image, and each leaf that is put leads them on. Where nothing is cut first they are the put.
pub fn leaves_go_along()
    ensures starts { (p : Put) (kind : Kind) (before after : List VariableShape) (from : Stage) → LeavesAlong p kind before after from from [] }
    ensures leads { (p : Put) (kind : Kind) (before after : List VariableShape) (from mid to : Stage) (acts : List Act) → LeavesAlong p kind before after from mid acts → PutsLeaf p mid to → GoesOn mid.image to.image kind before mid.own to.own after to.acts → LeavesAlong p kind before after from to (acts ++ to.acts) }
    ensures puts { (b : List ℕ) (kind : Kind) (before : List VariableShape) (own : VariableShape) (after : List VariableShape) (n : ℕ) (raw : List ℕ) (to : Stage) (acts : List Act) → Good b → StandsAmong b kind before own after → cuts_before_put (variable_of b own) n ≡ false → LeavesAlong (put_in b kind before own n raw) kind before after (at_start b (put_in b kind before own n raw) own) to acts → PutsAlong b kind before own after n raw to acts }
{}

/// A put went past its record, and MaxRec was raised where that was due: the first image goes on to the last one, each record keeps what it has to, the steps are those of `put-rec`, and the content has the record.
pub fn put_is_done()
    ensures goes { (b now : List ℕ) (kind : Kind) (before : List VariableShape) (own : VariableShape) (after : List VariableShape) (n : ℕ) (raw : List ℕ) (to : Stage) (acts : List Act) → PutsAlong b kind before own after n raw to acts → n < to.next → MaxRecDone b to.image now kind own to.own n → length to.image ≤ image_limit → GoesOn b now kind before own to.own after acts }
    ensures follows { (b now : List ℕ) (kind : Kind) (before : List VariableShape) (own : VariableShape) (after : List VariableShape) (n : ℕ) (raw : List ℕ) (to : Stage) (acts : List Act) → PutsAlong b kind before own after n raw to acts → n < to.next → MaxRecDone b to.image now kind own to.own n → length to.image ≤ image_limit → ActsFollow b now acts }
    ensures keeps { (b now : List ℕ) (kind : Kind) (before : List VariableShape) (own : VariableShape) (after : List VariableShape) (n : ℕ) (raw : List ℕ) (to : Stage) (acts : List Act) → PutsAlong b kind before own after n raw to acts → n < to.next → MaxRecDone b to.image now kind own to.own n → length to.image ≤ image_limit → AllKeep b now (put_changes b (shape b) (found_in b kind before own) n) acts (owned b (shape b)) }
    ensures steps { (b now : List ℕ) (kind : Kind) (before : List VariableShape) (own : VariableShape) (after : List VariableShape) (n : ℕ) (raw : List ℕ) (to : Stage) (acts : List Act) → PutsAlong b kind before own after n raw to acts → n < to.next → MaxRecDone b to.image now kind own to.own n → length to.image ≤ image_limit → length raw ≡ record_bytes b own.vdr → PutsBySteps b now (found_in b kind before own) n own acts }
    ensures content { (b now : List ℕ) (kind : Kind) (before : List VariableShape) (own : VariableShape) (after : List VariableShape) (n : ℕ) (raw : List ℕ) (to : Stage) (acts : List Act) → PutsAlong b kind before own after n raw to acts → n < to.next → MaxRecDone b to.image now kind own to.own n → length to.image ≤ image_limit
        → length raw ≡ record_bytes b own.vdr → length (stored_pad b own) ≡ record_bytes b own.vdr → (bytes : List ℕ) → turned (variable_of b own).type (is_little b) raw ≡ bytes → (extent (max_rec_at b own.vdr) < n → turned (variable_of b own).type (is_little b) (stored_pad b own) ≡ pad_record (variable_of b own))
        → content now ≡ with_variable (content b) (found_in b kind before own) (with_record (variable_of b own) n bytes) }
{}
