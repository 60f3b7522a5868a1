//! What leaves a good image good, each law as the clause of a function.

ghost use Rattle.std.specs.Prelude.{◌≡◌, ◌+◌, ◌-◌, ◌*◌, ◌≤◌, ℕ, List, length, false};
ghost use Rattle.cdf_edits.specs.Edits.Standing.{StandsAmong};
ghost use Rattle.cdf_format.specs.Index.{Leaf};
ghost use Rattle.cdf_format.specs.Shape.{VariableShape, is_compressed};
ghost use Rattle.cdf_format.specs.VariableFields.{record_bytes};
ghost use Rattle.cdf_format.specs.WellFormed.{Good};
ghost use Rattle.cdf_index.specs.Adding.{AddsLeaf};
ghost use Rattle.cdf_model.specs.Limits.{image_limit};
ghost use Rattle.cdf_model.specs.declared.kinds.Kind.{Kind};
ghost use Rattle.cdf_puts.specs.Steps.{IsBlockBody, IsVacant, RecordsWritten};

/// A good image is good after `write_recs`, into a block that the index of a variable has.
pub fn good_after_records()
    ensures { (b now : List ℕ) (kind : Kind) (before : List VariableShape) (own : VariableShape) (after : List VariableShape) (l : Leaf) (k : ℕ) (bytes : List ℕ) → Good b → StandsAmong b kind before own after → RecordsWritten b now own l k bytes → length b ≤ image_limit → is_compressed b own.vdr ≡ false → Good now }
{}

/// A good image is good after `add_leaf`, where no block has the first record, no entry begins past it up to the last one, and the bytes are those of a block with so many records.
pub fn good_after_leaf()
    ensures { (b now : List ℕ) (kind : Kind) (before : List VariableShape) (own : VariableShape) (after : List VariableShape) (first last : ℕ) (body records : List ℕ) → Good b → StandsAmong b kind before own after → AddsLeaf b now own first last body → IsVacant own first last → IsBlockBody body records → length records ≡ (last + 1 - first) * record_bytes b own.vdr → length now ≤ image_limit → is_compressed b own.vdr ≡ false → Good now }
{}
