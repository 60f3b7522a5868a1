//! What holds of the compact image.

ghost use Rattle.std.specs.Prelude.{◌≡◌, ◌<◌, ◌≤◌, ℕ, List, length, slice_index};
ghost use Rattle.cdf_model.specs.Limits.{image_limit};
ghost use Rattle.cdf_format.specs.Content.{content};
ghost use Rattle.cdf_format.specs.NotRead.{IsRead};
ghost use Rattle.cdf_format.specs.Owners.{space_of};
ghost use Rattle.cdf_format.specs.Shape.{shape};
ghost use Rattle.cdf_format.specs.WellFormed.{Good};
ghost use Rattle.cdf_model.specs.DataSet.{DataSet};
ghost use Rattle.cdf_writer.specs.Compact.{compact};
ghost use Rattle.cdf_writer.specs.Fine.{Fine, PlainVariables};

/// The compact image of a data set is good, means this data set and has no unused bytes; and where no variable is packed, all of it is read so far.
pub fn compact_is_good()
    ensures good { (d : DataSet) → Fine d → length (compact d) ≤ image_limit → Good (compact d) }
    ensures read { (d : DataSet) → Fine d → length (compact d) ≤ image_limit → PlainVariables d → IsRead (compact d) }
    ensures content { (d : DataSet) → Fine d → length (compact d) ≤ image_limit → content (compact d) ≡ d }
    ensures listed { (d : DataSet) → Fine d → length (compact d) ≤ image_limit → (space_of (compact d) (shape (compact d))).listed_bytes ≡ 0 }
    ensures unlisted { (d : DataSet) → Fine d → length (compact d) ≤ image_limit → (space_of (compact d) (shape (compact d))).unlisted_bytes ≡ 0 }
{}

/// What a good image means may be written as a compact image, and this one means the same, if it is not too long.
pub fn a_meaning_is_fine()
    ensures fine { (b : List ℕ) → Good b → ((i : ℕ) → slice_index b i < 256) → length b ≤ image_limit → Fine (content b) }
    ensures same { (b : List ℕ) → Good b → ((i : ℕ) → slice_index b i < 256) → length b ≤ image_limit → length (compact (content b)) ≤ image_limit → content (compact (content b)) ≡ content b }
{}
