//! What holds of the compact image of what a good image means.

ghost use Rattle.std.specs.Prelude.{◌≡◌, ◌<◌, ◌≤◌, ℕ, List, length, slice_index};
ghost use Rattle.cdf_convert.specs.Laws.{IsOfBytes};
ghost use Rattle.cdf_format.specs.Content.{content};
ghost use Rattle.cdf_format.specs.NotRead.{IsRead};
ghost use Rattle.cdf_format.specs.Owners.{space_of};
ghost use Rattle.cdf_format.specs.Shape.{shape};
ghost use Rattle.cdf_format.specs.WellFormed.{Good};
ghost use Rattle.cdf_model.specs.Limits.{image_limit};
ghost use Rattle.cdf_writer.specs.Compact.{compact};
ghost use Rattle.cdf_writer.specs.Fine.{Fine, PlainVariables};

/// What a good image of bytes means can be written, and none of its variables is packed where all of the image is read so far.
pub fn a_meaning_can_be_written()
    ensures fine { (b : List ℕ) → Good b → IsOfBytes b → length b ≤ image_limit → Fine (content b) }
    ensures plain { (b : List ℕ) → IsRead b → PlainVariables (content b) }
{}

/// The compact image of what a good image means is good, means the same and has no unused bytes, if it is not too long; and where all of the one is read so far, so is all of the other.
pub fn a_copy_is_good()
    ensures good { (b : List ℕ) → Good b → IsOfBytes b → length b ≤ image_limit → length (compact (content b)) ≤ image_limit → Good (compact (content b)) }
    ensures read { (b : List ℕ) → Good b → IsRead b → IsOfBytes b → length b ≤ image_limit → length (compact (content b)) ≤ image_limit → IsRead (compact (content b)) }
    ensures same { (b : List ℕ) → Good b → IsOfBytes b → length b ≤ image_limit → length (compact (content b)) ≤ image_limit → content (compact (content b)) ≡ content b }
    ensures listed { (b : List ℕ) → Good b → IsOfBytes b → length b ≤ image_limit → length (compact (content b)) ≤ image_limit → (space_of (compact (content b)) (shape (compact (content b)))).listed_bytes ≡ 0 }
    ensures unlisted { (b : List ℕ) → Good b → IsOfBytes b → length b ≤ image_limit → length (compact (content b)) ≤ image_limit → (space_of (compact (content b)) (shape (compact (content b)))).unlisted_bytes ≡ 0 }
{}
