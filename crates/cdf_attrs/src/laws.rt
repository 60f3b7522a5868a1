//! What follows from the definitions, each law as the clause of a function.

ghost use Rattle.std.specs.Prelude.{ℕ, List};
ghost use Rattle.cdf_attrs.specs.Showing.{HasWholeEntries};
ghost use Rattle.cdf_format.specs.Content.{content};
ghost use Rattle.cdf_format.specs.Shape.{Each};
ghost use Rattle.cdf_format.specs.WellFormed.{Good};

/// The value of each entry of a good image has a byte for each of its elements' bytes, and no more.
pub fn entries_are_whole()
    ensures { (b : List ℕ) → Good b → Each HasWholeEntries (content b).attributes }
{}
