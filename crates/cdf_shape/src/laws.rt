//! What follows from the definitions, each law as the clause of a function.

ghost use Rattle.std.specs.Prelude.{◌≢◌, ℕ, List, Bool, IsTrue};
ghost use Rattle.cdf_model.specs.declared.head.Majority.{Majority};
ghost use Rattle.cdf_model.specs.Place.{has_place, place};
ghost use Rattle.cdf_shape.specs.Indices.{Differ};

/// Two indices that have a place and differ in a dimension that varies have different places, in either majority.
pub fn one_place()
    ensures { (majority : Majority) (dims : List ℕ) (varys : List Bool) (index other : List ℕ)
        → IsTrue (has_place dims index) → IsTrue (has_place dims other) → Differ index other varys
        → place majority dims varys index ≢ place majority dims varys other }
{}
