//! What holds of the variables of a good image, each law as the clause of a function.

ghost use Rattle.std.specs.Prelude.{ℕ, List};
ghost use Rattle.cdf_format.specs.Content.{content};
ghost use Rattle.cdf_format.specs.WellFormed.{Good};
ghost use Rattle.cdf_model.specs.declared.kinds.Kind.{Kind};
ghost use Rattle.cdf_vars.specs.Events.{HasWholeVariables};

/// The records that a good image stores and its pad values are whole, and there are few of both variables and records.
#[tactic(auto, using(crate::proofs::WholeVariables::has_whole_variables))]
pub fn variables_are_whole()
    ensures { (b : List ℕ) (kind : Kind) → Good b → HasWholeVariables (content b) kind }
{}
