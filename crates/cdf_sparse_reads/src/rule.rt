//! What the rule for missing records of a variable means.

ghost use Rattle.std.specs.Prelude.{◌≡◌};
ghost use Rattle.cdf_edits.specs.Index.Blocks.{is_sparse};

use cdf_model::Sparse;

/// Whether a variable of this rule may lack records.
pub fn has_gaps(rule: Sparse) -> bool
    ensures { result ≡ is_sparse rule }
{
    match rule {
        Sparse::NoRule => false,
        Sparse::Pad | Sparse::Previous => true,
    }
}
