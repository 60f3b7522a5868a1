//! The chains of the variables of a file.

ghost use Rattle.std.specs.Prelude.{◌≡◌};
ghost use Rattle.cdf_vars.specs.Chains.{chain_of};

use cdf_model::Kind;
use cdf_space::Chain;

/// The chain of the variables of a kind.
pub fn chain_of(kind: Kind) -> Chain
    ensures { result ≡ chain_of kind }
{
    match kind {
        Kind::R => Chain::RVars,
        Kind::Z => Chain::ZVars,
    }
}
