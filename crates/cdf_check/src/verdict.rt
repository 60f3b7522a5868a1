//! What a check answers.

ghost use Rattle.std.specs.Prelude.{◌≡◌};

use cdf_structure::Finding;

/// A rule that a file breaks: the first phase of which a rule is broken, the number of the rule in it, and the place in the file.
#[derive(Clone, Copy, Debug, PartialEq, Eq)]
pub struct Broken {
    pub phase: u8,
    pub rule: u8,
    pub at: u64,
}

/// What was found in this phase, none before it being broken.
pub fn in_phase(phase: u8, finding: Finding) -> Broken
    ensures { result ≡ record { phase = phase; rule = finding.rule; at = finding.place } }
{
    Broken {
        phase,
        rule: finding.rule,
        at: finding.place,
    }
}
