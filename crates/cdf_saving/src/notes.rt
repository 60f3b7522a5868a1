//! What is known of a run beside its status.

ghost use Rattle.std.specs.Prelude.{◌≡◌, Some, None, false};
ghost use Rattle.cdf_saving.specs.Refusing.{was_refused};

use crate::refusals::Refusals;
use cdf_check::Broken;

/// What a saving that failed left of the file.
#[derive(Clone, Copy, Debug, PartialEq, Eq)]
pub enum Left {
    /// The file has its old bytes.
    Old,
    /// The file has old bytes and new ones.
    Part,
    /// The file has all new bytes, which may not outlast a stop of the machine.
    Unsynced,
}

/// What is known of a run beside its status.
#[derive(Clone, Copy, Debug, PartialEq, Eq)]
pub struct Notes {
    /// The rule that the file breaks, where it was rejected.
    pub broken: Option<Broken>,
    /// What a saving that failed left.
    pub left: Option<Left>,
    /// How many bytes a new file took the place of.
    pub replaced: u64,
    /// The lines that were refused.
    pub refusals: Refusals,
}

impl Notes {
    /// Nothing is known.
    pub fn none() -> Notes
        ensures broken { result.broken ≡ None }
        ensures left { result.left ≡ None }
        ensures replaced { result.replaced ≡ 0 }
        ensures refusals { was_refused result.refusals ≡ false }
    {
        Notes {
            broken: None,
            left: None,
            replaced: 0,
            refusals: Refusals::none(),
        }
    }

    /// The file was rejected, if it breaks this rule.
    pub fn of_verdict(broken: Option<Broken>) -> Notes
        ensures broken { result.broken ≡ broken }
        ensures left { result.left ≡ None }
        ensures replaced { result.replaced ≡ 0 }
        ensures refusals { was_refused result.refusals ≡ false }
    {
        Notes {
            broken,
            left: None,
            replaced: 0,
            refusals: Refusals::none(),
        }
    }

    /// A script was answered, and the saving behind it failed and left this of the file.
    pub fn of_saving(refusals: Refusals, left: Left) -> Notes
        ensures broken { result.broken ≡ None }
        ensures left { result.left ≡ Some left }
        ensures replaced { result.replaced ≡ 0 }
        ensures refusals { result.refusals ≡ refusals }
    {
        Notes {
            broken: None,
            left: Some(left),
            replaced: 0,
            refusals,
        }
    }

    /// A script was answered.
    pub fn of_script(refusals: Refusals) -> Notes
        ensures broken { result.broken ≡ None }
        ensures left { result.left ≡ None }
        ensures replaced { result.replaced ≡ 0 }
        ensures refusals { result.refusals ≡ refusals }
    {
        Notes {
            broken: None,
            left: None,
            replaced: 0,
            refusals,
        }
    }
}
