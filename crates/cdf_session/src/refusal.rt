//! Why no session began.

use cdf_area::AreaError;
use cdf_check::Broken;

/// Why no session began.
#[derive(Clone, Copy, Debug, PartialEq, Eq)]
pub enum AdoptError {
    /// The file breaks this rule.
    Rejected { broken: Broken },
    /// The area failed, or there was no memory left.
    Failed { error: AreaError },
}

/// An area over which no session began, with its image as it was.
#[derive(Drop)]
pub struct Refusal<A> {
    pub area: A,
    pub why: AdoptError,
}
