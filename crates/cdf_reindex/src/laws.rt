//! What holds of an index built anew, each law as the clause of a function.

ghost use Rattle.cdf_reindex.specs.Pyramid.{LevelsMakePyramid};

/// Levels of nodes over leaves, each full from the left, up to a single node, are an index of these leaves in as few nodes as can be, in which no node has one behind it; up to 2^31 leaves have at most 6 levels. Where the leaves are in order it is in order.
#[tactic(auto, using(crate::proofs::Levels::makes_pyramid))]
pub fn levels_make_pyramid()
    ensures { LevelsMakePyramid }
{}
