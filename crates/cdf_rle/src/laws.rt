//! What follows from the definition of run lengths, each law as the clause of a function.

ghost use Rattle.cdf_rle.specs.Laws.{LongestIsOne, PackedIsUnpacked, RunsReadBack};

/// Packed bytes stand for at most one list of plain bytes.
pub fn runs_read_back()
    ensures { RunsReadBack }
{}

/// What packed bytes stand for can be computed.
pub fn packed_is_unpacked()
    ensures { PackedIsUnpacked }
{}

/// Bytes are packed in one way where the runs are the longest, so what `encode` gives depends on the bytes alone.
pub fn longest_is_one()
    ensures { LongestIsOne }
{}
