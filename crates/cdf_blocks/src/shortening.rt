//! The block of one leaf, given the bytes of some of its records alone.

ghost use Rattle.std.specs.Prelude.{◌≡◌, ◌≤◌, List, IfOk};
ghost use Rattle.cdf_area.specs.Calls.{Edits};
ghost use Rattle.cdf_format.specs.Shape.{VariableShape};
ghost use Rattle.cdf_index.specs.Sight.{seen};
ghost use Rattle.cdf_model.specs.Limits.{image_limit};
ghost use Rattle.cdf_model.specs.declared.kinds.Kind.{Kind};
ghost use Rattle.cdf_blocks.specs.Blocks.{HasPart, IsPartOf};
ghost use Rattle.cdf_blocks.specs.Shortened.{BlockShortened};

use crate::placing::{Part, Site};
use crate::storing::store_block;
use cdf_area::{Area, AreaError};
use cdf_index::Leaf;
use cdf_packed::pack_block;
use std::alloc::Global;

/// Lets a leaf of a packed variable have these of its records alone, and gives its block their plain bytes, packed where that makes its record
/// shorter: in its record where it keeps its kind and has room, else in one that is taken, and the old one is freed. Its entry names what it has
/// then. Gives the leaf as it is then. After an error a part of this may have been done.
pub fn shorten_block<A: Area>(
    alloc: Global,
    area: &mut A,
    site: Site,
    leaf: &Leaf,
    part: Part,
    plain: &[u8],
) -> Result<Leaf, AreaError>
    requires leaf { HasPart (A.image area.old) site (seen leaf.now) part plain.now (A.frame area.old).limit }
    requires limit { (A.frame area.old).limit ≤ image_limit }
    ensures shortened { IfOk result (λ new. (kind : Kind) (before : List VariableShape) (own : VariableShape) (after : List VariableShape) → IsPartOf (A.image area.old) kind before own after site (seen leaf.now) part plain.now (A.frame area.old).limit → BlockShortened (A.image area.old) (A.image area.new) kind before own after (seen leaf.now) (seen new) plain.now) }
    ensures first { IfOk result (λ new. new.first ≡ part.first) }
    ensures last { IfOk result (λ new. new.last ≡ part.last) }
    ensures area { Edits A.frame A.faults area.old area.new result }
{
    let packed = pack_block(alloc, plain)?;
    match packed {
        Some(runs) => store_block(alloc, area, site, leaf, part, true, &runs),
        None => store_block(alloc, area, site, leaf, part, false, plain),
    }
}
