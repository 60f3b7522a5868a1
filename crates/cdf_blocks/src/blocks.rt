//! The block of one leaf, given other plain bytes.

ghost use Rattle.std.specs.Prelude.{◌≤◌, List, IfOk};
ghost use Rattle.cdf_area.specs.Calls.{Edits};
ghost use Rattle.cdf_format.specs.Shape.{VariableShape};
ghost use Rattle.cdf_index.specs.Sight.{seen};
ghost use Rattle.cdf_model.specs.Limits.{image_limit};
ghost use Rattle.cdf_model.specs.declared.kinds.Kind.{Kind};
ghost use Rattle.cdf_blocks.specs.Blocks.{HasPlain, IsPlainOf};
ghost use Rattle.cdf_blocks.specs.Replaced.{BlockReplaced};

use crate::placing::{Part, Site};
use crate::shortening::shorten_block;
use cdf_area::{Area, AreaError};
use cdf_index::Leaf;
use std::alloc::Global;

/// Gives the block of a leaf of a packed variable these plain bytes, as many as it has, packed where that makes its record shorter: in its record
/// where it keeps its kind and has room, else in one that is taken, which its entry then names, and the old one is freed. Gives the leaf with the
/// place of its block. After an error a part of this may have been done.
pub fn write_block<A: Area>(
    alloc: Global,
    area: &mut A,
    site: Site,
    leaf: &Leaf,
    plain: &[u8],
) -> Result<Leaf, AreaError>
    requires leaf { HasPlain (A.image area.old) site (seen leaf.now) plain.now (A.frame area.old).limit }
    requires limit { (A.frame area.old).limit ≤ image_limit }
    ensures replaced { IfOk result (λ new. (kind : Kind) (before : List VariableShape) (own : VariableShape) (after : List VariableShape) → IsPlainOf (A.image area.old) kind before own after site (seen leaf.now) plain.now (A.frame area.old).limit → BlockReplaced (A.image area.old) (A.image area.new) kind before own after (seen leaf.now) (seen new) plain.now) }
    ensures area { Edits A.frame A.faults area.old area.new result }
{
    let all = Part {
        first: leaf.first,
        last: leaf.last,
    };
    let new = shorten_block(alloc, area, site, leaf, all, plain)?;
    Ok(new)
}
