//! A block that gets a new record.

ghost use Rattle.std.specs.Prelude.{◌≡◌, ◌≤◌, IfOk};
ghost use Rattle.cdf_area.specs.Calls.{Edits};
ghost use Rattle.cdf_index.specs.Sight.{seen};
ghost use Rattle.cdf_model.specs.Limits.{image_limit};
ghost use Rattle.cdf_blocks.specs.Blocks.{HasLeaf};
ghost use Rattle.cdf_blocks.specs.Replaced.{Moved};

use crate::bodies::block_body;
use cdf_area::{Area, AreaError};
use cdf_index::{Entry, Leaf, set_entry};
use cdf_space::{free_record, place_record};
use std::alloc::Global;

/// Which entry of an index names a block.
#[derive(Clone, Copy)]
pub struct Site {
    /// Where its node stands.
    pub node: u64,
    /// For how many entries this has room.
    pub room: u64,
    /// The number of the entry.
    pub number: u64,
}

/// Records of a leaf, from a first to a last.
#[derive(Clone, Copy)]
pub struct Part {
    pub first: u32,
    pub last: u32,
}

/// Gives the block of a leaf another record, with these bytes, and the leaf these records: it is taken and written, the entry of the leaf then names
/// it, and the old one is freed. After an error a part of this may have been done.
pub(crate) fn place_block<A: Area>(
    alloc: Global,
    area: &mut A,
    site: Site,
    leaf: &Leaf,
    part: Part,
    packed: bool,
    bytes: &[u8],
) -> Result<Leaf, AreaError>
    requires leaf { HasLeaf (A.image area.old) site (seen leaf.now) part packed bytes.now (A.frame area.old).limit }
    requires limit { (A.frame area.old).limit ≤ image_limit }
    ensures moved { IfOk result (λ new. Moved (A.image area.old) (A.image area.new) site (seen leaf.now) (seen new) bytes.now) }
    ensures first { IfOk result (λ new. new.first ≡ part.first) }
    ensures last { IfOk result (λ new. new.last ≡ part.last) }
    ensures packed { IfOk result (λ new. new.packed ≡ packed) }
    ensures area { Edits A.frame A.faults area.old area.new result }
{
    let body = block_body(alloc, packed, bytes)?;
    let at = place_record(area, &body)?;
    let entry = Entry {
        first: part.first,
        last: part.last,
        place: at,
    };
    set_entry(area, site.node, site.room, site.number, entry)?;
    free_record(area, leaf.at)?;
    Ok(Leaf {
        first: part.first,
        last: part.last,
        at,
        packed,
    })
}
