//! A new block for records of a packed variable that have none.

ghost use Rattle.std.specs.Prelude.{◌≡◌, ◌≤◌, ℕ, List, OnOk};
ghost use Rattle.cdf_area.specs.Calls.{Edits};
ghost use Rattle.cdf_format.specs.Shape.{VariableShape};
ghost use Rattle.cdf_model.specs.Limits.{image_limit};
ghost use Rattle.cdf_model.specs.declared.kinds.Kind.{Kind};
ghost use Rattle.cdf_blocks.specs.Blocks.{StoredAs};
ghost use Rattle.cdf_packed_puts.specs.Adding.{BlockAdded, HasStored, HasVacancy, IsVacancy};

use cdf_area::{Area, AreaError};
use cdf_blocks::block_body;
use cdf_leaves::add_leaf;
use cdf_packed::pack_block;
use std::alloc::Global;

/// Records of a variable that are to get a block.
#[derive(Clone, Copy)]
pub struct Vacancy {
    /// Where the descriptor of the variable stands.
    pub vdr: u64,
    /// The node of its index at which a search for the first record may start, 0 where it has none.
    pub start: u64,
    /// The first record.
    pub first: u32,
    /// The last record.
    pub last: u32,
}

/// Adds a leaf for these records, with a block that is packed or not and holds these bytes. After an error a part of this may have been done.
fn add_stored<A: Area>(
    alloc: Global,
    area: &mut A,
    vacancy: Vacancy,
    packed: bool,
    bytes: &[u8],
) -> Result<(), AreaError>
    requires vacancy { HasStored (A.image area.old) vacancy packed bytes.now (A.frame area.old).limit }
    requires limit { (A.frame area.old).limit ≤ image_limit }
    ensures added { OnOk result ((kind : Kind) (before : List VariableShape) (own : VariableShape) (after : List VariableShape) (plain : List ℕ) → IsVacancy (A.image area.old) kind before own after vacancy plain (A.frame area.old).limit → StoredAs plain packed bytes.now → BlockAdded (A.image area.old) (A.image area.new) kind before own after vacancy.first vacancy.last plain) }
    ensures area { Edits A.frame A.faults area.old area.new result }
{
    let body = block_body(alloc, packed, bytes)?;
    add_leaf(
        alloc,
        area,
        vacancy.vdr,
        vacancy.start,
        vacancy.first,
        vacancy.last,
        &body,
    )
}

/// Adds a leaf for records of a packed variable that have none, with a block of these plain bytes, as many as the records have, packed where that makes it shorter.
/// After an error a part of this may have been done.
pub fn add_packed<A: Area>(
    alloc: Global,
    area: &mut A,
    vacancy: Vacancy,
    plain: &[u8],
) -> Result<(), AreaError>
    requires vacancy { HasVacancy (A.image area.old) vacancy plain.now (A.frame area.old).limit }
    requires limit { (A.frame area.old).limit ≤ image_limit }
    ensures added { OnOk result ((kind : Kind) (before : List VariableShape) (own : VariableShape) (after : List VariableShape) → IsVacancy (A.image area.old) kind before own after vacancy plain.now (A.frame area.old).limit → BlockAdded (A.image area.old) (A.image area.new) kind before own after vacancy.first vacancy.last plain.now) }
    ensures area { Edits A.frame A.faults area.old area.new result }
{
    let packed = pack_block(alloc, plain)?;
    match packed {
        Some(runs) => add_stored(alloc, area, vacancy, true, &runs),
        None => add_stored(alloc, area, vacancy, false, plain),
    }
}
