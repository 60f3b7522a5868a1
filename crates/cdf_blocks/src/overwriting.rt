//! The bytes of a block, written into its record.

ghost use Rattle.std.specs.Prelude.{◌+◌, ◌≤◌, length, OnOk};
ghost use Rattle.cdf_area.specs.Calls.{Edits};
ghost use Rattle.cdf_model.specs.Limits.{image_limit};
ghost use Rattle.cdf_blocks.specs.Blocks.{Overwritten, stored_end};

use cdf_area::{Area, AreaError};
use cdf_format::fields::VVR_RECORDS;
use cdf_index::Leaf;
use cdf_packed::write_packed;

/// Writes the bytes that a block holds into its record, packed or not as it is. What stands behind them stays. After an error a part of this may have been done.
pub(crate) fn overwrite_block<A: Area>(
    area: &mut A,
    leaf: &Leaf,
    bytes: &[u8],
) -> Result<(), AreaError>
    requires room { leaf.now.at + stored_end leaf.now.packed (length bytes.now) ≤ length (A.image area.old) }
    requires short { length (A.image area.old) ≤ image_limit }
    ensures written { OnOk result (Overwritten (A.image area.old) (A.image area.new) leaf.now.at leaf.now.packed bytes.now) }
    ensures area { Edits A.frame A.faults area.old area.new result }
{
    if leaf.packed {
        return write_packed(area, leaf.at, bytes);
    }
    area.set(leaf.at + VVR_RECORDS, bytes)?;
    Ok(())
}
