//! The plain bytes of the block of a leaf, packed or not.

ghost use Rattle.std.specs.Prelude.{◌≡◌, ◌≤◌, ℕ, length, IfOk};
ghost use Rattle.cdf_area.specs.Calls.{Reads};
ghost use Rattle.cdf_format.specs.Content.{plain_bytes};
ghost use Rattle.cdf_format.specs.VariableFields.{plain_size};
ghost use Rattle.cdf_index.specs.Sight.{seen};
ghost use Rattle.cdf_model.specs.Limits.{image_limit, record_number_limit};
ghost use Rattle.cdf_blocks.specs.Reading.{PlainStands, block_size};

use cdf_area::{Area, AreaError};
use cdf_format::fields::VVR_RECORDS;
use cdf_index::Leaf;
use cdf_packed::read_unpacked;
use cdf_records::read_bytes;
use std::alloc::Global;

/// How many plain bytes the block of a leaf has whose records have so many each.
pub fn block_size(leaf: &Leaf, rec_bytes: u64) -> u64
    requires ordered { leaf.now.first ≤ leaf.now.last }
    requires small { leaf.now.last ≤ record_number_limit }
    requires fits { block_size (seen leaf.now) rec_bytes ≤ image_limit }
    ensures { result ≡ block_size (seen leaf.now) rec_bytes }
{
    u64::from(leaf.last + 1 - leaf.first) * rec_bytes
}

/// The plain bytes of the block of a leaf, which has so many.
pub fn read_plain<A: Area>(
    alloc: Global,
    area: &mut A,
    leaf: &Leaf,
    size: u64,
) -> Result<Vec<u8>, AreaError>
    requires stands { PlainStands (A.image area.old) (seen leaf.now) size }
    requires short { length (A.image area.old) ≤ image_limit }
    ensures plain { IfOk result (λ plain. (vdr : ℕ) → plain_size (A.image area.old) vdr (seen leaf.now) ≡ size → plain.items ≡ plain_bytes (A.image area.old) vdr (seen leaf.now)) }
    ensures area { Reads A.image A.frame A.faults A.edited area.old area.new result }
{
    if leaf.packed {
        return read_unpacked(alloc, area, leaf.at, size);
    }
    read_bytes(alloc, area, leaf.at + VVR_RECORDS, size)
}
