//! Packed bytes, written into their block.

ghost use Rattle.std.specs.Prelude.{◌≡◌, ◌≤◌, [], ◌∷◌, length, OnOk};
ghost use Rattle.cdf_area.specs.Calls.{Edits};
ghost use Rattle.cdf_edits.specs.Frame.Changed.{Changed, touched_field};
ghost use Rattle.cdf_format.specs.Fields.{LiesIn, number};
ghost use Rattle.cdf_format.specs.Records.{cvvr_c_size, cvvr_packed};
ghost use Rattle.cdf_format.specs.Stored.{packed_bytes};
ghost use Rattle.cdf_model.specs.Limits.{image_limit};

use cdf_area::{Area, AreaError};
use cdf_fields::set_cvvr_c_size;
use cdf_format::fields::CVVR_PACKED;

/// Writes packed bytes, and their number as cSize, into the packed block at a place. After an error a part of this may have been done.
pub fn write_packed<A: Area>(area: &mut A, at: u64, packed: &[u8]) -> Result<(), AreaError>
    requires room { LiesIn (A.image area.old) at (cvvr_packed (length packed.now)) }
    requires short { length (A.image area.old) ≤ image_limit }
    ensures size { OnOk result (number (A.image area.new) at cvvr_c_size ≡ length packed.now) }
    ensures packed { OnOk result (packed_bytes (A.image area.new) at ≡ packed.now) }
    ensures changed { OnOk result (Changed (A.image area.old) (A.image area.new) (touched_field at cvvr_c_size ∷ touched_field at (cvvr_packed (length packed.now)) ∷ [])) }
    ensures long { OnOk result (length (A.image area.new) ≡ length (A.image area.old)) }
    ensures area { Edits A.frame A.faults area.old area.new result }
{
    set_cvvr_c_size(area, at, packed.len() as i64)?;
    area.set(at + CVVR_PACKED, packed)?;
    Ok(())
}
