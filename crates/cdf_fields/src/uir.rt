//! Fields of an Unused Internal Record, written.

ghost use Rattle.std.specs.Prelude.{◌≡◌, OnOk};
ghost use Rattle.cdf_area.specs.Calls.{Overwrites};
ghost use Rattle.cdf_format.specs.Fields.{LiesIn, with_field};
ghost use Rattle.cdf_format.specs.Records.{uir_next_uir, uir_prev_uir};

use crate::width::set_unsigned8;
use cdf_area::{Area, AreaError};
use cdf_format::fields::{UIR_NEXT_UIR, UIR_PREV_UIR};

/// NextUIR: the place of the next listed unused record, 0 for none.
pub fn set_uir_next_uir<A: Area>(area: &mut A, at: u64, to: u64) -> Result<(), AreaError>
    requires { LiesIn (A.image area.old) at uir_next_uir }
    ensures ok { OnOk result (A.image area.new ≡ with_field (A.image area.old) at uir_next_uir to) }
    ensures area { Overwrites A.image A.frame A.faults area.old area.new result }
{
    set_unsigned8(area, at, UIR_NEXT_UIR, to)
}

/// PrevUIR: the place of the one before it, 0 for none.
pub fn set_uir_prev_uir<A: Area>(area: &mut A, at: u64, to: u64) -> Result<(), AreaError>
    requires { LiesIn (A.image area.old) at uir_prev_uir }
    ensures ok { OnOk result (A.image area.new ≡ with_field (A.image area.old) at uir_prev_uir to) }
    ensures area { Overwrites A.image A.frame A.faults area.old area.new result }
{
    set_unsigned8(area, at, UIR_PREV_UIR, to)
}
