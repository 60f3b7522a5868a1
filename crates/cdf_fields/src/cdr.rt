//! Fields of the CDF Descriptor Record, written.

ghost use Rattle.std.specs.Prelude.{◌≡◌, OnOk};
ghost use Rattle.std.specs.Int.{w32, cast_unsigned};
ghost use Rattle.cdf_area.specs.Calls.{Overwrites};
ghost use Rattle.cdf_format.specs.Fields.{LiesIn, with_field};
ghost use Rattle.cdf_format.specs.Records.{cdr_gdr_offset, cdr_encoding, cdr_flags};

use crate::width::{set_signed4, set_unsigned4, set_unsigned8};
use cdf_area::{Area, AreaError};
use cdf_format::fields::{CDR_ENCODING, CDR_FLAGS, CDR_GDR_OFFSET};

/// GDRoffset: the place of the Global Descriptor Record.
pub fn set_cdr_gdr_offset<A: Area>(area: &mut A, at: u64, to: u64) -> Result<(), AreaError>
    requires { LiesIn (A.image area.old) at cdr_gdr_offset }
    ensures ok { OnOk result (A.image area.new ≡ with_field (A.image area.old) at cdr_gdr_offset to) }
    ensures area { Overwrites A.image A.frame A.faults area.old area.new result }
{
    set_unsigned8(area, at, CDR_GDR_OFFSET, to)
}

/// Encoding: the code of the encoding of values.
pub fn set_cdr_encoding<A: Area>(area: &mut A, at: u64, to: i32) -> Result<(), AreaError>
    requires { LiesIn (A.image area.old) at cdr_encoding }
    ensures ok { OnOk result (A.image area.new ≡ with_field (A.image area.old) at cdr_encoding (cast_unsigned w32 to)) }
    ensures area { Overwrites A.image A.frame A.faults area.old area.new result }
{
    set_signed4(area, at, CDR_ENCODING, to)
}

/// Flags.
pub fn set_cdr_flags<A: Area>(area: &mut A, at: u64, to: u32) -> Result<(), AreaError>
    requires { LiesIn (A.image area.old) at cdr_flags }
    ensures ok { OnOk result (A.image area.new ≡ with_field (A.image area.old) at cdr_flags to) }
    ensures area { Overwrites A.image A.frame A.faults area.old area.new result }
{
    set_unsigned4(area, at, CDR_FLAGS, to)
}
