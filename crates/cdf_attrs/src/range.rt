//! The numbers that the entries of a kind may have.

ghost use Rattle.std.specs.Prelude.{◌≡◌, ◌+◌, ◌≤◌, length, IfOk};
ghost use Rattle.cdf_area.specs.Calls.{Reads};
ghost use Rattle.cdf_format.specs.Content.{content};
ghost use Rattle.cdf_format.specs.Fields.{gdr_offset, word, LiesIn};
ghost use Rattle.cdf_format.specs.WellFormed.{Good};
ghost use Rattle.cdf_format.specs.Records.{cdr_place, cdr_gdr_offset};
ghost use Rattle.cdf_model.specs.AttributeSteps.{is_out_of_range};

use cdf_area::{Area, AreaError};
use cdf_format::fields::{CDR_GDR_OFFSET, CDR_PLACE, GDR_NR_VARS, GDR_NZ_VARS};
use cdf_model::EntryKind;
use cdf_model::limits::RECORD_NUMBER_LIMIT;
use cdf_records::{read_unsigned4, read_unsigned8};

/// The number in 4 bytes of the Global Descriptor Record, which begin so many bytes behind its first one.
fn read_count<A: Area>(area: &mut A, field: u64) -> Result<u32, AreaError>
    requires cdr { LiesIn (A.image area.old) cdr_place cdr_gdr_offset }
    requires gdr { gdr_offset (A.image area.old) + field + 4 ≤ length (A.image area.old) }
    ensures count { IfOk result (λ count. count ≡ word (A.image area.old) (gdr_offset (A.image area.old) + field) 4) }
    ensures area { Reads A.image A.frame A.faults A.edited area.old area.new result }
{
    // An image has fewer than 2^64 bytes, so no place in it overflows.
    let _size = area.size();
    let gdr = read_unsigned8(area, CDR_PLACE + CDR_GDR_OFFSET)?;
    read_unsigned4(area, gdr + field)
}

/// Whether no entry of a kind may have a number: those for variables have the numbers of variables.
pub fn is_out_of_range<A: Area>(area: &mut A, kind: EntryKind, num: u32) -> Result<bool, AreaError>
    requires { Good (A.image area.old) }
    ensures range { IfOk result (λ out. out ≡ is_out_of_range (content (A.image area.old)) kind num) }
    ensures area { Reads A.image A.frame A.faults A.edited area.old area.new result }
{
    match kind {
        EntryKind::G => Ok(num > RECORD_NUMBER_LIMIT),
        EntryKind::R => Ok(read_count(area, GDR_NR_VARS)? <= num),
        EntryKind::Z => Ok(read_count(area, GDR_NZ_VARS)? <= num),
    }
}
