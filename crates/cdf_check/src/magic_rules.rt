//! The rules on the length of a file and on its magic numbers.

ghost use Rattle.std.specs.Prelude.{◌≡◌, ◌+◌, ◌≤◌, length, IfOk};
ghost use Rattle.cdf_area.specs.Calls.{Reads};
ghost use Rattle.cdf_format.specs.Fields.{word};
ghost use Rattle.cdf_format.specs.FileRules.{phase0, phase1};
ghost use Rattle.cdf_format.specs.Records.{cdr_place};
ghost use Rattle.cdf_structure.specs.Findings.{Finds};

use cdf_area::{Area, AreaError};
use cdf_format::fields::{CDR_PLACE, MAGIC_UNCOMPRESSED, MAGIC_VERSION_3, TRAILER_SIZE};
use cdf_model::limits::IMAGE_LIMIT;
use cdf_structure::Finding;

/// The longest image, and the trailer after it.
const LONGEST_FILE: u64 = IMAGE_LIMIT + TRAILER_SIZE;

/// The rules on the length of a file.
pub fn check_length<A: Area>(area: &A) -> Option<Finding>
    ensures { Finds (phase0 (A.image area.now)) result }
{
    let size = area.size();
    if size < CDR_PLACE {
        // 0.1
        return Some(Finding { rule: 1, place: 0 });
    }
    if size > LONGEST_FILE {
        // 0.2
        return Some(Finding { rule: 2, place: 0 });
    }
    None
}

/// The number of 4 bytes at a place.
fn read_magic<A: Area>(area: &mut A, place: u64) -> Result<u32, AreaError>
    requires { place + 4 ≤ length (A.image area.old) }
    ensures value { IfOk result (λ number. number ≡ word (A.image area.old) place 4) }
    ensures area { Reads A.image A.frame A.faults A.edited area.old area.new result }
{
    let mut bytes = [0u8; 4];
    area.get(place, &mut bytes)?;
    Ok(u32::from_be_bytes(bytes))
}

/// The rules on the magic numbers.
pub fn check_magic<A: Area>(area: &mut A) -> Result<Option<Finding>, AreaError>
    requires { cdr_place ≤ length (A.image area.old) }
    ensures found { IfOk result (Finds (phase1 (A.image area.old))) }
    ensures area { Reads A.image A.frame A.faults A.edited area.old area.new result }
{
    let first = read_magic(area, 0)?;
    let second = read_magic(area, 4)?;
    if first != MAGIC_VERSION_3 {
        // 1.1
        return Ok(Some(Finding { rule: 1, place: 0 }));
    }
    if second != MAGIC_UNCOMPRESSED {
        // 1.2
        return Ok(Some(Finding { rule: 2, place: 4 }));
    }
    Ok(None)
}
