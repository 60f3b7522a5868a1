//! The rules on the record with the parameters by which a variable is packed.

ghost use Rattle.std.specs.Prelude.{◌≡◌, ◌+◌, ◌≤◌, length, IfOk};
ghost use Rattle.cdf_area.specs.Calls.{Reads};
ghost use Rattle.cdf_format.specs.Records.{cdr_place, cpr_parameter, past};
ghost use Rattle.cdf_format.specs.Tiles.{AreTiles};
ghost use Rattle.cdf_format.specs.VariableRules.{is_cpr, is_known_packing};

use cdf_area::{Area, AreaError};
use cdf_format::fields::{CPR_C_TYPE, CPR_P_COUNT, CPR_PARAMETER, CPR_TYPE};
use cdf_model::limits::SIGNED_LIMIT;
use cdf_records::read_unsigned4;
use cdf_structure::{is_a, read_size};

/// cType of run lengths, and the parameter that says that these are zeros.
const RUN_LENGTHS: u32 = 1;

const OF_ZEROS: u32 = 0;

/// Whether a Compressed Parameters Record stands at a place, with a parameter or more and room for them.
pub fn is_cpr<A: Area>(area: &mut A, tiles: &[u64], place: u64) -> Result<bool, AreaError>
    requires tiled { AreTiles (A.image area.old) cdr_place (length (A.image area.old)) tiles.now }
    ensures value { IfOk result (λ is. is ≡ is_cpr (A.image area.old) tiles.now place) }
    ensures area { Reads A.image A.frame A.faults A.edited area.old area.new result }
{
    let _size = area.size();
    if !is_a(area, tiles, CPR_TYPE, place)? {
        return Ok(false);
    }
    let size = read_size(area, place)?;
    if size < CPR_PARAMETER {
        return Ok(false);
    }
    let count = read_unsigned4(area, place + CPR_P_COUNT)?;
    Ok(count >= 1 && count <= SIGNED_LIMIT && CPR_PARAMETER + 4 * u64::from(count) <= size)
}

/// Whether the parameters at a place are those of run lengths of zeros.
pub fn is_known_packing<A: Area>(area: &mut A, place: u64) -> Result<bool, AreaError>
    requires room { place + past (cpr_parameter 0) ≤ length (A.image area.old) }
    ensures value { IfOk result (λ is. is ≡ is_known_packing (A.image area.old) place) }
    ensures area { Reads A.image A.frame A.faults A.edited area.old area.new result }
{
    let _size = area.size();
    let packing = read_unsigned4(area, place + CPR_C_TYPE)?;
    let parameter = read_unsigned4(area, place + CPR_PARAMETER)?;
    Ok(packing == RUN_LENGTHS && parameter == OF_ZEROS)
}
