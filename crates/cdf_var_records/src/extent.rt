//! How many records a variable has.

ghost use Rattle.std.specs.Prelude.{◌≡◌, ◌≤◌, ◌^◌, IfOk};
ghost use Rattle.cdf_area.specs.Calls.{Reads};
ghost use Rattle.cdf_format.specs.Fields.{LiesIn};
ghost use Rattle.cdf_format.specs.Records.{vdr_name};
ghost use Rattle.cdf_format.specs.VariableFields.{max_rec_at};
ghost use Rattle.cdf_model.specs.DataSet.{extent};

use cdf_area::{Area, AreaError};
use cdf_format::fields::VDR_MAX_REC;
use cdf_records::read_signed4;

/// How many records a variable of a MaxRec has at most.
fn extent(max_rec: i32) -> u32
    ensures value { result ≡ extent max_rec }
    ensures few { result ≤ 2 ^ 31 }
{
    if max_rec < 0 { 0 } else { max_rec as u32 + 1 }
}

/// How many records the variable has whose descriptor stands at a place, by its MaxRec.
pub fn read_extent<A: Area>(area: &mut A, vdr: u64) -> Result<u32, AreaError>
    requires { LiesIn (A.image area.old) vdr vdr_name }
    ensures extent { IfOk result (λ n. n ≡ extent (max_rec_at (A.image area.old) vdr)) }
    ensures few { IfOk result (λ n. n ≤ 2 ^ 31) }
    ensures area { Reads A.image A.frame A.faults A.edited area.old area.new result }
{
    // An image has fewer than 2^64 bytes, so no place in it overflows.
    let _size = area.size();
    let max_rec = read_signed4(area, vdr + VDR_MAX_REC)?;
    Ok(extent(max_rec))
}
