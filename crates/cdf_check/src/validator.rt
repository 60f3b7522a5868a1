//! Whether a file is well formed, all phases.

ghost use Rattle.std.specs.Prelude.{◌≡◌, ◌≤◌, ◌<◌, ◌^◌, length, take, IfOk};
ghost use Rattle.cdf_area.specs.Calls.{Reads};
ghost use Rattle.cdf_format.specs.Fields.{gdr_offset};
ghost use Rattle.cdf_format.specs.Records.{cdr_place};
ghost use Rattle.cdf_check.specs.Variables.{HasRoomForSizes};
ghost use Rattle.cdf_check.specs.Verdicts.{Judges, JudgesImage, JudgesStart};

use crate::cdr_rules::check_cdr;
use crate::fields::trailer_length;
use crate::gdr_rules::check_gdr;
use crate::image_rules::check_image;
use crate::magic_rules::{check_length, check_magic};
use crate::trailer_rules::check_trailer;
use crate::verdict::{Broken, in_phase};
use cdf_area::{Area, AreaError};
use cdf_format::fields::CDR_PLACE;
use cdf_records::read_cdr;
use cdf_seal::Front;
use std::alloc::Global;

/// Judges a file as far as its two first records.
fn check_start<A: Area>(alloc: Global, area: &mut A) -> Result<Option<Broken>, AreaError>
    ensures verdict { IfOk result (JudgesStart (A.image area.old)) }
    ensures area { Reads A.image A.frame A.faults A.edited area.old area.new result }
{
    if let Some(finding) = check_length(area) {
        return Ok(Some(in_phase(0, finding)));
    }
    if let Some(finding) = check_magic(area)? {
        return Ok(Some(in_phase(1, finding)));
    }
    if let Some(finding) = check_cdr(area)? {
        return Ok(Some(in_phase(2, finding)));
    }
    if let Some(finding) = check_gdr(alloc, area)? {
        return Ok(Some(in_phase(3, finding)));
    }
    Ok(None)
}

/// Judges the image of a file, which is its first bytes, with its Global Descriptor Record at a place.
fn check_front<A: Area>(
    alloc: Global,
    area: &mut A,
    eof: u64,
    gdr: u64,
) -> Result<Option<Broken>, AreaError>
    requires some { cdr_place ≤ length (take eof (A.image area.old)) }
    requires small { length (take eof (A.image area.old)) < 2 ^ 31 }
    requires gdr { gdr ≡ gdr_offset (take eof (A.image area.old)) }
    requires sizes { HasRoomForSizes (take eof (A.image area.old)) }
    ensures verdict { IfOk result (JudgesImage (take eof (A.image area.old))) }
    ensures area { Reads A.image A.frame A.faults A.edited area.old area.new result }
{
    let mut front = Front::new(area, eof);
    check_image(alloc, &mut front, gdr)
}

/// A rule that the file breaks that an area holds, its trailer included; none where the file is well formed. Of several rules that are broken in one phase, any may be named.
pub fn check<A: Area>(alloc: Global, area: &mut A) -> Result<Option<Broken>, AreaError>
    ensures verdict { IfOk result (Judges (A.image area.old)) }
    ensures area { Reads A.image A.frame A.faults A.edited area.old area.new result }
{
    if let Some(broken) = check_start(alloc, area)? {
        return Ok(Some(broken));
    }
    let cdr = read_cdr(area, CDR_PLACE)?;
    let trailer = trailer_length(cdr.flags);
    let eof = area.size() - trailer;
    if let Some(broken) = check_front(alloc, area, eof, cdr.gdr_offset)? {
        return Ok(Some(broken));
    }
    if trailer == 0 {
        return Ok(None);
    }
    match check_trailer(area, eof)? {
        Some(finding) => Ok(Some(in_phase(10, finding))),
        None => Ok(None),
    }
}
