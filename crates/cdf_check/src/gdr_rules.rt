//! The rules on the Global Descriptor Record.

ghost use Rattle.std.specs.Prelude.{◌≡◌, ◌+◌, ◌≤◌, ◌&&◌, length, nat_le, IfOk, IsTrue};
ghost use Rattle.std.specs.Int.{w64, cast_signed};
ghost use Rattle.std.specs.List.{list_all};
ghost use Rattle.cdf_area.specs.Calls.{Reads};
ghost use Rattle.cdf_model.specs.Limits.{image_limit};
ghost use Rattle.cdf_format.specs.Fields.{counted, is_positive, r_sizes, LiesIn};
ghost use Rattle.cdf_format.specs.FileRules.{phase3, has_gdr, gdr_rows, is_gdr};
ghost use Rattle.cdf_format.specs.Records.{cdr_place, cdr_copyright};
ghost use Rattle.cdf_format.specs.RecordTypes.{fixed_size, gdr_type};
ghost use Rattle.cdf_records.specs.Heads.{cdr_at, gdr_at};
ghost use Rattle.cdf_records.specs.Pieces.{AreBytes};
ghost use Rattle.cdf_structure.specs.Findings.{Finds};

use crate::fields::{is_record, trailer_length, unsigned};
use cdf_area::{Area, AreaError};
use cdf_format::fields::{
    CDR_PLACE, GDR_R_DIM_SIZE, GDR_R_NUM_DIMS, GDR_SIZE, GDR_TYPE, RECORD_TYPE,
};
use cdf_model::limits::{DIMENSION_LIMIT, IMAGE_LIMIT, SIGNED_LIMIT};
use cdf_records::{Cdr, Gdr, read_cdr, read_gdr, read_nums};
use cdf_structure::Finding;
use std::alloc::Global;

/// Whether the record is one of its type that ends within the file, with room for the sizes of its dimensions.
#[tactic(auto, using(cdf_records::proofs::Places::word4_fits))]
fn is_gdr<A: Area>(area: &A, place: u64, gdr: &Gdr) -> bool
    requires room { place + fixed_size gdr_type ≤ length (A.image area.now) }
    requires fields { gdr.now ≡ gdr_at (A.image area.now) place }
    requires bytes { AreBytes (A.image area.now) place (fixed_size gdr_type) }
    ensures { result ≡ is_gdr (A.image area.now) place }
{
    let _size = area.size();
    let dimensions = unsigned(area, place + GDR_R_NUM_DIMS, gdr.r_num_dims);
    let record_type = unsigned(area, place + RECORD_TYPE, gdr.record_type);
    if dimensions > DIMENSION_LIMIT {
        return false;
    }
    is_record(
        area,
        place,
        record_type,
        gdr.record_size,
        GDR_TYPE,
        GDR_SIZE + 4 * u64::from(dimensions),
    )
}

/// Whether each size of a dimension is a positive number of 4 bytes with a sign.
pub fn are_sizes(sizes: &[u32]) -> bool
    ensures { result ≡ list_all is_positive sizes.now }
{
    sizes.iter().all(|size| *size >= 1 && *size <= SIGNED_LIMIT)
}

/// Whether the eof of an image, which has a sign, is in the limit.
fn is_in_limit(eof: u64) -> bool
    ensures { result ≡ nat_le (counted (cast_signed w64 eof)) image_limit }
{
    eof.cast_signed() <= IMAGE_LIMIT.cast_signed()
}

/// The sizes of the dimensions.
fn check_sizes<A: Area>(
    alloc: Global,
    area: &mut A,
    place: u64,
    gdr: &Gdr,
) -> Result<bool, AreaError>
    requires fields { gdr.now ≡ gdr_at (A.image area.old) place }
    requires bytes { AreBytes (A.image area.old) place (fixed_size gdr_type) }
    requires is { IsTrue (is_gdr (A.image area.old) place) }
    ensures value { IfOk result (λ b. b ≡ list_all is_positive (r_sizes (A.image area.old) place)) }
    ensures area { Reads A.image A.frame A.faults A.edited area.old area.new result }
{
    let _size = area.size();
    let dimensions = unsigned(area, place + GDR_R_NUM_DIMS, gdr.r_num_dims);
    let sizes = read_nums(alloc, area, place + GDR_R_DIM_SIZE, dimensions)?;
    Ok(are_sizes(sizes.as_slice()))
}

/// The rules on the Global Descriptor Record at a place.
fn check_at<A: Area>(
    alloc: Global,
    area: &mut A,
    cdr: &Cdr,
    place: u64,
) -> Result<Option<Finding>, AreaError>
    requires length { LiesIn (A.image area.old) cdr_place cdr_copyright }
    requires room { (cdr_place ≤ place) × (place + fixed_size gdr_type ≤ length (A.image area.old)) }
    requires cdr { cdr.now ≡ cdr_at (A.image area.old) cdr_place }
    ensures found { IfOk result (Finds (gdr_rows (A.image area.old) place)) }
    ensures area { Reads A.image A.frame A.faults A.edited area.old area.new result }
{
    let gdr = read_gdr(area, place)?;
    if !is_gdr(area, place, &gdr) {
        // 3.2
        return Ok(Some(Finding { rule: 2, place }));
    }
    if !check_sizes(alloc, area, place, &gdr)? {
        // 3.3
        return Ok(Some(Finding { rule: 3, place }));
    }
    if gdr.eof != area.size() - trailer_length(cdr.flags) {
        // 3.4
        return Ok(Some(Finding { rule: 4, place }));
    }
    if !is_in_limit(gdr.eof) {
        // 3.5
        return Ok(Some(Finding { rule: 5, place }));
    }
    Ok(None)
}

/// Whether the CDF Descriptor Record leaves room for a record where it says that the other one stands.
fn has_gdr<A: Area>(area: &A, cdr: &Cdr) -> bool
    requires room { LiesIn (A.image area.now) cdr_place cdr_copyright }
    requires cdr { cdr.now ≡ cdr_at (A.image area.now) cdr_place }
    ensures { result ≡ has_gdr (A.image area.now) }
{
    let last = area.size() - GDR_SIZE;
    CDR_PLACE <= cdr.gdr_offset && cdr.gdr_offset <= last
}

/// The rules on the Global Descriptor Record.
pub fn check_gdr<A: Area>(alloc: Global, area: &mut A) -> Result<Option<Finding>, AreaError>
    requires { LiesIn (A.image area.old) cdr_place cdr_copyright }
    ensures found { IfOk result (Finds (phase3 (A.image area.old))) }
    ensures area { Reads A.image A.frame A.faults A.edited area.old area.new result }
{
    let cdr = read_cdr(area, CDR_PLACE)?;
    if !has_gdr(area, &cdr) {
        // 3.1
        return Ok(Some(Finding {
            rule: 1,
            place: CDR_PLACE,
        }));
    }
    check_at(alloc, area, &cdr, cdr.gdr_offset)
}
