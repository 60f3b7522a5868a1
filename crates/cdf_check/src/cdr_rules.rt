//! The rules on the CDF Descriptor Record.

ghost use Rattle.std.specs.Prelude.{◌≡◌, ◌+◌, ◌==◌, is_some, IfOk};
ghost use Rattle.cdf_area.specs.Calls.{Reads};
ghost use Rattle.cdf_model.specs.Encodings.{encoding_at};
ghost use Rattle.cdf_format.specs.Fields.{encoding, version, LiesIn};
ghost use Rattle.cdf_format.specs.FileRules.{phase2, is_record};
ghost use Rattle.cdf_format.specs.Records.{cdr_place, cdr_copyright};
ghost use Rattle.cdf_format.specs.RecordTypes.{fixed_size, cdr_type};
ghost use Rattle.cdf_records.specs.Heads.{cdr_at};
ghost use Rattle.cdf_records.specs.Pieces.{AreBytes};
ghost use Rattle.cdf_structure.specs.Findings.{Finds};

use crate::fields::{is_record, unsigned};
use cdf_area::{Area, AreaError};
use cdf_format::fields::{
    CDR_CHECKSUM_BIT, CDR_MD5_BIT, CDR_PLACE, CDR_SINGLE_FILE_BIT, CDR_SIZE, CDR_TYPE, CDR_VERSION,
    RECORD_TYPE,
};
use cdf_format::flags::has_bit;
use cdf_model::Encoding;
use cdf_records::{Cdr, read_cdr};
use cdf_structure::Finding;

/// Whether the record is one of its type that ends within the file.
#[tactic(auto, using(cdf_records::proofs::Places::word4_fits))]
fn is_cdr<A: Area>(area: &A, cdr: &Cdr) -> bool
    requires room { LiesIn (A.image area.now) cdr_place cdr_copyright }
    requires fields { cdr.now ≡ cdr_at (A.image area.now) cdr_place }
    requires bytes { AreBytes (A.image area.now) cdr_place cdr_copyright.place }
    ensures { result ≡ is_record (A.image area.now) cdr_place cdr_type (fixed_size cdr_type) }
{
    let record_type = unsigned(area, CDR_PLACE + RECORD_TYPE, cdr.record_type);
    is_record(
        area,
        CDR_PLACE,
        record_type,
        cdr.record_size,
        CDR_TYPE,
        CDR_SIZE,
    )
}

/// Whether the file has version 3.
#[tactic(auto, using(cdf_records::proofs::Places::word4_fits))]
fn is_version_3<A: Area>(area: &A, cdr: &Cdr) -> bool
    requires fields { cdr.now ≡ cdr_at (A.image area.now) cdr_place }
    requires bytes { AreBytes (A.image area.now) cdr_place cdr_copyright.place }
    ensures { result ≡ (version (A.image area.now) == 3) }
{
    unsigned(area, CDR_PLACE + CDR_VERSION, cdr.version) == 3
}

/// Whether the values of the file are in an encoding that is read.
#[tactic(auto, using(cdf_records::proofs::Places::word4_fits))]
fn has_encoding<A: Area>(_area: &A, cdr: &Cdr) -> bool
    requires fields { cdr.now ≡ cdr_at (A.image _area.now) cdr_place }
    requires bytes { AreBytes (A.image _area.now) cdr_place cdr_copyright.place }
    ensures { result ≡ is_some (encoding_at (encoding (A.image _area.now))) }
{
    Encoding::of_code(cdr.encoding).is_some()
}

/// The rules on the fields of the CDF Descriptor Record.
fn check_fields<A: Area>(area: &A, cdr: &Cdr) -> Option<Finding>
    requires room { LiesIn (A.image area.now) cdr_place cdr_copyright }
    requires fields { cdr.now ≡ cdr_at (A.image area.now) cdr_place }
    requires bytes { AreBytes (A.image area.now) cdr_place cdr_copyright.place }
    ensures { Finds (phase2 (A.image area.now)) result }
{
    let place = CDR_PLACE;
    if !is_cdr(area, cdr) {
        // 2.2
        return Some(Finding { rule: 2, place });
    }
    if !is_version_3(area, cdr) {
        // 2.3
        return Some(Finding { rule: 3, place });
    }
    if !has_encoding(area, cdr) {
        // 2.4
        return Some(Finding { rule: 4, place });
    }
    if !has_bit(cdr.flags, CDR_SINGLE_FILE_BIT) {
        // 2.5
        return Some(Finding { rule: 5, place });
    }
    if has_bit(cdr.flags, CDR_CHECKSUM_BIT) && !has_bit(cdr.flags, CDR_MD5_BIT) {
        // 2.6
        return Some(Finding { rule: 6, place });
    }
    None
}

/// The rules on the CDF Descriptor Record.
pub fn check_cdr<A: Area>(area: &mut A) -> Result<Option<Finding>, AreaError>
    ensures found { IfOk result (Finds (phase2 (A.image area.old))) }
    ensures area { Reads A.image A.frame A.faults A.edited area.old area.new result }
{
    if area.size() < CDR_PLACE + CDR_SIZE {
        // 2.1
        return Ok(Some(Finding {
            rule: 1,
            place: CDR_PLACE,
        }));
    }
    let cdr = read_cdr(area, CDR_PLACE)?;
    Ok(check_fields(area, &cdr))
}
