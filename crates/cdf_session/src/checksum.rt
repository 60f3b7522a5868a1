//! The checksum of an image: in use or not, and computed.

ghost use Rattle.std.specs.Prelude.{◌≡◌, ◌≤◌, [], ◌∷◌, length, if◌then◌else◌, IfOk, OnOk};
ghost use Rattle.cdf_area.specs.Calls.{Overwrites, Reads};
ghost use Rattle.cdf_edits.specs.Commands.NewRecords.{with_bits};
ghost use Rattle.cdf_edits.specs.Frame.Changed.{Changed, touched_field};
ghost use Rattle.cdf_format.specs.Fields.{flags};
ghost use Rattle.cdf_format.specs.Records.{cdr_flags, cdr_checksum_bit, cdr_place};
ghost use Rattle.cdf_format.specs.WellFormed.{Good};
ghost use Rattle.cdf_session.specs.Seals.{seal_of};

use cdf_area::{Area, AreaError};
use cdf_format::fields::{CDR_CHECKSUM_BIT, CDR_MD5_BIT, CDR_PLACE};
use cdf_format::flags::has_bit;
use cdf_records::{read_cdr, set_cdr_flags};
use cdf_seal::digest_of;

/// What the bit of Flags counts that says that a checksum is in use, and what the one above it does, which says that it is MD5.
const IN_USE: u32 = 1 << CDR_CHECKSUM_BIT;

const IS_MD5: u32 = 1 << CDR_MD5_BIT;

/// Flags with a checksum in use, or with none.
fn checksum_flags(flags: u32, md5: bool) -> u32
    ensures { result ≡ with_bits flags cdr_checksum_bit 2 (if md5 then 3 else 0) }
{
    let others = flags % IN_USE + flags / (2 * IS_MD5) * (2 * IS_MD5);
    if md5 {
        others + IN_USE + IS_MD5
    } else {
        others
    }
}

/// Puts a checksum in use, or takes it out of use.
pub fn set_checksum<A: Area>(area: &mut A, md5: bool) -> Result<(), AreaError>
    requires { Good (A.image area.old) }
    ensures flags { OnOk result (flags (A.image area.new) ≡ with_bits (flags (A.image area.old)) cdr_checksum_bit 2 (if md5 then 3 else 0)) }
    ensures changed { OnOk result (Changed (A.image area.old) (A.image area.new) (touched_field cdr_place cdr_flags ∷ [])) }
    ensures area { Overwrites A.image A.frame A.faults area.old area.new result }
{
    let cdr = read_cdr(area, CDR_PLACE)?;
    set_cdr_flags(area, CDR_PLACE, checksum_flags(cdr.flags, md5))
}

/// The checksum of the image, where one is in use.
pub fn read_seal<A: Area>(area: &mut A) -> Result<Option<[u8; 16]>, AreaError>
    requires { Good (A.image area.old) }
    ensures seal { IfOk result (λ seal. seal ≡ seal_of (A.image area.old)) }
    ensures area { Reads A.image A.frame A.faults A.edited area.old area.new result }
{
    let cdr = read_cdr(area, CDR_PLACE)?;
    if !has_bit(cdr.flags, CDR_CHECKSUM_BIT) {
        return Ok(None);
    }
    let eof = area.size();
    let digest = digest_of(area, eof)?;
    Ok(Some(digest))
}
