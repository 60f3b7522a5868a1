//! The rule on the checksum behind an image.

ghost use Rattle.std.specs.Prelude.{◌≡◌, ◌+◌, [], ◌∷◌, length, drop, take, bytes_eq, IfOk};
ghost use Rattle.cdf_area.specs.Calls.{Reads};
ghost use Rattle.cdf_format.specs.Rules.{row};
ghost use Rattle.cdf_format.specs.Sealed.{trailer_size};
ghost use Rattle.cdf_structure.specs.Findings.{Finds};
ghost use Rattle.md5.specs.Md5.{md5};

use cdf_area::{Area, AreaError};
use cdf_seal::digest_of;
use cdf_structure::Finding;

/// That the last 16 bytes of a file are the MD5 of those before, which are the image.
pub fn check_trailer<A: Area>(area: &mut A, eof: u64) -> Result<Option<Finding>, AreaError>
    requires { eof + trailer_size ≡ length (A.image area.old) }
    ensures found { IfOk result (Finds (row 1 eof (bytes_eq (drop eof (A.image area.old)) (md5 (take eof (A.image area.old)))) ∷ [])) }
    ensures area { Reads A.image A.frame A.faults A.edited area.old area.new result }
{
    let digest = digest_of(area, eof)?;
    let mut trailer = [0u8; 16];
    area.get(eof, &mut trailer)?;
    if trailer != digest {
        // 10.1
        return Ok(Some(Finding {
            rule: 1,
            place: eof,
        }));
    }
    Ok(None)
}
