//! The digest of the front of an area.

ghost use Rattle.std.specs.Prelude.{◌≡◌, ◌≤◌, length, take, IfOk};
ghost use Rattle.cdf_area.specs.Calls.{Reads};
ghost use Rattle.md5.specs.Md5.{md5};

use cdf_area::{Area, AreaError};
use md5::{Digest, Md5};

/// How many bytes are read at once.
const PIECE: usize = 4096;

/// The MD5 digest of the first `upto` bytes of an area, which is read in pieces, from the front.
pub fn digest_of<A: Area>(area: &mut A, upto: u64) -> Result<[u8; 16], AreaError>
    requires { upto ≤ length (A.image area.old) }
    ensures digest { IfOk result (λ digest. digest ≡ md5 (take upto (A.image area.old))) }
    ensures area { Reads A.image A.frame A.faults A.edited area.old area.new result }
{
    let mut hasher = Md5::new();
    let mut piece = [0u8; PIECE];
    let mut place = 0u64;
    while place < upto {
        let count = (upto - place).min(PIECE as u64) as usize;
        let part = &mut piece[..count];
        area.get(place, part)?;
        hasher.update(part);
        place += count as u64;
    }
    Ok(hasher.finalize())
}
