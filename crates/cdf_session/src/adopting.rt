//! A file that was found well formed is taken up: its attributes and variables are read, and its trailer is dropped.

ghost use Rattle.std.specs.Prelude.{◌≡◌, take, IfOk, OnOk, OnErr, None};
ghost use Rattle.cdf_area.specs.Calls.{Edits, Reads};
ghost use Rattle.cdf_format.specs.Sealed.{image_of, trailer_length};
ghost use Rattle.cdf_format.specs.WellFormed.{Good, WellFormed};
ghost use Rattle.cdf_session.specs.Loading.{AreOf};

use crate::loading::{Loaded, load};
use cdf_area::{Area, AreaError};
use cdf_format::fields::{CDR_CHECKSUM_BIT, CDR_PLACE, TRAILER_SIZE};
use cdf_format::flags::has_bit;
use cdf_records::read_cdr;
use cdf_seal::Front;
use std::alloc::Global;

/// The bytes that stand after the image of a well-formed file.
fn trailer_size<A: Area>(area: &mut A) -> Result<u64, AreaError>
    requires { WellFormed (A.image area.old) }
    ensures size { IfOk result (λ size. size ≡ trailer_length (A.image area.old)) }
    ensures area { Reads A.image A.frame A.faults A.edited area.old area.new result }
{
    let cdr = read_cdr(area, CDR_PLACE)?;
    if has_bit(cdr.flags, CDR_CHECKSUM_BIT) {
        Ok(TRAILER_SIZE)
    } else {
        Ok(0)
    }
}

/// The attributes and the variables of an image, which is the first bytes of a file.
fn load_image<A: Area>(alloc: Global, area: &mut A, eof: u64) -> Result<Loaded, AreaError>
    requires { Good (take eof (A.image area.old)) }
    ensures known { IfOk result (AreOf (take eof (A.image area.old))) }
    ensures area { Reads A.image A.frame A.faults A.edited area.old area.new result }
{
    let mut image = Front::new(area, eof);
    load(alloc, &mut image)
}

/// Takes up the attributes and the variables of a well-formed file, and then drops its trailer, so that the file is as it was after an error.
pub fn take_up<A: Area>(alloc: Global, area: &mut A) -> Result<Loaded, AreaError>
    requires well_formed { WellFormed (A.image area.old) }
    requires unmarked { (A.frame area.old).base ≡ None }
    ensures image { OnOk result (A.image area.new ≡ image_of (A.image area.old)) }
    ensures known { IfOk result (AreOf (A.image area.new)) }
    ensures unedited { A.edited area.new ≡ A.edited area.old }
    ensures stays { OnErr result (A.image area.new ≡ A.image area.old) }
    ensures area { Edits A.frame A.faults area.old area.new result }
{
    let trailer = trailer_size(area)?;
    let eof = area.size() - trailer;
    let loaded = load_image(alloc, area, eof)?;
    area.shorten(trailer);
    Ok(loaded)
}
