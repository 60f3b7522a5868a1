//! Single numbers of an image, read.

ghost use Rattle.std.specs.Prelude.{◌≡◌, ◌+◌, ◌*◌, ◌≤◌, length, IfOk};
ghost use Rattle.cdf_area.specs.Calls.{Reads};
ghost use Rattle.cdf_format.specs.Fields.{signed4, word, words};

use crate::field::{read_piece, unsigned4, unsigned8};
use cdf_area::{Area, AreaError};
use cdf_model::Nums;
use std::alloc::Global;

/// The 4 bytes at a place, without a sign.
pub fn read_unsigned4<A: Area>(area: &mut A, at: u64) -> Result<u32, AreaError>
    requires { at + 4 ≤ length (A.image area.old) }
    ensures value { IfOk result (λ number. number ≡ word (A.image area.old) at 4) }
    ensures area { Reads A.image A.frame A.faults A.edited area.old area.new result }
{
    let mut bytes = [0u8; 4];
    read_piece(area, at, &mut bytes)?;
    Ok(unsigned4(&bytes, 0))
}

/// The 4 bytes at a place, with a sign.
pub fn read_signed4<A: Area>(area: &mut A, at: u64) -> Result<i32, AreaError>
    requires { at + 4 ≤ length (A.image area.old) }
    ensures value { IfOk result (λ number. number ≡ signed4 (A.image area.old) at) }
    ensures area { Reads A.image A.frame A.faults A.edited area.old area.new result }
{
    let number = read_unsigned4(area, at)?;
    Ok(number.cast_signed())
}

/// The 8 bytes at a place, without a sign.
pub fn read_unsigned8<A: Area>(area: &mut A, at: u64) -> Result<u64, AreaError>
    requires { at + 8 ≤ length (A.image area.old) }
    ensures value { IfOk result (λ number. number ≡ word (A.image area.old) at 8) }
    ensures area { Reads A.image A.frame A.faults A.edited area.old area.new result }
{
    let mut bytes = [0u8; 8];
    read_piece(area, at, &mut bytes)?;
    Ok(unsigned8(&bytes, 0))
}

/// `n` numbers of 4 bytes, one after the other from a place on.
pub fn read_nums<A: Area>(alloc: Global, area: &mut A, at: u64, n: u32) -> Result<Nums, AreaError>
    requires { at + 4 * n ≤ length (A.image area.old) }
    ensures value { IfOk result (λ numbers. numbers ≡ words (A.image area.old) at n) }
    ensures area { Reads A.image A.frame A.faults A.edited area.old area.new result }
{
    let _size = area.size();
    let mut numbers = Vec::new(alloc);
    let mut place = at;
    for _ in 0..n {
        let number = read_unsigned4(area, place)?;
        numbers.push(number)?;
        place += 4;
    }
    Ok(Nums::new(numbers))
}
