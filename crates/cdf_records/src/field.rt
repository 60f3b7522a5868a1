//! Fields in the bytes of a record.

ghost use Rattle.std.specs.Prelude.{◌≡◌, ◌+◌, ◌≤◌, ℕ, length, OnOk};
ghost use Rattle.cdf_format.specs.Fields.{word};
ghost use Rattle.std.specs.Int.{w32, w64, cast_signed};
ghost use Rattle.cdf_area.specs.Calls.{Reads};
ghost use Rattle.cdf_records.specs.Pieces.{AreBytes, Shows};

use byteorder::{BigEndian, ByteOrder};
use cdf_area::{Area, AreaError};

/// Reads the bytes from a place on, with all the fields in them.
pub fn read_piece<A: Area>(area: &mut A, at: u64, bytes: &mut [u8]) -> Result<(), AreaError>
    requires { at + length bytes.old ≤ length (A.image area.old) }
    ensures fields { OnOk result (Shows bytes.new (word (A.image area.old)) at) }
    ensures bytes { OnOk result (AreBytes (A.image area.old) at (length bytes.new)) }
    ensures area { Reads A.image A.frame A.faults A.edited area.old area.new result }
{
    area.get(at, bytes)?;
    Ok(())
}

/// The 4 bytes at a place, without a sign.
pub fn unsigned4(bytes: &[u8], place: u64) -> u32
    requires { place + 4 ≤ length bytes.now }
    ensures { (field : ℕ → ℕ → ℕ) (start : ℕ) → Shows bytes.now field start → result ≡ field (start + place) 4 }
{
    BigEndian::read_u32(&bytes[place as usize..])
}

/// The 4 bytes at a place, with a sign.
pub fn signed4(bytes: &[u8], place: u64) -> i32
    requires { place + 4 ≤ length bytes.now }
    ensures { (field : ℕ → ℕ → ℕ) (start : ℕ) → Shows bytes.now field start → result ≡ cast_signed w32 (field (start + place) 4) }
{
    unsigned4(bytes, place).cast_signed()
}

/// The 8 bytes at a place, without a sign.
pub fn unsigned8(bytes: &[u8], place: u64) -> u64
    requires { place + 8 ≤ length bytes.now }
    ensures { (field : ℕ → ℕ → ℕ) (start : ℕ) → Shows bytes.now field start → result ≡ field (start + place) 8 }
{
    BigEndian::read_u64(&bytes[place as usize..])
}

/// The 8 bytes at a place, with a sign.
pub fn signed8(bytes: &[u8], place: u64) -> i64
    requires { place + 8 ≤ length bytes.now }
    ensures { (field : ℕ → ℕ → ℕ) (start : ℕ) → Shows bytes.now field start → result ≡ cast_signed w64 (field (start + place) 8) }
{
    unsigned8(bytes, place).cast_signed()
}
