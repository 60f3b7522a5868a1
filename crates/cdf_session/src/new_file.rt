//! The file of a new data set, which has two records.

ghost use Rattle.std.specs.Prelude.{◌≡◌, ◌≤◌, ◌++◌, [], IfOk, OnOk};
ghost use Rattle.cdf_area.specs.Calls.{Edits};
ghost use Rattle.cdf_format.specs.NewFile.{copyright, new_image, of_4_bytes, of_8_bytes, new_size};
ghost use Rattle.cdf_session.specs.Loading.{AreOf};

use crate::loading::{Loaded, load};
use cdf_area::{Area, AreaError};
use cdf_format::fields::{
    CDR_PLACE, CDR_SIZE, CDR_TYPE, GDR_SIZE, GDR_TYPE, MAGIC_UNCOMPRESSED, MAGIC_VERSION_3,
};
use std::alloc::{AllocError, Global};

/// Where the Global Descriptor Record of the new file stands, behind the CDF Descriptor Record.
const GDR_PLACE: u64 = CDR_PLACE + CDR_SIZE;

/// The bytes of the new file.
pub const NEW_SIZE: u64 = GDR_PLACE + GDR_SIZE;

/// The number -1 in 4 bytes.
const MINUS_ONE: u32 = 0xffff_ffff;

/// Appends numbers of 4 bytes each.
fn push_4_bytes(bytes: &mut Vec<u8>, numbers: &[u32]) -> Result<(), AllocError>
    ensures { OnOk result (bytes.new.items ≡ bytes.old.items ++ of_4_bytes numbers.now) }
{
    for number in numbers {
        bytes.extend_from_slice(&number.to_be_bytes())?;
    }
    Ok(())
}

/// Appends numbers of 8 bytes each.
fn push_8_bytes(bytes: &mut Vec<u8>, numbers: &[u64]) -> Result<(), AllocError>
    ensures { OnOk result (bytes.new.items ≡ bytes.old.items ++ of_8_bytes numbers.now) }
{
    for number in numbers {
        bytes.extend_from_slice(&number.to_be_bytes())?;
    }
    Ok(())
}

/// Appends the Copyright.
fn push_copyright(bytes: &mut Vec<u8>) -> Result<(), AllocError>
    ensures { OnOk result (bytes.new.items ≡ bytes.old.items ++ copyright) }
{
    bytes.extend_from_slice(b"\nCommon Data Format (CDF)\n")?;
    bytes.extend_from_slice(&[0; 230])?;
    Ok(())
}

/// The new file: the magic numbers, the CDF Descriptor Record and the Global Descriptor Record.
fn new_bytes(alloc: Global) -> Result<Vec<u8>, AllocError>
    ensures { IfOk result (λ bytes. bytes.items ≡ new_image) }
{
    let mut bytes = Vec::new(alloc);
    push_4_bytes(&mut bytes, &[MAGIC_VERSION_3, MAGIC_UNCOMPRESSED])?;
    push_8_bytes(&mut bytes, &[CDR_SIZE])?;
    push_4_bytes(&mut bytes, &[CDR_TYPE])?;
    push_8_bytes(&mut bytes, &[GDR_PLACE])?;
    push_4_bytes(&mut bytes, &[3, 9, 6, 3, 0, 0, 0, 2, MINUS_ONE])?;
    push_copyright(&mut bytes)?;
    push_8_bytes(&mut bytes, &[GDR_SIZE])?;
    push_4_bytes(&mut bytes, &[GDR_TYPE])?;
    push_8_bytes(&mut bytes, &[0, 0, 0, NEW_SIZE])?;
    push_4_bytes(&mut bytes, &[0, 0, MINUS_ONE, 0, 0])?;
    push_8_bytes(&mut bytes, &[0])?;
    push_4_bytes(&mut bytes, &[0, MINUS_ONE, MINUS_ONE])?;
    Ok(bytes)
}

/// Writes the new file into an empty area, and takes up its attributes and variables, of which there are none. After an error a part of this may have been done in the area.
pub fn write_new<A: Area>(alloc: Global, area: &mut A) -> Result<Loaded, AreaError>
    requires empty { A.image area.old ≡ [] }
    requires room { new_size ≤ (A.frame area.old).limit }
    ensures image { OnOk result (A.image area.new ≡ new_image) }
    ensures known { IfOk result (AreOf new_image) }
    ensures area { Edits A.frame A.faults area.old area.new result }
{
    let bytes = new_bytes(alloc)?;
    area.extend(NEW_SIZE)?;
    area.set(0, &bytes)?;
    load(alloc, area)
}
