//! The descriptor of a new variable, as bytes.

ghost use Rattle.std.specs.Prelude.{◌≡◌, ◌≤◌, ◌++◌, ◌∷◌, [], length, map, IfOk, OnOk};
ghost use Rattle.std.specs.List.{flat_map};
ghost use Rattle.byteorder.specs.Endian.{big_bytes};
ghost use Rattle.cdf_edits.specs.Commands.Allowances.{vdr_type};
ghost use Rattle.cdf_edits.specs.Space.Placing.{laid_out};
ghost use Rattle.cdf_format.specs.Records.{record_type, vdr_vdr_next, vdr_name};
ghost use Rattle.cdf_model.specs.Limits.{dimension_limit};
ghost use Rattle.cdf_vars.specs.Creating.{own_dims, vary_code, vdr_body, vdr_fields, wanted};

use cdf_fields::padded;
use cdf_format::fields::{R_VDR_TYPE, Z_VDR_TYPE};
use cdf_model::Kind;
use cdf_shape::Shape;
use std::alloc::{AllocError, Global};

/// The type of the descriptors of a kind.
fn type_of(kind: Kind) -> u32
    ensures { result ≡ vdr_type kind }
{
    match kind {
        Kind::R => R_VDR_TYPE,
        Kind::Z => Z_VDR_TYPE,
    }
}

/// What stands before the Name: no next variable, no records, no pad value, and no compression.
fn front(
    alloc: Global,
    kind: Kind,
    shape: &Shape,
    vary: bool,
    num: u32,
) -> Result<Vec<u8>, AllocError>
    ensures { IfOk result (λ bytes. bytes.items ≡ laid_out ((record_type, vdr_type kind) ∷ (vdr_vdr_next, 0) ∷ vdr_fields (wanted [] shape.now vary) num)) }
{
    let mut bytes = Vec::new(alloc);
    bytes.extend_from_slice(&type_of(kind).to_be_bytes())?;
    bytes.extend_from_slice(&0u64.to_be_bytes())?;
    bytes.extend_from_slice(&shape.t.code().to_be_bytes())?;
    // MaxRec, and the head and the tail of the index
    bytes.extend_from_slice(&u32::MAX.to_be_bytes())?;
    bytes.extend_from_slice(&0u64.to_be_bytes())?;
    bytes.extend_from_slice(&0u64.to_be_bytes())?;
    // Flags, SRecords, rfuB, rfuC and rfuF
    bytes.extend_from_slice(&u32::from(vary).to_be_bytes())?;
    bytes.extend_from_slice(&0u32.to_be_bytes())?;
    bytes.extend_from_slice(&0u32.to_be_bytes())?;
    bytes.extend_from_slice(&u32::MAX.to_be_bytes())?;
    bytes.extend_from_slice(&u32::MAX.to_be_bytes())?;
    bytes.extend_from_slice(&shape.elems.to_be_bytes())?;
    bytes.extend_from_slice(&num.to_be_bytes())?;
    // CPRorSPRoffset, and BlockingFactor
    bytes.extend_from_slice(&u64::MAX.to_be_bytes())?;
    bytes.extend_from_slice(&0u32.to_be_bytes())?;
    Ok(bytes)
}

/// Appends a number of dimensions, and their sizes.
fn push_sizes(bytes: &mut Vec<u8>, dims: &[u32]) -> Result<(), AllocError>
    requires { length dims.now ≤ dimension_limit }
    ensures { OnOk result (bytes.new.items ≡ bytes.old.items ++ flat_map (big_bytes 4) (length dims.now ∷ dims.now)) }
{
    let dimensions = dims.len() as u32;
    bytes.extend_from_slice(&dimensions.to_be_bytes())?;
    for size in dims {
        bytes.extend_from_slice(&size.to_be_bytes())?;
    }
    Ok(())
}

/// Appends zNumDims and zDimSizes, which a z variable has.
fn push_dims(bytes: &mut Vec<u8>, kind: Kind, dims: &[u32]) -> Result<(), AllocError>
    requires { length dims.now ≤ dimension_limit }
    ensures { OnOk result (bytes.new.items ≡ bytes.old.items ++ flat_map (big_bytes 4) (own_dims kind dims.now)) }
{
    match kind {
        Kind::R => Ok(()),
        Kind::Z => push_sizes(bytes, dims),
    }
}

/// Appends DimVarys: -1 where a dimension varies.
fn push_varys(bytes: &mut Vec<u8>, varys: &[bool]) -> Result<(), AllocError>
    ensures { OnOk result (bytes.new.items ≡ bytes.old.items ++ flat_map (big_bytes 4) (map vary_code varys.now)) }
{
    for varies in varys {
        let code = if *varies { u32::MAX } else { 0 };
        bytes.extend_from_slice(&code.to_be_bytes())?;
    }
    Ok(())
}

/// What follows the size of a new Variable Descriptor Record.
pub fn vdr_body(
    alloc: Global,
    kind: Kind,
    name: &[u8],
    shape: &Shape,
    vary: bool,
    num: u32,
) -> Result<Vec<u8>, AllocError>
    requires name { length name.now ≤ vdr_name.width }
    requires few { length shape.now.dims ≤ dimension_limit }
    ensures { IfOk result (λ bytes. bytes.items ≡ vdr_body kind (wanted name.now shape.now vary) num) }
{
    let mut bytes = front(alloc, kind, shape, vary, num)?;
    bytes.extend_from_slice(&padded(name))?;
    push_dims(&mut bytes, kind, shape.dims.as_slice())?;
    push_varys(&mut bytes, shape.varys.as_slice())?;
    Ok(bytes)
}
