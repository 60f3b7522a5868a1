//! Where the pad value of a variable belongs.

ghost use Rattle.std.specs.Prelude.{◌≡◌, ◌+◌, ◌≤◌, length, IfOk};
ghost use Rattle.cdf_area.specs.Calls.{Reads};
ghost use Rattle.cdf_edits.specs.Commands.Room.{vdr_bytes};
ghost use Rattle.cdf_format.specs.Fields.{gdr_offset, r_num_dims};
ghost use Rattle.cdf_format.specs.VariableFields.{dimensions_at, pad_field};
ghost use Rattle.cdf_format.specs.WellFormed.{Good};
ghost use Rattle.cdf_model.specs.Limits.{dimension_limit};
ghost use Rattle.cdf_model.specs.declared.kinds.Kind.TheVariants.{Z};
ghost use Rattle.cdf_var_records.specs.Descriptors.{IsPlace, IsVdr};

use cdf_area::{Area, AreaError};
use cdf_format::fields::{
    CDR_GDR_OFFSET, CDR_PLACE, GDR_R_NUM_DIMS, R_VDR_SIZE, VDR_Z_NUM_DIMS, Z_VDR_SIZE,
};
use cdf_model::{DataType, Kind};
use cdf_records::{read_unsigned4, read_unsigned8, read_vdr};

/// Where the pad value of a variable belongs, and what it is to be.
#[derive(Clone, Copy)]
pub struct PadPlace {
    /// Where the descriptor of the variable stands.
    pub vdr: u64,
    /// Where the pad value stands in it.
    pub at: u64,
    /// The bytes of the descriptor.
    pub size: u64,
    pub flags: u32,
    pub t: DataType,
    pub elems: u32,
}

/// How many dimensions the r variables of a good image have.
#[tactic(auto, using(crate::proofs::PadSites::offset_lies, crate::proofs::PadSites::count_lies))]
fn read_r_dimensions<A: Area>(area: &mut A) -> Result<u32, AreaError>
    requires { Good (A.image area.old) }
    ensures few { IfOk result (λ n. n ≤ dimension_limit) }
    ensures dimensions { IfOk result (λ n. n ≡ r_num_dims (A.image area.old) (gdr_offset (A.image area.old))) }
    ensures area { Reads A.image A.frame A.faults A.edited area.old area.new result }
{
    // An image has fewer than 2^64 bytes, so no place in it overflows.
    let _size = area.size();
    let gdr = read_unsigned8(area, CDR_PLACE + CDR_GDR_OFFSET)?;
    let dimensions = read_unsigned4(area, gdr + GDR_R_NUM_DIMS)?;
    Ok(dimensions)
}

/// How many dimensions the z variable has whose descriptor stands at a place of a good image.
#[tactic(auto, using(crate::proofs::PadSites::z_few))]
pub fn read_z_dimensions<A: Area>(area: &mut A, vdr: u64) -> Result<u32, AreaError>
    requires good { Good (A.image area.old) }
    requires vdr { IsVdr (A.image area.old) Z vdr }
    ensures few { IfOk result (λ n. n ≤ dimension_limit) }
    ensures dimensions { IfOk result (λ n. n ≡ dimensions_at (A.image area.old) vdr) }
    ensures area { Reads A.image A.frame A.faults A.edited area.old area.new result }
{
    // An image has fewer than 2^64 bytes, so no place in it overflows.
    let _size = area.size();
    let dimensions = read_unsigned4(area, vdr + VDR_Z_NUM_DIMS)?;
    Ok(dimensions)
}

/// The bytes of a descriptor of a variable of a kind, which has so many dimensions and no pad value.
pub fn descriptor_size(kind: Kind, dimensions: usize) -> u64
    requires { dimensions ≤ dimension_limit }
    ensures { result ≡ vdr_bytes kind dimensions }
{
    match kind {
        Kind::R => R_VDR_SIZE + 4 * dimensions as u64,
        Kind::Z => Z_VDR_SIZE + 8 * dimensions as u64,
    }
}

/// Where the pad value of a variable of a kind stands in its descriptor, which stands at a place of a good image.
fn read_pad_offset<A: Area>(area: &mut A, kind: Kind, vdr: u64) -> Result<u64, AreaError>
    requires good { Good (A.image area.old) }
    requires vdr { IsVdr (A.image area.old) kind vdr }
    ensures place { IfOk result (λ at. at ≡ (pad_field (A.image area.old) vdr).place) }
    ensures area { Reads A.image A.frame A.faults A.edited area.old area.new result }
{
    let dimensions = match kind {
        Kind::R => read_r_dimensions(area)?,
        Kind::Z => read_z_dimensions(area, vdr)?,
    };
    Ok(descriptor_size(kind, dimensions as usize))
}

/// Where the pad value of a variable of a kind belongs, whose descriptor stands at a place of a good image.
pub fn read_pad_place<A: Area>(area: &mut A, kind: Kind, vdr: u64) -> Result<PadPlace, AreaError>
    requires good { Good (A.image area.old) }
    requires vdr { IsVdr (A.image area.old) kind vdr }
    ensures place { IfOk result (IsPlace (A.image area.old) vdr) }
    ensures area { Reads A.image A.frame A.faults A.edited area.old area.new result }
{
    let at = read_pad_offset(area, kind, vdr)?;
    let head = read_vdr(area, vdr)?;
    Ok(PadPlace {
        vdr,
        at,
        size: head.record_size,
        flags: head.flags,
        // Each good file has a type that is known.
        t: DataType::of_code(head.data_type).unwrap_or(DataType::Byte),
        elems: head.num_elems.cast_unsigned(),
    })
}
