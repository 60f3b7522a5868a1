//! The rules on the dimensions of a variable, and on what its fields and its record take.

ghost use Rattle.std.specs.Prelude.{◌≡◌, ◌+◌, ◌*◌, ◌==◌, ◌≤◌, length, map, not, true, IfOk};
ghost use Rattle.std.specs.List.{list_all};
ghost use Rattle.std.specs.Option.{SomeIff};
ghost use Rattle.cdf_area.specs.Calls.{Reads};
ghost use Rattle.cdf_model.specs.Place.{record_limit};
ghost use Rattle.cdf_format.specs.Fields.{counted, gdr_offset, is_positive, number, r_num_dims, size_at, words};
ghost use Rattle.cdf_format.specs.Records.{vdr_z_num_dims};
ghost use Rattle.cdf_format.specs.VariableFields.{counted4, is_z, record_bytes, dimensions_at, vary_field};
ghost use Rattle.cdf_format.specs.VariableRules.{vdr_end};
ghost use Rattle.cdf_check.specs.Variables.{AreDimensions, AreFields, AreShared, AreValues, HasSizes, IsVariable, Measures, shape_rows};
ghost use Rattle.cdf_structure.specs.Findings.{Yields};

use crate::gdr_rules::are_sizes;
use crate::variable_fields::Fields;
use cdf_area::{Area, AreaError};
use cdf_format::fields::{
    GDR_R_DIM_SIZE, GDR_R_NUM_DIMS, VDR_PAD_BIT, VDR_R_DIM_VARY, VDR_Z_DIM_SIZE, VDR_Z_NUM_DIMS,
    Z_VDR_TYPE,
};
use cdf_format::flags::has_bit;
use cdf_model::limits::DIMENSION_LIMIT;
use cdf_model::{DataType, Nums, Varys};
use cdf_records::{read_nums, read_signed4, read_unsigned4};
use cdf_shape::{Shape, record_bytes};
use cdf_structure::Finding;
use std::alloc::{AllocError, Global};

/// What a value of a variable is made of: elements of a type.
#[derive(Clone, Copy)]
pub struct Value {
    pub data_type: DataType,
    pub elements: u32,
}

/// The dimensions of a variable: how many, their sizes, and where in its record it stands whether its values vary along them.
#[derive(Drop)]
pub struct Dimensions {
    pub count: u32,
    pub sizes: Nums,
    pub varys: u64,
}

/// A number, and 0 where it is below 0.
fn counted(number: i32) -> u32
    ensures { result ≡ counted number }
{
    if number < 0 { 0 } else { number as u32 }
}

/// Whether each size, with its sign, is positive; then it is as it was read.
fn have_sizes(sizes: &[u32]) -> bool
    ensures with_sign { result ≡ list_all is_positive (map counted4 sizes.now) }
    ensures same { result ≡ true → map counted4 sizes.now ≡ sizes.now }
{
    are_sizes(sizes)
}

/// Whether each number is not 0.
fn are_not_0(alloc: Global, numbers: &[u32]) -> Result<Vec<bool>, AllocError>
    ensures { IfOk result (λ varys. varys.items ≡ map (λ n. not (n == 0)) numbers.now) }
{
    numbers.iter().map(|number| *number != 0).collect(alloc)
}

/// The dimensions that the r variables share.
fn read_r_dimensions<A: Area>(
    alloc: Global,
    area: &mut A,
    gdr: u64,
) -> Result<Dimensions, AreaError>
    requires gdr { gdr ≡ gdr_offset (A.image area.old) }
    requires sizes { HasSizes (A.image area.old) }
    ensures dimensions { IfOk result (AreShared (A.image area.old)) }
    ensures area { Reads A.image A.frame A.faults A.edited area.old area.new result }
{
    let _size = area.size();
    let found = read_signed4(area, gdr + GDR_R_NUM_DIMS)?;
    let count = counted(found);
    let sizes = read_nums(alloc, area, gdr + GDR_R_DIM_SIZE, count)?;
    Ok(Dimensions {
        count,
        sizes,
        varys: VDR_R_DIM_VARY,
    })
}

/// The dimensions of a z variable; none where there are too many, no room for their sizes, or a size that is not positive.
fn read_z_dimensions<A: Area>(
    alloc: Global,
    area: &mut A,
    vdr: u64,
    fields: &Fields,
) -> Result<Option<Dimensions>, AreaError>
    requires variable { IsVariable (A.image area.old) vdr }
    requires fields { AreFields (A.image area.old) vdr fields.now }
    requires kind { is_z (A.image area.old) vdr ≡ true }
    ensures dimensions { IfOk result (Measures (A.image area.old) vdr) }
    ensures area { Reads A.image A.frame A.faults A.edited area.old area.new result }
{
    let _size = area.size();
    let count = read_unsigned4(area, vdr + VDR_Z_NUM_DIMS)?;
    if count > DIMENSION_LIMIT {
        return Ok(None);
    }
    let varys = VDR_Z_DIM_SIZE + 4 * u64::from(count);
    if varys > fields.record_size {
        return Ok(None);
    }
    let sizes = read_nums(alloc, area, vdr + VDR_Z_DIM_SIZE, count)?;
    if !have_sizes(sizes.as_slice()) {
        return Ok(None);
    }
    Ok(Some(Dimensions {
        count,
        sizes,
        varys,
    }))
}

/// The dimensions of a variable; none where they break rule 7.5.
fn read_dimensions<A: Area>(
    alloc: Global,
    area: &mut A,
    gdr: u64,
    vdr: u64,
    fields: &Fields,
) -> Result<Option<Dimensions>, AreaError>
    requires gdr { gdr ≡ gdr_offset (A.image area.old) }
    requires sizes { HasSizes (A.image area.old) }
    requires variable { IsVariable (A.image area.old) vdr }
    requires fields { AreFields (A.image area.old) vdr fields.now }
    ensures dimensions { IfOk result (Measures (A.image area.old) vdr) }
    ensures area { Reads A.image A.frame A.faults A.edited area.old area.new result }
{
    if fields.record_type == Z_VDR_TYPE {
        return read_z_dimensions(alloc, area, vdr, fields);
    }
    let dimensions = read_r_dimensions(alloc, area, gdr)?;
    Ok(Some(dimensions))
}

/// Where the fields of a variable end in its record, the pad value included.
fn end_of<A: Area>(
    _area: &A,
    vdr: u64,
    fields: &Fields,
    value: Value,
    dimensions: &Dimensions,
) -> u64
    requires fields { AreFields (A.image _area.now) vdr fields.now }
    requires value { AreValues (A.image _area.now) vdr value }
    requires dimensions { AreDimensions (A.image _area.now) vdr dimensions.now }
    ensures { result ≡ vdr_end (A.image _area.now) vdr }
{
    let pad = dimensions.varys + 4 * u64::from(dimensions.count);
    if !has_bit(fields.flags, VDR_PAD_BIT) {
        return pad;
    }
    let bytes = u64::from(value.data_type.size()) * u64::from(value.elements);
    pad + bytes
}

/// Whether the values of a variable vary along each dimension, from a place on.
fn read_varys<A: Area>(alloc: Global, area: &mut A, at: u64, count: u32) -> Result<Varys, AreaError>
    requires { at + 4 * count ≤ length (A.image area.old) }
    ensures value { IfOk result (λ varys. varys ≡ map (λ n. not (n == 0)) (words (A.image area.old) at count)) }
    ensures area { Reads A.image A.frame A.faults A.edited area.old area.new result }
{
    let numbers = read_nums(alloc, area, at, count)?;
    let varys = are_not_0(alloc, numbers.as_slice())?;
    Ok(Varys::new(varys))
}

/// How many bytes a record of a variable takes, if it is as small as it has to be.
fn read_record_bytes<A: Area>(
    alloc: Global,
    area: &mut A,
    vdr: u64,
    value: Value,
    dimensions: Dimensions,
) -> Result<Option<u64>, AreaError>
    requires value { AreValues (A.image area.old) vdr value }
    requires dimensions { AreDimensions (A.image area.old) vdr dimensions }
    requires room { vdr + dimensions.varys + 4 * dimensions.count ≤ length (A.image area.old) }
    ensures value { IfOk result (λ found. SomeIff found (record_bytes (A.image area.old) vdr ≤ record_limit) (record_bytes (A.image area.old) vdr)) }
    ensures area { Reads A.image A.frame A.faults A.edited area.old area.new result }
{
    let _size = area.size();
    let Dimensions {
        count,
        sizes,
        varys,
    } = dimensions;
    let shape = Shape {
        t: value.data_type,
        elems: value.elements,
        dims: sizes,
        varys: read_varys(alloc, area, vdr + varys, count)?,
    };
    Ok(record_bytes(&shape))
}

/// How many bytes a record of a variable takes, or a rule that is broken on its dimensions, the end of its fields, or these bytes.
pub fn check_shape<A: Area>(
    alloc: Global,
    area: &mut A,
    gdr: u64,
    vdr: u64,
    fields: &Fields,
    value: Value,
) -> Result<Result<u64, Finding>, AreaError>
    requires gdr { gdr ≡ gdr_offset (A.image area.old) }
    requires sizes { HasSizes (A.image area.old) }
    requires variable { IsVariable (A.image area.old) vdr }
    requires fields { AreFields (A.image area.old) vdr fields.now }
    requires value { AreValues (A.image area.old) vdr value }
    ensures found { IfOk result (Yields (shape_rows (A.image area.old) vdr) (λ bytes. bytes ≡ record_bytes (A.image area.old) vdr)) }
    ensures area { Reads A.image A.frame A.faults A.edited area.old area.new result }
{
    let place = vdr;
    let Some(dimensions) = read_dimensions(alloc, area, gdr, vdr, fields)? else {
        // 7.5
        return Ok(Err(Finding { rule: 5, place }));
    };
    let end = end_of(area, vdr, fields, value, &dimensions);
    if end > fields.record_size {
        // 7.6
        return Ok(Err(Finding { rule: 6, place }));
    }
    match read_record_bytes(alloc, area, vdr, value, dimensions)? {
        Some(bytes) => Ok(Ok(bytes)),
        // 7.7
        None => Ok(Err(Finding { rule: 7, place })),
    }
}
