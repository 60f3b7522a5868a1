//! How the records of a variable are laid out, as its descriptor says.

ghost use Rattle.std.specs.Prelude.{◌≡◌, ◌==◌, ◌+◌, ◌*◌, ◌≤◌, length, map, not, IfOk};
ghost use Rattle.cdf_area.specs.Calls.{Reads};
ghost use Rattle.cdf_format.specs.Content.{content};
ghost use Rattle.cdf_format.specs.Fields.{flags, words};
ghost use Rattle.cdf_format.specs.VariableFields.{dims_at, varys_at};
ghost use Rattle.cdf_format.specs.WellFormed.{Good};
ghost use Rattle.cdf_model.specs.declared.kinds.Kind.TheVariants.{Z};
ghost use Rattle.cdf_var_records.specs.Descriptors.{IsPlace, IsVdr};
ghost use Rattle.cdf_var_records.specs.Records.{IsForm};

use crate::pad_place::{PadPlace, read_pad_place, read_z_dimensions};
use cdf_area::{Area, AreaError};
use cdf_format::fields::{
    CDR_FLAGS, CDR_GDR_OFFSET, CDR_PLACE, GDR_R_DIM_SIZE, GDR_R_NUM_DIMS, VDR_Z_DIM_SIZE,
};
use cdf_format::flags::majority_in;
use cdf_model::{Encoding, Kind, Majority, Nums, Varys};
use cdf_records::{read_encoding, read_nums, read_unsigned4, read_unsigned8};
use cdf_shape::Shape;
use std::alloc::{AllocError, Global};

/// What is read of a variable before its records.
#[derive(Drop)]
pub struct Form {
    /// Its descriptor, and where its pad value stands in it.
    pub place: PadPlace,
    /// What a record holds.
    pub shape: Shape,
    /// The encoding of the values of the file.
    pub encoding: Encoding,
}

/// The majority of a file.
#[tactic(auto, using(cdf_format::proofs::GoodHead::cdr_fits))]
pub fn read_majority<A: Area>(area: &mut A) -> Result<Majority, AreaError>
    requires { Good (A.image area.old) }
    ensures majority { IfOk result (λ majority. majority ≡ (content (A.image area.old)).majority) }
    ensures area { Reads A.image A.frame A.faults A.edited area.old area.new result }
{
    let flags = read_unsigned4(area, CDR_PLACE + CDR_FLAGS)?;
    Ok(majority_in(flags))
}

/// Whether each number is not 0.
fn are_not_0(alloc: Global, numbers: &[u32]) -> Result<Vec<bool>, AllocError>
    ensures { IfOk result (λ varys. varys.items ≡ map (λ n. not (n == 0)) numbers.now) }
{
    numbers.iter().map(|number| *number != 0).collect(alloc)
}

/// Whether so many dimensions vary, from a place on.
fn read_varys<A: Area>(alloc: Global, area: &mut A, at: u64, count: u32) -> Result<Varys, AreaError>
    requires { at + 4 * count ≤ length (A.image area.old) }
    ensures value { IfOk result (λ varys. varys ≡ map (λ n. not (n == 0)) (words (A.image area.old) at count)) }
    ensures area { Reads A.image A.frame A.faults A.edited area.old area.new result }
{
    let numbers = read_nums(alloc, area, at, count)?;
    let varys = are_not_0(alloc, numbers.as_slice())?;
    Ok(Varys::new(varys))
}

/// The sizes of the dimensions that the r variables of a good image share.
#[tactic(auto, using(crate::proofs::PadSites::offset_lies, crate::proofs::PadSites::count_lies))]
pub fn read_dims<A: Area>(alloc: Global, area: &mut A) -> Result<Nums, AreaError>
    requires { Good (A.image area.old) }
    ensures dims { IfOk result (λ dims. dims ≡ (content (A.image area.old)).rdims) }
    ensures area { Reads A.image A.frame A.faults A.edited area.old area.new result }
{
    // An image has fewer than 2^64 bytes, so no place in it overflows.
    let _size = area.size();
    let gdr = read_unsigned8(area, CDR_PLACE + CDR_GDR_OFFSET)?;
    let dimensions = read_unsigned4(area, gdr + GDR_R_NUM_DIMS)?;
    read_nums(alloc, area, gdr + GDR_R_DIM_SIZE, dimensions)
}

/// The sizes of the dimensions of the z variable whose descriptor stands at a place of a good image.
#[tactic(auto, using(crate::proofs::RecordForms::z_sizes_lie))]
fn read_z_dims<A: Area>(alloc: Global, area: &mut A, vdr: u64) -> Result<Nums, AreaError>
    requires good { Good (A.image area.old) }
    requires vdr { IsVdr (A.image area.old) Z vdr }
    ensures dims { IfOk result (λ dims. dims ≡ dims_at (A.image area.old) vdr) }
    ensures area { Reads A.image A.frame A.faults A.edited area.old area.new result }
{
    // An image has fewer than 2^64 bytes, so no place in it overflows.
    let _size = area.size();
    let dimensions = read_z_dimensions(area, vdr)?;
    read_nums(alloc, area, vdr + VDR_Z_DIM_SIZE, dimensions)
}

/// The sizes of the dimensions of a variable of a kind, whose descriptor stands at a place of a good image.
fn read_dims_of<A: Area>(
    alloc: Global,
    area: &mut A,
    kind: Kind,
    vdr: u64,
) -> Result<Nums, AreaError>
    requires good { Good (A.image area.old) }
    requires vdr { IsVdr (A.image area.old) kind vdr }
    ensures dims { IfOk result (λ dims. dims ≡ dims_at (A.image area.old) vdr) }
    ensures area { Reads A.image A.frame A.faults A.edited area.old area.new result }
{
    match kind {
        Kind::R => read_dims(alloc, area),
        Kind::Z => read_z_dims(alloc, area, vdr),
    }
}

/// Whether the dimensions of a variable vary. They end where its pad value belongs.
fn read_varys_of<A: Area>(
    alloc: Global,
    area: &mut A,
    kind: Kind,
    place: PadPlace,
    count: usize,
) -> Result<Varys, AreaError>
    requires good { Good (A.image area.old) }
    requires vdr { IsVdr (A.image area.old) kind place.vdr }
    requires place { IsPlace (A.image area.old) place.vdr place }
    requires count { count ≡ length (dims_at (A.image area.old) place.vdr) }
    ensures varys { IfOk result (λ varys. varys ≡ varys_at (A.image area.old) place.vdr) }
    ensures area { Reads A.image A.frame A.faults A.edited area.old area.new result }
{
    // An image has fewer than 2^64 bytes, so no place in it overflows.
    let _size = area.size();
    let at = place.at - 4 * count as u64;
    read_varys(alloc, area, place.vdr + at, count as u32)
}

/// How the records of a variable of a kind are laid out, whose descriptor stands at a place of a good image.
#[tactic(auto, using(cdf_area::proofs::Calls::read_done, cdf_area::proofs::Calls::read_failed, cdf_area::proofs::Calls::read_more, cdf_area::proofs::Calls::read_once))]
pub fn read_form<A: Area>(
    alloc: Global,
    area: &mut A,
    kind: Kind,
    vdr: u64,
) -> Result<Form, AreaError>
    requires good { Good (A.image area.old) }
    requires vdr { IsVdr (A.image area.old) kind vdr }
    ensures vdr { IfOk result (λ form. form.place.vdr ≡ vdr) }
    ensures form { IfOk result (IsForm (A.image area.old)) }
    ensures area { Reads A.image A.frame A.faults A.edited area.old area.new result }
{
    let place = read_pad_place(area, kind, vdr)?;
    let encoding = read_encoding(area)?;
    let dims = read_dims_of(alloc, area, kind, vdr)?;
    let varys = read_varys_of(alloc, area, kind, place, dims.as_slice().len())?;
    Ok(Form {
        place,
        shape: Shape {
            t: place.t,
            elems: place.elems,
            dims,
            varys,
        },
        encoding,
    })
}
