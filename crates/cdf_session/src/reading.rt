//! The head of the data set, as it is read.

ghost use Rattle.std.specs.Prelude.{◌≡◌, ◌+◌, ◌≤◌, IfOk};
ghost use Rattle.cdf_area.specs.Calls.{Reads};
ghost use Rattle.cdf_format.specs.Content.{content};
ghost use Rattle.cdf_format.specs.Fields.{r_num_dims, r_sizes, LiesIn, number};
ghost use Rattle.cdf_format.specs.WellFormed.{Good};
ghost use Rattle.cdf_format.specs.Records.{gdr_r_num_dims, gdr_r_dim_sizes};
ghost use Rattle.cdf_model.specs.Limits.{dimension_limit};
ghost use Rattle.cdf_model.specs.DataSet.{head_of};
ghost use Rattle.cdf_records.specs.Heads.{gdr_at};
ghost use Rattle.cdf_session.specs.Heads.{head_with};

use cdf_area::{Area, AreaError};
use cdf_format::fields::{CDR_CHECKSUM_BIT, CDR_PLACE, GDR_R_DIM_SIZE};
use cdf_format::flags::{has_bit, majority_in};
use cdf_model::{Head, Nums};
use cdf_records::{Cdr, Gdr, read_cdr, read_gdr, read_nums};
use std::alloc::Global;

/// The head that the two records and the sizes of the dimensions give.
fn head_from(cdr: &Cdr, gdr: &Gdr, rdims: Nums) -> Head
    ensures { result ≡ head_with cdr.now gdr.now rdims }
{
    Head {
        version: cdr.version,
        release: cdr.release,
        increment: cdr.increment,
        encoding: cdr.encoding.cast_unsigned(),
        majority: majority_in(cdr.flags),
        md5: has_bit(cdr.flags, CDR_CHECKSUM_BIT),
        rdims,
        attrs: gdr.num_attr.cast_unsigned(),
        rvars: gdr.nr_vars.cast_unsigned(),
        zvars: gdr.nz_vars.cast_unsigned(),
    }
}

/// The sizes of the dimensions, where the Global Descriptor Record stands at a place.
fn read_sizes<A: Area>(
    alloc: Global,
    area: &mut A,
    gdr: &Gdr,
    place: u64,
) -> Result<Nums, AreaError>
    requires gdr { gdr.now ≡ gdr_at (A.image area.old) place }
    requires few { number (A.image area.old) place gdr_r_num_dims ≤ dimension_limit }
    requires fits { LiesIn (A.image area.old) place (gdr_r_dim_sizes (r_num_dims (A.image area.old) place)) }
    ensures sizes { IfOk result (λ sizes. sizes ≡ r_sizes (A.image area.old) place) }
    ensures area { Reads A.image A.frame A.faults A.edited area.old area.new result }
{
    // An image has fewer than 2^64 bytes, so no place in it overflows.
    let _size = area.size();
    let dimensions = gdr.r_num_dims.cast_unsigned();
    read_nums(alloc, area, place + GDR_R_DIM_SIZE, dimensions)
}

/// The head of the data set of a good image, as `info` shows it.
pub fn read_head<A: Area>(alloc: Global, area: &mut A) -> Result<Head, AreaError>
    requires { Good (A.image area.old) }
    ensures head { IfOk result (λ head. head ≡ head_of (content (A.image area.old))) }
    ensures area { Reads A.image A.frame A.faults A.edited area.old area.new result }
{
    let cdr = read_cdr(area, CDR_PLACE)?;
    let gdr = read_gdr(area, cdr.gdr_offset)?;
    let rdims = read_sizes(alloc, area, &gdr, cdr.gdr_offset)?;
    Ok(head_from(&cdr, &gdr, rdims))
}
