//! The rules on variables.

ghost use Rattle.std.specs.Prelude.{◌≡◌, ◌<◌, ◌^◌, length, IfOk};
ghost use Rattle.cdf_area.specs.Calls.{Reads};
ghost use Rattle.cdf_format.specs.Fields.{gdr_offset};
ghost use Rattle.cdf_format.specs.Records.{cdr_place};
ghost use Rattle.cdf_format.specs.Tiles.{AreTiles, Distinct};
ghost use Rattle.cdf_format.specs.VariableRules.{phase7};
ghost use Rattle.cdf_check.specs.Variables.{AreDescribed, AreVariables, HasSizes};
ghost use Rattle.cdf_structure.specs.Findings.{Yields};

use crate::names::Names;
use crate::variable::{Variable, check_variable};
use cdf_area::{Area, AreaError};
use cdf_structure::Finding;
use std::alloc::Global;

/// What the rules on records ask of variables: the place of the CPR of each that is compressed, how many bytes a record of each takes,
/// and the link to its index.
#[derive(Drop)]
pub struct Described {
    pub cprs: Vec<Option<u64>>,
    pub record_sizes: Vec<u64>,
    pub vxr_heads: Vec<u64>,
}

/// What the variables of an image have, or a rule on variables that is broken.
pub fn check_variables<A: Area>(
    alloc: Global,
    area: &mut A,
    tiles: &[u64],
    gdr: u64,
    vdrs: &[u64],
) -> Result<Result<Described, Finding>, AreaError>
    requires gdr { gdr ≡ gdr_offset (A.image area.old) }
    requires sizes { HasSizes (A.image area.old) }
    requires tiled { AreTiles (A.image area.old) cdr_place (length (A.image area.old)) tiles.now }
    requires variables { AreVariables (A.image area.old) vdrs.now }
    requires once { Distinct vdrs.now }
    requires few { length vdrs.now < 2 ^ 31 }
    ensures found { IfOk result (Yields (phase7 (A.image area.old) tiles.now vdrs.now) (AreDescribed (A.image area.old) vdrs.now)) }
    ensures area { Reads A.image A.frame A.faults A.edited area.old area.new result }
{
    let mut names = Names::new(alloc)?;
    let mut cprs = Vec::new(alloc);
    let mut record_sizes = Vec::new(alloc);
    let mut vxr_heads = Vec::new(alloc);
    for vdr in vdrs {
        match check_variable(alloc, area, tiles, gdr, *vdr)? {
            Ok(variable) => {
                let Variable {
                    name,
                    cpr,
                    record_bytes,
                    vxr_head,
                } = variable;
                cprs.push(cpr)?;
                record_sizes.push(record_bytes)?;
                vxr_heads.push(vxr_head)?;
                names.add(*vdr, name)?;
            }
            Err(broken) => return Ok(Err(broken)),
        }
    }
    match names.repeated {
        Some(broken) => Ok(Err(broken)),
        None => Ok(Ok(Described {
            cprs,
            record_sizes,
            vxr_heads,
        })),
    }
}
