//! The rules on the chains that begin in the Global Descriptor Record.

ghost use Rattle.std.specs.Prelude.{◌≡◌, ◌+◌, ◌≤◌, length, IfOk};
ghost use Rattle.cdf_area.specs.Calls.{Reads};
ghost use Rattle.cdf_format.specs.ChainRules.{phase5};
ghost use Rattle.cdf_format.specs.Fields.{gdr_offset};
ghost use Rattle.cdf_format.specs.Tiles.{AreTiles};
ghost use Rattle.cdf_format.specs.Records.{cdr_place};
ghost use Rattle.cdf_format.specs.RecordTypes.{fixed_size, gdr_type};
ghost use Rattle.cdf_structure.specs.FileChains.{AreLong, AreChains, member_rows, unused_rows};
ghost use Rattle.cdf_structure.specs.Findings.{Finds, Yields};

use crate::chains::{Numbered, check_numbered};
use crate::finding::Finding;
use crate::links::{is_a, walk_chain};
use cdf_area::{Area, AreaError};
use cdf_format::fields::{
    ADR_NUM, ADR_TYPE, CDR_PLACE, GDR_ADR_HEAD, GDR_NR_VARS, GDR_NUM_ATTR, GDR_NZ_VARS,
    GDR_R_VDR_HEAD, GDR_TYPE, GDR_UIR_HEAD, GDR_Z_VDR_HEAD, R_VDR_TYPE, UIR_TYPE, VDR_NUM,
    Z_VDR_TYPE,
};
use std::alloc::Global;

/// The chain of attributes.
const ATTRIBUTES: Numbered = Numbered {
    rule: 2,
    record_type: ADR_TYPE,
    head: GDR_ADR_HEAD,
    count: GDR_NUM_ATTR,
    number: ADR_NUM,
};
/// The chain of r variables.
const R_VARIABLES: Numbered = Numbered {
    rule: 5,
    record_type: R_VDR_TYPE,
    head: GDR_R_VDR_HEAD,
    count: GDR_NR_VARS,
    number: VDR_NUM,
};
/// The chain of z variables.
const Z_VARIABLES: Numbered = Numbered {
    rule: 8,
    record_type: Z_VDR_TYPE,
    head: GDR_Z_VDR_HEAD,
    count: GDR_NZ_VARS,
    number: VDR_NUM,
};

/// The records of the attributes and variables of a file.
#[derive(Drop)]
pub struct Chains {
    pub attributes: Vec<u64>,
    pub r_variables: Vec<u64>,
    pub z_variables: Vec<u64>,
}

/// The attributes and the variables of a file, or a rule on their chains that is broken.
#[tactic(auto, using(crate::proofs::Rows::all_of_three, crate::proofs::Rows::first_of_three, crate::proofs::Rows::second_of_three, crate::proofs::Rows::third_of_three))]
fn check_members<A: Area>(
    alloc: Global,
    area: &mut A,
    tiles: &[u64],
    gdr: u64,
) -> Result<Result<Chains, Finding>, AreaError>
    requires tiled { AreTiles (A.image area.old) cdr_place (length (A.image area.old)) tiles.now }
    requires long { AreLong (A.image area.old) tiles.now }
    requires gdr { gdr ≡ gdr_offset (A.image area.old) }
    requires room { gdr + fixed_size gdr_type ≤ length (A.image area.old) }
    ensures found { IfOk result (Yields (member_rows (A.image area.old) tiles.now) (AreChains (A.image area.old) tiles.now)) }
    ensures area { Reads A.image A.frame A.faults A.edited area.old area.new result }
{
    let attributes = match check_numbered(alloc, area, tiles, ATTRIBUTES, gdr)? {
        Ok(members) => members,
        Err(broken) => return Ok(Err(broken)),
    };
    let r_variables = match check_numbered(alloc, area, tiles, R_VARIABLES, gdr)? {
        Ok(members) => members,
        Err(broken) => return Ok(Err(broken)),
    };
    let z_variables = match check_numbered(alloc, area, tiles, Z_VARIABLES, gdr)? {
        Ok(members) => members,
        Err(broken) => return Ok(Err(broken)),
    };
    Ok(Ok(Chains {
        attributes,
        r_variables,
        z_variables,
    }))
}

/// The rule on the links of unused records.
fn check_unused<A: Area>(
    alloc: Global,
    area: &mut A,
    tiles: &[u64],
    gdr: u64,
) -> Result<Option<Finding>, AreaError>
    requires tiled { AreTiles (A.image area.old) cdr_place (length (A.image area.old)) tiles.now }
    requires gdr { gdr ≡ gdr_offset (A.image area.old) }
    requires room { gdr + fixed_size gdr_type ≤ length (A.image area.old) }
    ensures found { IfOk result (Finds (unused_rows (A.image area.old) tiles.now)) }
    ensures area { Reads A.image A.frame A.faults A.edited area.old area.new result }
{
    match walk_chain(alloc, area, tiles, UIR_TYPE, gdr, GDR_UIR_HEAD)? {
        Ok(_) => Ok(None),
        // 5.11
        Err(place) => Ok(Some(Finding { rule: 11, place })),
    }
}

/// The chains that begin in the Global Descriptor Record, or a rule on the chains of an image that is broken.
#[tactic(auto, using(crate::proofs::ChainLists::gdr_ends, crate::proofs::ChainLists::links_hold, crate::proofs::ChainLists::members_break, crate::proofs::ChainLists::unused_breaks))]
pub fn check_chains<A: Area>(
    alloc: Global,
    area: &mut A,
    tiles: &[u64],
    gdr: u64,
) -> Result<Result<Chains, Finding>, AreaError>
    requires tiled { AreTiles (A.image area.old) cdr_place (length (A.image area.old)) tiles.now }
    requires long { AreLong (A.image area.old) tiles.now }
    requires gdr { gdr ≡ gdr_offset (A.image area.old) }
    ensures found { IfOk result (Yields (phase5 (A.image area.old) tiles.now) (AreChains (A.image area.old) tiles.now)) }
    ensures area { Reads A.image A.frame A.faults A.edited area.old area.new result }
{
    if !is_a(area, tiles, GDR_TYPE, gdr)? {
        // 5.1
        return Ok(Err(Finding {
            rule: 1,
            place: CDR_PLACE,
        }));
    }
    let chains = match check_members(alloc, area, tiles, gdr)? {
        Ok(chains) => chains,
        Err(broken) => return Ok(Err(broken)),
    };
    if let Some(broken) = check_unused(alloc, area, tiles, gdr)? {
        return Ok(Err(broken));
    }
    Ok(Ok(chains))
}
