//! The rules on an image, phases 4 to 9.

ghost use Rattle.std.specs.Prelude.{◌≡◌, ◌+◌, ◌++◌, ◌∷◌, ◌≤◌, ◌<◌, ◌^◌, ℕ, List, length, map, IfOk};
ghost use Rattle.std.specs.List.{flat_map};
ghost use Rattle.cdf_area.specs.Calls.{Reads};
ghost use Rattle.cdf_format.specs.AttributeRules.{phase6};
ghost use Rattle.cdf_format.specs.ChainRules.{phase5};
ghost use Rattle.cdf_format.specs.Fields.{gdr_offset};
ghost use Rattle.cdf_format.specs.NotRead.{unread_variables};
ghost use Rattle.cdf_format.specs.Owners.{attribute_records};
ghost use Rattle.cdf_format.specs.RecordRules.{phase4};
ghost use Rattle.cdf_format.specs.Rules.{Hold};
ghost use Rattle.cdf_format.specs.Shape.{attribute_shape};
ghost use Rattle.cdf_format.specs.Tiles.{tiling};
ghost use Rattle.cdf_format.specs.Walks.{whole};
ghost use Rattle.cdf_format.specs.Records.{cdr_place};
ghost use Rattle.cdf_structure.specs.FileChains.{AreChains};
ghost use Rattle.cdf_structure.specs.Findings.{Finds};
ghost use Rattle.cdf_structure.specs.Indexes.{cpr_at};
ghost use Rattle.cdf_structure.specs.Owners.{IsFor, KnowsOwned};
ghost use Rattle.cdf_structure.specs.Records.{unused_of};
ghost use Rattle.cdf_structure.specs.Walked.{Climbs};
ghost use Rattle.cdf_check.specs.Variables.{HasRoomForSizes};
ghost use Rattle.cdf_check.specs.Verdicts.{JudgesImage};

use crate::attributes::check_attributes;
use crate::variables::check_variables;
use crate::verdict::{Broken, in_phase};
use cdf_area::{Area, AreaError};
use cdf_format::fields::CDR_PLACE;
use cdf_structure::{Chains, Finding, Owners, check_chains, check_indexes, check_tiles};
use std::alloc::{AllocError, Global};

/// The places of two lists, one after the other.
fn join(alloc: Global, first: &[u64], second: &[u64]) -> Result<Vec<u64>, AllocError>
    ensures { IfOk result (λ both. both.items ≡ first.now ++ second.now) }
{
    let mut both = Vec::new(alloc);
    both.extend_from_slice(first)?;
    both.extend_from_slice(second)?;
    Ok(both)
}

/// The owners of the first two records of a file and of the records of its attributes, which are these members.
fn own_members(
    alloc: Global,
    tiles: &[u64],
    gdr: u64,
    members: &[u64],
) -> Result<Owners, AllocError>
    requires climbs { Climbs tiles.now }
    ensures marks { IfOk result (IsFor tiles.now) }
    ensures told { IfOk result (KnowsOwned tiles.now (cdr_place ∷ gdr ∷ members.now)) }
{
    let mut owners = Owners::new(alloc, tiles)?;
    owners.add(tiles, CDR_PLACE);
    owners.add(tiles, gdr);
    owners.add_all(tiles, members);
    Ok(owners)
}

/// That none of these variables is compressed, where these are their CPRs: no packed variable is read so far.
fn check_read(vdrs: &[u64], cprs: &[Option<u64>]) -> Option<Finding>
    requires as_many { length cprs.now ≡ length vdrs.now }
    ensures found { (b : List ℕ) → cprs.now ≡ map (cpr_at b) vdrs.now → Finds (unread_variables b vdrs.now) result }
{
    for i in 0..vdrs.len() {
        if cprs[i].is_some() {
            // 9.99
            return Some(Finding {
                rule: 99,
                place: vdrs[i],
            });
        }
    }
    None
}

/// A rule on variables or owners that an image breaks, of which the records, the chains and the attributes keep their rules. The
/// records of the attributes are these members.
fn check_variable_members<A: Area>(
    alloc: Global,
    area: &mut A,
    tiles: &[u64],
    unused: &[u64],
    chains: &Chains,
    gdr: u64,
    members: &[u64],
) -> Result<Option<Broken>, AreaError>
    requires tiling { tiling (A.image area.old) ≡ whole tiles.now }
    requires unused { unused.now ≡ unused_of (A.image area.old) tiles.now }
    requires records { Hold (phase4 (A.image area.old)) }
    requires chains { AreChains (A.image area.old) tiles.now chains.now }
    requires linked { Hold (phase5 (A.image area.old) tiles.now) }
    requires attributes { Hold (phase6 (A.image area.old) tiles.now chains.now.attributes.items) }
    requires members { members.now ≡ flat_map attribute_records (map (attribute_shape (A.image area.old) tiles.now) chains.now.attributes.items) }
    requires small { length (A.image area.old) < 2 ^ 31 }
    requires gdr { gdr ≡ gdr_offset (A.image area.old) }
    requires sizes { HasRoomForSizes (A.image area.old) }
    ensures verdict { IfOk result (JudgesImage (A.image area.old)) }
    ensures area { Reads A.image A.frame A.faults A.edited area.old area.new result }
{
    let vdrs = join(alloc, &chains.r_variables, &chains.z_variables)?;
    let described = match check_variables(alloc, area, tiles, gdr, &vdrs)? {
        Ok(described) => described,
        Err(finding) => return Ok(Some(in_phase(7, finding))),
    };
    let cprs = &described.cprs;
    let sizes = &described.record_sizes;
    let heads = &described.vxr_heads;
    let mut owners = own_members(alloc, tiles, gdr, members)?;
    let broken = check_indexes(alloc, area, tiles, &vdrs, cprs, sizes, heads, &mut owners)?;
    if let Some(finding) = broken {
        return Ok(Some(in_phase(8, finding)));
    }
    owners.add_all(tiles, unused);
    if let Some(finding) = owners.check(tiles) {
        return Ok(Some(in_phase(9, finding)));
    }
    if let Some(finding) = check_read(&vdrs, cprs) {
        return Ok(Some(in_phase(9, finding)));
    }
    Ok(None)
}

/// A rule on attributes, variables or owners that an image breaks, of which the records and the chains keep their rules.
fn check_members<A: Area>(
    alloc: Global,
    area: &mut A,
    tiles: &[u64],
    unused: &[u64],
    chains: &Chains,
    gdr: u64,
) -> Result<Option<Broken>, AreaError>
    requires tiling { tiling (A.image area.old) ≡ whole tiles.now }
    requires unused { unused.now ≡ unused_of (A.image area.old) tiles.now }
    requires records { Hold (phase4 (A.image area.old)) }
    requires chains { AreChains (A.image area.old) tiles.now chains.now }
    requires linked { Hold (phase5 (A.image area.old) tiles.now) }
    requires small { length (A.image area.old) < 2 ^ 31 }
    requires gdr { gdr ≡ gdr_offset (A.image area.old) }
    requires sizes { HasRoomForSizes (A.image area.old) }
    ensures verdict { IfOk result (JudgesImage (A.image area.old)) }
    ensures area { Reads A.image A.frame A.faults A.edited area.old area.new result }
{
    let members = match check_attributes(alloc, area, tiles, &chains.attributes)? {
        Ok(members) => members,
        Err(finding) => return Ok(Some(in_phase(6, finding))),
    };
    check_variable_members(alloc, area, tiles, unused, chains, gdr, &members)
}

/// A rule that an image breaks, of which the records keep their rules.
fn check_linked<A: Area>(
    alloc: Global,
    area: &mut A,
    tiles: &[u64],
    unused: &[u64],
    gdr: u64,
) -> Result<Option<Broken>, AreaError>
    requires tiling { tiling (A.image area.old) ≡ whole tiles.now }
    requires unused { unused.now ≡ unused_of (A.image area.old) tiles.now }
    requires records { Hold (phase4 (A.image area.old)) }
    requires small { length (A.image area.old) < 2 ^ 31 }
    requires gdr { gdr ≡ gdr_offset (A.image area.old) }
    requires sizes { HasRoomForSizes (A.image area.old) }
    ensures verdict { IfOk result (JudgesImage (A.image area.old)) }
    ensures area { Reads A.image A.frame A.faults A.edited area.old area.new result }
{
    let chains = match check_chains(alloc, area, tiles, gdr)? {
        Ok(chains) => chains,
        Err(finding) => return Ok(Some(in_phase(5, finding))),
    };
    check_members(alloc, area, tiles, unused, &chains, gdr)
}

/// A rule on its records that an image breaks, with its Global Descriptor Record at a place.
pub fn check_image<A: Area>(
    alloc: Global,
    area: &mut A,
    gdr: u64,
) -> Result<Option<Broken>, AreaError>
    requires some { cdr_place ≤ length (A.image area.old) }
    requires small { length (A.image area.old) < 2 ^ 31 }
    requires gdr { gdr ≡ gdr_offset (A.image area.old) }
    requires sizes { HasRoomForSizes (A.image area.old) }
    ensures verdict { IfOk result (JudgesImage (A.image area.old)) }
    ensures area { Reads A.image A.frame A.faults A.edited area.old area.new result }
{
    let records = match check_tiles(alloc, area)? {
        Ok(records) => records,
        Err(finding) => return Ok(Some(in_phase(4, finding))),
    };
    check_linked(alloc, area, &records.all, &records.unused, gdr)
}
