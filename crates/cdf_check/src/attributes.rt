//! The rules on attributes.

ghost use Rattle.std.specs.Prelude.{◌≡◌, ◌+◌, ◌++◌, ◌∷◌, ◌<◌, ◌^◌, length, map, IfOk, OnOk, MatchResult};
ghost use Rattle.std.specs.List.{flat_map};
ghost use Rattle.cdf_area.specs.Calls.{Reads};
ghost use Rattle.cdf_format.specs.AttributeRules.{adr_rows, attribute_rows, phase6};
ghost use Rattle.cdf_format.specs.Fields.{name_in};
ghost use Rattle.cdf_format.specs.Owners.{attribute_records};
ghost use Rattle.cdf_format.specs.Records.{adr_name, cdr_place};
ghost use Rattle.cdf_format.specs.Shape.{adr_chain, attribute_shape};
ghost use Rattle.cdf_format.specs.Tiles.{AreTiles};
ghost use Rattle.cdf_format.specs.Walks.{whole};
ghost use Rattle.cdf_check.specs.Entries.{IsAttribute, AreAttributes, Describes};
ghost use Rattle.cdf_structure.specs.FileChains.{AreLong};
ghost use Rattle.cdf_structure.specs.Findings.{Yields};

use crate::entries::{EntryChain, check_entries};
use crate::names::Names;
use cdf_area::{Area, AreaError};
use cdf_format::fields::{
    ADR_AGR_EDR_HEAD, ADR_AZ_EDR_HEAD, ADR_NGR_ENTRIES, ADR_NZ_ENTRIES, ADR_SCOPE, AGR_EDR_TYPE,
    AZ_EDR_TYPE,
};
use cdf_model::Bytes;
use cdf_records::{read_name, read_unsigned4};
use cdf_structure::Finding;
use std::alloc::Global;

/// The chain of an attribute's gr entries.
const GR_ENTRIES: EntryChain = EntryChain {
    record_type: AGR_EDR_TYPE,
    head: ADR_AGR_EDR_HEAD,
    count: ADR_NGR_ENTRIES,
};
/// The chain of its z entries.
const Z_ENTRIES: EntryChain = EntryChain {
    record_type: AZ_EDR_TYPE,
    head: ADR_AZ_EDR_HEAD,
    count: ADR_NZ_ENTRIES,
};
/// The greatest code of a scope.
const LAST_SCOPE: u32 = 4;

/// What an attribute that keeps its rules has: its Name, and its entries.
#[derive(Drop)]
pub struct Attribute {
    pub name: Bytes,
    pub gr: Vec<u64>,
    pub z: Vec<u64>,
}

/// The Name of an attribute.
#[tactic(auto, using(crate::proofs::AttributeSteps::name_lies, crate::proofs::AttributeSteps::name_is))]
fn read_attribute_name<A: Area>(alloc: Global, area: &mut A, adr: u64) -> Result<Bytes, AreaError>
    requires { IsAttribute (A.image area.old) adr }
    ensures value { IfOk result (λ name. name ≡ name_in (A.image area.old) adr adr_name) }
    ensures area { Reads A.image A.frame A.faults A.edited area.old area.new result }
{
    read_name(alloc, area, adr)
}

/// The Name of an attribute, or a rule on its fields that is broken.
fn check_fields<A: Area>(
    alloc: Global,
    area: &mut A,
    adr: u64,
) -> Result<Result<Bytes, Finding>, AreaError>
    requires { IsAttribute (A.image area.old) adr }
    ensures found { IfOk result (Yields (adr_rows (A.image area.old) adr) (λ name. name ≡ name_in (A.image area.old) adr adr_name)) }
    ensures area { Reads A.image A.frame A.faults A.edited area.old area.new result }
{
    let _size = area.size();
    let name = read_attribute_name(alloc, area, adr)?;
    if name.as_slice().is_empty() {
        // 6.1
        return Ok(Err(Finding {
            rule: 1,
            place: adr,
        }));
    }
    let scope = read_unsigned4(area, adr + ADR_SCOPE)?;
    if scope < 1 || scope > LAST_SCOPE {
        // 6.3
        return Ok(Err(Finding {
            rule: 3,
            place: adr,
        }));
    }
    Ok(Ok(name))
}

/// What an attribute has, or a rule on it that is broken.
#[tactic(auto, using(cdf_structure::proofs::Rows::all_of_three, cdf_structure::proofs::Rows::first_of_three, cdf_structure::proofs::Rows::second_of_three, cdf_structure::proofs::Rows::third_of_three))]
fn check_attribute<A: Area>(
    alloc: Global,
    area: &mut A,
    tiles: &[u64],
    adr: u64,
) -> Result<Result<Attribute, Finding>, AreaError>
    requires tiled { AreTiles (A.image area.old) cdr_place (length (A.image area.old)) tiles.now }
    requires long { AreLong (A.image area.old) tiles.now }
    requires attribute { IsAttribute (A.image area.old) adr }
    ensures found { IfOk result (Yields (attribute_rows (A.image area.old) tiles.now adr) (Describes (A.image area.old) tiles.now adr)) }
    ensures area { Reads A.image A.frame A.faults A.edited area.old area.new result }
{
    let name = match check_fields(alloc, area, adr)? {
        Ok(name) => name,
        Err(broken) => return Ok(Err(broken)),
    };
    let gr = match check_entries(alloc, area, tiles, GR_ENTRIES, adr)? {
        Ok(entries) => entries,
        Err(broken) => return Ok(Err(broken)),
    };
    let z = match check_entries(alloc, area, tiles, Z_ENTRIES, adr)? {
        Ok(entries) => entries,
        Err(broken) => return Ok(Err(broken)),
    };
    Ok(Ok(Attribute { name, gr, z }))
}

/// Puts the records of an attribute last.
#[tactic(auto, using(crate::proofs::AttributeSteps::pushed))]
fn own(owned: &mut Vec<u64>, adr: u64, attribute: &Attribute) -> Result<(), AreaError>
    ensures owned { OnOk result (owned.new.items ≡ owned.old.items ++ (adr ∷ attribute.now.gr.items ++ attribute.now.z.items)) }
    ensures cause { MatchResult result (λ _. Unit {0}) (λ e. e ≡ AreaError.NoMemory) }
{
    owned.push(adr)?;
    owned.extend_from_slice(&attribute.gr)?;
    owned.extend_from_slice(&attribute.z)?;
    Ok(())
}

/// The records of attributes, or a rule on them that is broken.
fn check_each<A: Area>(
    alloc: Global,
    area: &mut A,
    tiles: &[u64],
    adrs: &[u64],
) -> Result<Result<Vec<u64>, Finding>, AreaError>
    requires tiled { AreTiles (A.image area.old) cdr_place (length (A.image area.old)) tiles.now }
    requires long { AreLong (A.image area.old) tiles.now }
    requires attributes { AreAttributes (A.image area.old) adrs.now }
    requires few { length adrs.now < 2 ^ 31 }
    ensures found { IfOk result (Yields (phase6 (A.image area.old) tiles.now adrs.now) (λ owned. owned.items ≡ flat_map attribute_records (map (attribute_shape (A.image area.old) tiles.now) adrs.now))) }
    ensures area { Reads A.image A.frame A.faults A.edited area.old area.new result }
{
    let mut owned = Vec::new(alloc);
    let mut names = Names::new(alloc)?;
    for adr in adrs {
        match check_attribute(alloc, area, tiles, *adr)? {
            Ok(attribute) => {
                own(&mut owned, *adr, &attribute)?;
                names.add(*adr, attribute.name)?;
            }
            Err(broken) => return Ok(Err(broken)),
        }
    }
    match names.repeated {
        Some(broken) => Ok(Err(broken)),
        None => Ok(Ok(owned)),
    }
}

/// The records of all attributes of an image, or a rule on attributes that is broken.
pub fn check_attributes<A: Area>(
    alloc: Global,
    area: &mut A,
    tiles: &[u64],
    adrs: &[u64],
) -> Result<Result<Vec<u64>, Finding>, AreaError>
    requires tiled { AreTiles (A.image area.old) cdr_place (length (A.image area.old)) tiles.now }
    requires long { AreLong (A.image area.old) tiles.now }
    requires chain { adr_chain (A.image area.old) tiles.now ≡ whole adrs.now }
    requires small { length (A.image area.old) < 2 ^ 31 }
    ensures found { IfOk result (Yields (phase6 (A.image area.old) tiles.now adrs.now) (λ owned. owned.items ≡ flat_map attribute_records (map (attribute_shape (A.image area.old) tiles.now) adrs.now))) }
    ensures area { Reads A.image A.frame A.faults A.edited area.old area.new result }
{
    check_each(alloc, area, tiles, adrs)
}
