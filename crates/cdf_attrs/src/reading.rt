//! What is read of attributes where their descriptors stand.

ghost use Rattle.std.specs.Prelude.{◌≡◌, ◌≤◌, ◌+◌, length, IfOk};
ghost use Rattle.cdf_area.specs.Calls.{Reads};
ghost use Rattle.cdf_format.specs.Content.{content, scope_of};
ghost use Rattle.cdf_format.specs.Fields.{number};
ghost use Rattle.cdf_format.specs.Records.{adr_scope, past};
ghost use Rattle.cdf_format.specs.Shape.{adrs, shape};
ghost use Rattle.cdf_format.specs.WellFormed.{Good};
ghost use Rattle.cdf_model.specs.Listing.{attribute_items};
ghost use Rattle.cdf_model.specs.Names.{attribute_names};

use cdf_area::{Area, AreaError};
use cdf_format::fields::ADR_SCOPE;
use cdf_model::{Item, Scope};
use cdf_names::NameTable;
use cdf_records::{read_name, read_unsigned4};
use std::alloc::Global;

/// The scope with this code.
fn scope_of(code: u32) -> Scope
    ensures { result ≡ scope_of code }
{
    match code {
        1 => Scope::Global,
        2 => Scope::Variable,
        3 => Scope::GlobalAssumed,
        _ => Scope::VariableAssumed,
    }
}

/// The scope of the attribute whose descriptor stands at a place.
pub fn read_scope<A: Area>(area: &mut A, place: u64) -> Result<Scope, AreaError>
    requires { place + past adr_scope ≤ length (A.image area.old) }
    ensures scope { IfOk result (λ scope. scope ≡ scope_of (number (A.image area.old) place adr_scope)) }
    ensures area { Reads A.image A.frame A.faults A.edited area.old area.new result }
{
    // An image has fewer than 2^64 bytes, so no place in it overflows.
    let _size = area.size();
    let code = read_unsigned4(area, place + ADR_SCOPE)?;
    Ok(scope_of(code))
}

/// The names of the attributes of a good image, whose descriptors stand at these places.
pub fn read_names<A: Area>(
    alloc: Global,
    area: &mut A,
    places: &[u64],
) -> Result<NameTable, AreaError>
    requires good { Good (A.image area.old) }
    requires places { places.now ≡ adrs (shape (A.image area.old)) }
    ensures names { IfOk result (λ names. names ≡ attribute_names (content (A.image area.old))) }
    ensures area { Reads A.image A.frame A.faults A.edited area.old area.new result }
{
    let mut names = NameTable::new(alloc)?;
    for place in places {
        let name = read_name(alloc, area, *place)?;
        names.add(name)?;
    }
    Ok(names)
}

/// The attributes of a good image, whose descriptors stand at these places, as `list` shows them.
pub fn read_items<A: Area>(
    alloc: Global,
    area: &mut A,
    places: &[u64],
) -> Result<Vec<Item>, AreaError>
    requires good { Good (A.image area.old) }
    requires places { places.now ≡ adrs (shape (A.image area.old)) }
    ensures items { IfOk result (λ items. items.items ≡ attribute_items 0 (content (A.image area.old)).attributes) }
    ensures area { Reads A.image A.frame A.faults A.edited area.old area.new result }
{
    let mut items = Vec::new(alloc);
    for (number, place) in places.iter().enumerate() {
        let num = number as u32;
        let name = read_name(alloc, area, *place)?;
        let scope = read_scope(area, *place)?;
        items.push(Item::Attr { num, name, scope })?;
    }
    Ok(items)
}
