//! What is read of variables where their descriptors stand.

ghost use Rattle.std.specs.Prelude.{◌≡◌, ◌++◌, map, IfOk, OnOk};
ghost use Rattle.cdf_area.specs.Calls.{Reads};
ghost use Rattle.cdf_format.specs.Fields.{name_at};
ghost use Rattle.cdf_vars.specs.Reading.{AreNamed, items_at};

use cdf_area::{Area, AreaError};
use cdf_model::{Item, Kind};
use cdf_names::NameTable;
use cdf_records::read_name;
use std::alloc::Global;

/// The names of the variables whose descriptors stand at these places.
pub fn read_names<A: Area>(
    alloc: Global,
    area: &mut A,
    places: &[u64],
) -> Result<NameTable, AreaError>
    requires { AreNamed (A.image area.old) places.now }
    ensures names { IfOk result (λ names. names ≡ map (name_at (A.image area.old)) places.now) }
    ensures area { Reads A.image A.frame A.faults A.edited area.old area.new result }
{
    let mut names = NameTable::new(alloc)?;
    for place in places {
        let name = read_name(alloc, area, *place)?;
        names.add(name)?;
    }
    Ok(names)
}

/// Adds the variables of a kind, whose descriptors stand at these places, as `list` shows them.
pub fn push_items_at<A: Area>(
    alloc: Global,
    area: &mut A,
    kind: Kind,
    places: &[u64],
    items: &mut Vec<Item>,
) -> Result<(), AreaError>
    requires { AreNamed (A.image area.old) places.now }
    ensures items { OnOk result (items.new.items ≡ items.old.items ++ items_at (A.image area.old) kind 0 places.now) }
    ensures area { Reads A.image A.frame A.faults A.edited area.old area.new result }
{
    for (number, place) in places.iter().enumerate() {
        let num = number as u32;
        let name = read_name(alloc, area, *place)?;
        items.push(Item::Var { kind, num, name })?;
    }
    Ok(())
}
