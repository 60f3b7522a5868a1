//! Chains of records, walked link by link.

ghost use Rattle.std.specs.Prelude.{◌≡◌, ◌+◌, ◌≤◌, ◌&&◌, not, length, IfOk};
ghost use Rattle.cdf_area.specs.Calls.{Reads};
ghost use Rattle.cdf_format.specs.Chains.{is_in, is_a, is_linkable, chain};
ghost use Rattle.cdf_format.specs.Records.{field, cdr_place};
ghost use Rattle.cdf_format.specs.Tiles.{AreTiles};
ghost use Rattle.cdf_structure.specs.Met.{Agrees};
ghost use Rattle.cdf_structure.specs.Walked.{Meets, Walks};

use crate::fields::{read_size, read_type};
use crate::met::Met;
use crate::sorted::stands_in;
use cdf_area::{Area, AreaError};
use cdf_format::fields::{LINKED_SIZE, UIR_NEXT_UIR};
use cdf_records::read_unsigned8;
use std::alloc::Global;

/// Whether a record of this type stands at a place.
pub fn is_a<A: Area>(
    area: &mut A,
    tiles: &[u64],
    record_type: u32,
    place: u64,
) -> Result<bool, AreaError>
    requires tiled { AreTiles (A.image area.old) cdr_place (length (A.image area.old)) tiles.now }
    ensures value { IfOk result (λ is. is ≡ is_a (A.image area.old) tiles.now record_type place) }
    ensures area { Reads A.image A.frame A.faults A.edited area.old area.new result }
{
    if !stands_in(tiles, place) {
        return Ok(false);
    }
    let found = read_type(area, place)?;
    Ok(found == record_type)
}

/// Whether a chain of records of this type may lead to a place.
pub fn is_linkable<A: Area>(
    area: &mut A,
    tiles: &[u64],
    record_type: u32,
    place: u64,
) -> Result<bool, AreaError>
    requires tiled { AreTiles (A.image area.old) cdr_place (length (A.image area.old)) tiles.now }
    ensures value { IfOk result (λ is. is ≡ is_linkable (A.image area.old) tiles.now record_type place) }
    ensures area { Reads A.image A.frame A.faults A.edited area.old area.new result }
{
    if !is_a(area, tiles, record_type, place)? {
        return Ok(false);
    }
    let size = read_size(area, place)?;
    Ok(size >= LINKED_SIZE)
}

/// Whether the chain goes on to a place that it has not met.
pub fn goes_on<A: Area>(
    area: &mut A,
    tiles: &[u64],
    record_type: u32,
    met: &Met,
    place: u64,
) -> Result<bool, AreaError>
    requires tiled { AreTiles (A.image area.old) cdr_place (length (A.image area.old)) tiles.now }
    requires agrees { Agrees met.now }
    ensures value { IfOk result (λ goes. goes ≡ (is_linkable (A.image area.old) tiles.now record_type place && not (is_in place met.now.list.items))) }
    ensures area { Reads A.image A.frame A.faults A.edited area.old area.new result }
{
    if met.has(place) {
        return Ok(false);
    }
    is_linkable(area, tiles, record_type, place)
}

/// The link of a record to which the chain goes on, which is met then; none where it may not go on to it.
fn meet<A: Area>(
    area: &mut A,
    tiles: &[u64],
    record_type: u32,
    met: &mut Met,
    place: u64,
) -> Result<Option<u64>, AreaError>
    requires tiled { AreTiles (A.image area.old) cdr_place (length (A.image area.old)) tiles.now }
    requires agrees { Agrees met.old }
    ensures meets { IfOk result (Meets (A.image area.old) tiles.now record_type met.old met.new place) }
    ensures area { Reads A.image A.frame A.faults A.edited area.old area.new result }
{
    let _size = area.size();
    if !goes_on(area, tiles, record_type, met, place)? {
        return Ok(None);
    }
    met.add(place)?;
    let next = read_unsigned8(area, place + UIR_NEXT_UIR)?;
    Ok(Some(next))
}

/// The members of the chain from a field of a record, or the record with a link that leads wrong.
pub fn walk_chain<A: Area>(
    alloc: Global,
    area: &mut A,
    tiles: &[u64],
    record_type: u32,
    holder: u64,
    head: u64,
) -> Result<Result<Vec<u64>, u64>, AreaError>
    requires tiled { AreTiles (A.image area.old) cdr_place (length (A.image area.old)) tiles.now }
    requires head { holder + head + 8 ≤ length (A.image area.old) }
    ensures walk { IfOk result (Walks (chain (A.image area.old) tiles.now record_type holder (field head 8))) }
    ensures area { Reads A.image A.frame A.faults A.edited area.old area.new result }
{
    let _size = area.size();
    let mut met = Met::new(alloc);
    let mut last = holder;
    let mut link = read_unsigned8(area, holder + head)?;
    for turn in 0..tiles.len() {
        if link == 0 {
            return Ok(Ok(met.list));
        }
        match meet(area, tiles, record_type, &mut met, link)? {
            Some(next) => {
                last = link;
                link = next;
            }
            None => return Ok(Err(last)),
        }
    }
    if link == 0 {
        Ok(Ok(met.list))
    } else {
        Ok(Err(last))
    }
}
