//! The rules on the entries of an attribute.

ghost use Rattle.std.specs.Prelude.{◌≡◌, ◌+◌, ◌≤◌, [], ℕ, length, IfOk};
ghost use Rattle.std.specs.List.{flat_map};
ghost use Rattle.cdf_area.specs.Calls.{Reads};
ghost use Rattle.cdf_format.specs.AttributeRules.{entries_rows, entry_rows, has_value, same_number};
ghost use Rattle.cdf_format.specs.ChainRules.{differ_rows};
ghost use Rattle.cdf_format.specs.RecordTypes.{fixed_size};
ghost use Rattle.cdf_format.specs.Records.{field, cdr_place, link_size, aedr_value, adr_name};
ghost use Rattle.cdf_format.specs.Tiles.{In, AreTiles};
ghost use Rattle.cdf_format.specs.Walks.{whole};
ghost use Rattle.cdf_check.specs.Entries.{entry_walk, entry_chain_rows};
ghost use Rattle.cdf_structure.specs.FileChains.{AreLong};
ghost use Rattle.cdf_structure.specs.Findings.{Finds, Yields};

use cdf_area::{Area, AreaError};
use cdf_format::fields::{
    ADR_NUM, AEDR_ATTR_NUM, AEDR_DATA_TYPE, AEDR_NUM, AEDR_NUM_ELEMS, AEDR_VALUE,
};
use cdf_model::DataType;
use cdf_model::limits::{RECORD_LIMIT, RECORD_NUMBER_LIMIT, SIGNED_LIMIT};
use cdf_records::{read_signed4, read_unsigned4};
use cdf_structure::{Finding, Met, check_count, read_size, walk_chain};
use std::alloc::Global;

/// A kind of chain of entries: the type of its members, and the places of its head and its count in an attribute.
#[derive(Clone, Copy)]
pub struct EntryChain {
    pub record_type: u32,
    pub head: u64,
    pub count: u64,
}

/// Whether an entry has a value of a known type.
fn has_value<A: Area>(area: &mut A, place: u64) -> Result<bool, AreaError>
    requires { place + (aedr_value 0).place ≤ length (A.image area.old) }
    ensures value { IfOk result (λ has. has ≡ has_value (A.image area.old) place) }
    ensures area { Reads A.image A.frame A.faults A.edited area.old area.new result }
{
    let _size = area.size();
    let code = read_signed4(area, place + AEDR_DATA_TYPE)?;
    let elements = read_unsigned4(area, place + AEDR_NUM_ELEMS)?;
    let size = read_size(area, place)?;
    let Some(data_type) = DataType::of_code(code) else {
        return Ok(false);
    };
    if elements < 1 || elements > SIGNED_LIMIT {
        return Ok(false);
    }
    let bytes = u64::from(data_type.size()) * u64::from(elements);
    Ok(bytes <= RECORD_LIMIT && AEDR_VALUE + bytes <= size)
}

/// The rules on an entry of an attribute.
fn check_entry<A: Area>(area: &mut A, adr: u64, place: u64) -> Result<Option<Finding>, AreaError>
    requires adr { adr + adr_name.place ≤ length (A.image area.old) }
    requires entry { place + (aedr_value 0).place ≤ length (A.image area.old) }
    ensures found { IfOk result (Finds (entry_rows (A.image area.old) adr place)) }
    ensures area { Reads A.image A.frame A.faults A.edited area.old area.new result }
{
    let _size = area.size();
    let own = read_unsigned4(area, adr + ADR_NUM)?;
    let named = read_unsigned4(area, place + AEDR_ATTR_NUM)?;
    if named != own {
        // 6.6
        return Ok(Some(Finding { rule: 6, place }));
    }
    let number = read_unsigned4(area, place + AEDR_NUM)?;
    if number > RECORD_NUMBER_LIMIT {
        // 6.7
        return Ok(Some(Finding { rule: 7, place }));
    }
    if !has_value(area, place)? {
        // 6.8
        return Ok(Some(Finding { rule: 8, place }));
    }
    Ok(None)
}

/// The rules on each entry.
fn check_each<A: Area>(
    area: &mut A,
    adr: u64,
    entries: &[u64],
) -> Result<Option<Finding>, AreaError>
    requires adr { adr + adr_name.place ≤ length (A.image area.old) }
    requires entries { (entry : ℕ) → In entry entries.now → entry + (aedr_value 0).place ≤ length (A.image area.old) }
    ensures found { IfOk result (Finds (flat_map (entry_rows (A.image area.old) adr) entries.now)) }
    ensures area { Reads A.image A.frame A.faults A.edited area.old area.new result }
{
    for entry in entries {
        if let Some(broken) = check_entry(area, adr, *entry)? {
            return Ok(Some(broken));
        }
    }
    Ok(None)
}

/// That no two entries have one number.
fn check_apart<A: Area>(
    alloc: Global,
    area: &mut A,
    entries: &[u64],
) -> Result<Option<Finding>, AreaError>
    requires entries { (entry : ℕ) → In entry entries.now → entry + (aedr_value 0).place ≤ length (A.image area.old) }
    ensures found { IfOk result (Finds (differ_rows 7 (same_number (A.image area.old)) [] entries.now)) }
    ensures area { Reads A.image A.frame A.faults A.edited area.old area.new result }
{
    let _size = area.size();
    let mut numbers = Met::new(alloc);
    for entry in entries {
        let place = *entry;
        let number = u64::from(read_unsigned4(area, place + AEDR_NUM)?);
        if numbers.has(number) {
            // 6.7
            return Ok(Some(Finding { rule: 7, place }));
        }
        numbers.add(number)?;
    }
    Ok(None)
}

/// The rules on the entries of a chain, of which a field of the attribute has the count.
fn check_members<A: Area>(
    alloc: Global,
    area: &mut A,
    adr: u64,
    count: u64,
    entries: &[u64],
) -> Result<Option<Finding>, AreaError>
    requires adr { adr + adr_name.place ≤ length (A.image area.old) }
    requires count { count + 4 ≤ adr_name.place }
    requires entries { (entry : ℕ) → In entry entries.now → entry + (aedr_value 0).place ≤ length (A.image area.old) }
    ensures found { IfOk result (Finds (entries_rows (A.image area.old) adr (field count 4) entries.now)) }
    ensures area { Reads A.image A.frame A.faults A.edited area.old area.new result }
{
    // 6.5
    if let Some(broken) = check_count(area, 5, adr, count, entries)? {
        return Ok(Some(broken));
    }
    if let Some(broken) = check_each(area, adr, entries)? {
        return Ok(Some(broken));
    }
    if let Some(broken) = check_apart(alloc, area, entries)? {
        return Ok(Some(broken));
    }
    Ok(None)
}

/// The entries of one kind of an attribute, or a rule on them that is broken.
pub fn check_entries<A: Area>(
    alloc: Global,
    area: &mut A,
    tiles: &[u64],
    kind: EntryChain,
    adr: u64,
) -> Result<Result<Vec<u64>, Finding>, AreaError>
    requires tiled { AreTiles (A.image area.old) cdr_place (length (A.image area.old)) tiles.now }
    requires long { AreLong (A.image area.old) tiles.now }
    requires adr { adr + adr_name.place ≤ length (A.image area.old) }
    requires head { kind.head + link_size ≤ adr_name.place }
    requires count { kind.count + 4 ≤ adr_name.place }
    requires entry { (aedr_value 0).place ≤ fixed_size kind.record_type }
    ensures found { IfOk result (Yields (entry_chain_rows (A.image area.old) tiles.now kind adr) (λ entries. entry_walk (A.image area.old) tiles.now kind adr ≡ whole entries.items)) }
    ensures area { Reads A.image A.frame A.faults A.edited area.old area.new result }
{
    let _size = area.size();
    let walked = walk_chain(alloc, area, tiles, kind.record_type, adr, kind.head)?;
    let entries = match walked {
        Ok(entries) => entries,
        // 6.4
        Err(place) => return Ok(Err(Finding { rule: 4, place })),
    };
    if let Some(broken) = check_members(alloc, area, adr, kind.count, &entries)? {
        return Ok(Err(broken));
    }
    Ok(Ok(entries))
}
