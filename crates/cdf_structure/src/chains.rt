//! The rules on a chain whose members are counted and numbered.

ghost use Rattle.std.specs.Prelude.{◌≡◌, ◌+◌, ◌≤◌, ◌<◌, ℕ, length, IfOk};
ghost use Rattle.cdf_area.specs.Calls.{Reads};
ghost use Rattle.cdf_format.specs.ChainRules.{count_rows, number_rows};
ghost use Rattle.cdf_format.specs.Records.{field, cdr_place};
ghost use Rattle.cdf_format.specs.RecordTypes.{fixed_size};
ghost use Rattle.cdf_format.specs.Tiles.{In, AreTiles};
ghost use Rattle.cdf_format.specs.Walks.{whole};
ghost use Rattle.cdf_structure.specs.FileChains.{AreLong, walk_of, numbered_rows};
ghost use Rattle.cdf_structure.specs.Findings.{Finds, Yields};

use crate::finding::Finding;
use crate::links::walk_chain;
use cdf_area::{Area, AreaError};
use cdf_records::read_unsigned4;
use std::alloc::Global;

/// A kind of chain whose members are counted and numbered: the number of its first rule, the type of its members, and the
/// places of its head and its count in the record that leads to it and of the number in a member.
#[derive(Clone, Copy)]
pub struct Numbered {
    pub rule: u8,
    pub record_type: u32,
    pub head: u64,
    pub count: u64,
    pub number: u64,
}

/// That a field of the record at a place counts the members of a chain.
pub fn check_count<A: Area>(
    area: &mut A,
    rule: u8,
    place: u64,
    count: u64,
    members: &[u64],
) -> Result<Option<Finding>, AreaError>
    requires field { place + count + 4 ≤ length (A.image area.old) }
    ensures found { IfOk result (Finds (count_rows rule (A.image area.old) place (field count 4) members.now)) }
    ensures area { Reads A.image A.frame A.faults A.edited area.old area.new result }
{
    let _size = area.size();
    let counted = read_unsigned4(area, place + count)?;
    if u64::from(counted) != members.len() as u64 {
        return Ok(Some(Finding { rule, place }));
    }
    Ok(None)
}

/// That the members of a chain are numbered in their order.
fn check_numbers<A: Area>(
    area: &mut A,
    rule: u8,
    number: u64,
    members: &[u64],
) -> Result<Option<Finding>, AreaError>
    requires fields { (member : ℕ) → In member members.now → member + number + 4 ≤ length (A.image area.old) }
    ensures found { IfOk result (Finds (number_rows rule (A.image area.old) (field number 4) 0 members.now)) }
    ensures area { Reads A.image A.frame A.faults A.edited area.old area.new result }
{
    let _size = area.size();
    for i in 0..members.len() {
        let place = members[i];
        let found = read_unsigned4(area, place + number)?;
        if u64::from(found) != i as u64 {
            return Ok(Some(Finding { rule, place }));
        }
    }
    Ok(None)
}

/// The members of the chain of this kind from a record, or a rule on them that is broken.
pub fn check_numbered<A: Area>(
    alloc: Global,
    area: &mut A,
    tiles: &[u64],
    kind: Numbered,
    holder: u64,
) -> Result<Result<Vec<u64>, Finding>, AreaError>
    requires tiled { AreTiles (A.image area.old) cdr_place (length (A.image area.old)) tiles.now }
    requires long { AreLong (A.image area.old) tiles.now }
    requires head { holder + kind.head + 8 ≤ length (A.image area.old) }
    requires count { holder + kind.count + 4 ≤ length (A.image area.old) }
    requires number { kind.number + 4 ≤ fixed_size kind.record_type }
    requires rule { kind.rule < 100 }
    ensures found { IfOk result (Yields (numbered_rows (A.image area.old) tiles.now kind holder) (λ members. walk_of (A.image area.old) tiles.now kind holder ≡ whole members.items)) }
    ensures area { Reads A.image A.frame A.faults A.edited area.old area.new result }
{
    let walked = walk_chain(alloc, area, tiles, kind.record_type, holder, kind.head)?;
    let members = match walked {
        Ok(members) => members,
        // 5.2, 5.5, 5.8
        Err(place) => return Ok(Err(Finding {
            rule: kind.rule,
            place,
        })),
    };
    // 5.3, 5.6, 5.9
    if let Some(broken) = check_count(area, kind.rule + 1, holder, kind.count, &members)? {
        return Ok(Err(broken));
    }
    // 5.4, 5.7, 5.10
    if let Some(broken) = check_numbers(area, kind.rule + 2, kind.number, &members)? {
        return Ok(Err(broken));
    }
    Ok(Ok(members))
}
