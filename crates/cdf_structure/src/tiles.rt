//! The rules on the records of an image: that they fill it, and their types and sizes.

ghost use Rattle.std.specs.Prelude.{◌≡◌, ◌+◌, ◌++◌, ◌∷◌, [], ◌≤◌, length, IfOk, OnOk};
ghost use Rattle.cdf_area.specs.Calls.{Reads};
ghost use Rattle.cdf_format.specs.Fields.{size_at};
ghost use Rattle.cdf_format.specs.RecordRules.{phase4};
ghost use Rattle.cdf_format.specs.Tiles.{tiling};
ghost use Rattle.cdf_format.specs.Records.{past, cdr_place, record_type};
ghost use Rattle.cdf_structure.specs.Records.{AreRecords, AreSorted, WalksTiles, head_rows};
ghost use Rattle.cdf_structure.specs.Findings.{Finds, Yields};
ghost use Rattle.cdf_structure.specs.Walked.{SizesTile};

use crate::fields::{read_size, read_type};
use crate::finding::Finding;
use crate::record_types::{fixed_size, is_record_type};
use cdf_area::{Area, AreaError};
use cdf_format::fields::{CDR_PLACE, LEAST_SIZE, UIR_TYPE};
use std::alloc::Global;

/// The records of an image, and those of them that are unused.
#[derive(Drop)]
pub struct Records {
    pub all: Vec<u64>,
    pub unused: Vec<u64>,
}

/// Records as a walk met them, and the first rule on one of them that is broken.
#[derive(Drop)]
struct Walked {
    records: Records,
    broken: Option<Finding>,
}

/// The size of the record at a place, if one stands there.
fn tile_size<A: Area>(area: &mut A, place: u64) -> Result<Option<u64>, AreaError>
    requires within { place ≤ length (A.image area.old) }
    ensures size { IfOk result (SizesTile (A.image area.old) place) }
    ensures area { Reads A.image A.frame A.faults A.edited area.old area.new result }
{
    let rest = area.size() - place;
    if rest < LEAST_SIZE {
        return Ok(None);
    }
    let size = read_size(area, place)?;
    if size < LEAST_SIZE || size > rest {
        return Ok(None);
    }
    Ok(Some(size))
}

/// The rules on the type and the size of a record.
fn check_head(place: u64, record_type: u32, size: u64) -> Option<Finding>
    ensures { Finds (head_rows place record_type size) result }
{
    if !is_record_type(record_type) {
        // 4.2
        return Some(Finding { rule: 2, place });
    }
    if size < fixed_size(record_type) {
        // 4.3
        return Some(Finding { rule: 3, place });
    }
    None
}

/// Puts a record of this size last.
fn put_record<A: Area>(
    area: &mut A,
    walked: &mut Walked,
    place: u64,
    size: u64,
) -> Result<(), AreaError>
    requires room { place + past record_type ≤ length (A.image area.old) }
    requires size { size ≡ size_at (A.image area.old) place }
    ensures met { OnOk result (walked.new.records.all.items ≡ walked.old.records.all.items ++ place ∷ []) }
    ensures sorted { OnOk result (AreSorted (A.image area.old) walked.old → AreSorted (A.image area.old) walked.new) }
    ensures area { Reads A.image A.frame A.faults A.edited area.old area.new result }
{
    let record_type = read_type(area, place)?;
    let here = check_head(place, record_type, size);
    walked.broken = walked.broken.or(here);
    walked.records.all.push(place)?;
    if record_type == UIR_TYPE {
        walked.records.unused.push(place)?;
    }
    Ok(())
}

/// The records of an image, or the place where they do not go on.
fn walk_tiles<A: Area>(alloc: Global, area: &mut A) -> Result<Result<Walked, u64>, AreaError>
    requires { cdr_place ≤ length (A.image area.old) }
    ensures walk { IfOk result (WalksTiles (A.image area.old)) }
    ensures area { Reads A.image A.frame A.faults A.edited area.old area.new result }
{
    let eof = area.size();
    let mut walked = Walked {
        records: Records {
            all: Vec::new(alloc),
            unused: Vec::new(alloc),
        },
        broken: None,
    };
    let mut place = CDR_PLACE;
    for turn in 0..eof {
        if place == eof {
            return Ok(Ok(walked));
        }
        match tile_size(area, place)? {
            Some(size) => {
                put_record(area, &mut walked, place, size)?;
                place += size;
            }
            None => return Ok(Err(place)),
        }
    }
    if place == eof {
        Ok(Ok(walked))
    } else {
        Ok(Err(place))
    }
}

/// The records of an image, or a rule on them that is broken.
#[tactic(auto, using(crate::proofs::TileSteps::stuck_rows))]
pub fn check_tiles<A: Area>(
    alloc: Global,
    area: &mut A,
) -> Result<Result<Records, Finding>, AreaError>
    requires { cdr_place ≤ length (A.image area.old) }
    ensures found { IfOk result (Yields (phase4 (A.image area.old)) (AreRecords (A.image area.old))) }
    ensures area { Reads A.image A.frame A.faults A.edited area.old area.new result }
{
    let walked = match walk_tiles(alloc, area)? {
        Ok(walked) => walked,
        // 4.1
        Err(place) => return Ok(Err(Finding { rule: 1, place })),
    };
    match walked.broken {
        Some(broken) => Ok(Err(broken)),
        None => Ok(Ok(walked.records)),
    }
}
