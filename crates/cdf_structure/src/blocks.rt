//! The rules on the blocks of an index.

ghost use Rattle.std.specs.Prelude.{◌≡◌, ◌+◌, ◌≤◌, ◌<◌, ◌*◌, ◌^◌, ℕ, length, IfOk};
ghost use Rattle.std.specs.List.{flat_map};
ghost use Rattle.cdf_area.specs.Calls.{Reads};
ghost use Rattle.cdf_model.specs.Place.{record_limit};
ghost use Rattle.cdf_format.specs.Fields.{size_at};
ghost use Rattle.cdf_format.specs.IndexRules.{holds_packed};
ghost use Rattle.cdf_format.specs.Records.{cdr_place, past, record_size};
ghost use Rattle.cdf_format.specs.Tiles.{AreTiles};
ghost use Rattle.cdf_structure.specs.Indexes.{block_rows, packed_rows, plain_rows, records_of_block};
ghost use Rattle.cdf_structure.specs.Findings.{Finds, Yields};
ghost use Rattle.cdf_structure.specs.Known.{KnowsIndexes};
ghost use Rattle.cdf_structure.specs.Rooms.{HasRoom, HaveRoom, IsPlainRoom};

use crate::fields::read_size;
use crate::finding::Finding;
use crate::index_walk::Block;
use crate::known::KnownIndexes;
use crate::links::is_a;
use crate::nodes::with_sign;
use crate::room::Room;
use cdf_area::{Area, AreaError};
use cdf_format::fields::{CVVR_C_SIZE, CVVR_PACKED, CVVR_TYPE, VVR_RECORDS, VVR_TYPE};
use cdf_model::limits::RECORD_LIMIT;
use cdf_packed::read_packed;
use cdf_records::read_unsigned8;
use std::alloc::Global;

/// How many records a block has.
fn count_records(block: &Block) -> u64
    ensures { result ≡ records_of_block block.now }
{
    let count = with_sign(block.last) - (with_sign(block.first) - 1);
    if count < 0 { 0 } else { count as u64 }
}

/// How many bytes each of so many records may take, where all of them have so many bytes.
fn share_of(bytes: u64, count: u64) -> u64
    ensures fits { (share : ℕ) → share ≤ result → count * share ≤ bytes }
    ensures most { (share : ℕ) → share < 2 ^ 64 → count * share ≤ bytes → share ≤ result }
{
    if count == 0 { u64::MAX } else { bytes / count }
}

/// How many bytes a record of a block that is not packed may take, or the rule on its room, if it is broken.
fn check_plain<A: Area>(
    area: &mut A,
    rec_bytes: u64,
    block: &Block,
) -> Result<Result<u64, Finding>, AreaError>
    requires head { block.now.place + past record_size ≤ length (A.image area.old) }
    requires small { rec_bytes ≤ record_limit }
    ensures found { IfOk result (Yields (plain_rows (A.image area.old) rec_bytes block.now) (IsPlainRoom (A.image area.old) block.now rec_bytes)) }
    ensures area { Reads A.image A.frame A.faults A.edited area.old area.new result }
{
    let place = block.place;
    let size = read_size(area, place)?;
    let count = count_records(block);
    if VVR_RECORDS + count * rec_bytes > size {
        // 8.5
        return Ok(Err(Finding { rule: 5, place }));
    }
    Ok(Ok(share_of(size - VVR_RECORDS, count)))
}

/// Whether the packed block at a place has a cSize that is not negative, and room for so many packed bytes.
fn holds_packed<A: Area>(area: &mut A, place: u64) -> Result<bool, AreaError>
    requires head { place + past record_size ≤ length (A.image area.old) }
    requires fits { place + size_at (A.image area.old) place ≤ length (A.image area.old) }
    ensures value { IfOk result (λ holds. holds ≡ holds_packed (A.image area.old) place) }
    ensures area { Reads A.image A.frame A.faults A.edited area.old area.new result }
{
    let _size = area.size();
    let size = read_size(area, place)?;
    if size < CVVR_PACKED {
        return Ok(false);
    }
    let c_size = read_unsigned8(area, place + CVVR_C_SIZE)?;
    Ok(c_size <= i64::MAX as u64 && c_size <= size - CVVR_PACKED)
}

/// The rules on the packed block at a place that stands for so many bytes, of a variable that is compressed or not. A block that
/// is known to stand for them is not unpacked again.
fn check_packed<A: Area>(
    alloc: Global,
    area: &mut A,
    _tiles: &[u64],
    known: &mut KnownIndexes,
    is_compressed: bool,
    size: u64,
    place: u64,
) -> Result<Option<Finding>, AreaError>
    requires head { place + past record_size ≤ length (A.image area.old) }
    requires fits { place + size_at (A.image area.old) place ≤ length (A.image area.old) }
    requires known { KnowsIndexes (A.image area.old) _tiles.now known.old }
    ensures found { IfOk result (Finds (packed_rows (A.image area.old) is_compressed size place)) }
    ensures known { KnowsIndexes (A.image area.old) _tiles.now known.new }
    ensures area { Reads A.image A.frame A.faults A.edited area.old area.new result }
{
    if !is_compressed || !holds_packed(area, place)? {
        // 8.6
        return Ok(Some(Finding { rule: 6, place }));
    }
    if size > RECORD_LIMIT {
        // 8.7
        return Ok(Some(Finding { rule: 7, place }));
    }
    if known.has_size(place, size) {
        return Ok(None);
    }
    if read_packed(alloc, area, place, size)?.is_none() {
        // 8.8
        return Ok(Some(Finding { rule: 8, place }));
    }
    known.add_size(place, size);
    Ok(None)
}

/// How many bytes a record of a block may take, of a variable that is compressed or not; or a rule on the block that is broken.
fn check_block<A: Area>(
    alloc: Global,
    area: &mut A,
    tiles: &[u64],
    known: &mut KnownIndexes,
    is_compressed: bool,
    rec_bytes: u64,
    block: &Block,
) -> Result<Result<Room, Finding>, AreaError>
    requires tiled { AreTiles (A.image area.old) cdr_place (length (A.image area.old)) tiles.now }
    requires small { rec_bytes ≤ record_limit }
    requires known { KnowsIndexes (A.image area.old) tiles.now known.old }
    ensures found { IfOk result (Yields (block_rows (A.image area.old) tiles.now is_compressed rec_bytes block.now) (HasRoom (A.image area.old) tiles.now block.now is_compressed rec_bytes)) }
    ensures known { KnowsIndexes (A.image area.old) tiles.now known.new }
    ensures area { Reads A.image A.frame A.faults A.edited area.old area.new result }
{
    let place = block.place;
    if is_a(area, tiles, VVR_TYPE, place)? {
        return match check_plain(area, rec_bytes, block)? {
            Ok(most) => Ok(Ok(Room::AtMost(most))),
            Err(broken) => Ok(Err(broken)),
        };
    }
    if !is_a(area, tiles, CVVR_TYPE, place)? {
        return Ok(Ok(Room::AtMost(u64::MAX)));
    }
    let size = count_records(block) * rec_bytes;
    match check_packed(alloc, area, tiles, known, is_compressed, size, place)? {
        Some(broken) => Ok(Err(broken)),
        None => Ok(Ok(Room::Just(rec_bytes))),
    }
}

/// The same of each of these blocks.
pub fn check_blocks<A: Area>(
    alloc: Global,
    area: &mut A,
    tiles: &[u64],
    known: &mut KnownIndexes,
    is_compressed: bool,
    rec_bytes: u64,
    blocks: &[Block],
) -> Result<Result<Room, Finding>, AreaError>
    requires tiled { AreTiles (A.image area.old) cdr_place (length (A.image area.old)) tiles.now }
    requires small { rec_bytes ≤ record_limit }
    requires known { KnowsIndexes (A.image area.old) tiles.now known.old }
    ensures found { IfOk result (Yields (flat_map (block_rows (A.image area.old) tiles.now is_compressed rec_bytes) blocks.now) (HaveRoom (A.image area.old) tiles.now blocks.now is_compressed rec_bytes)) }
    ensures known { KnowsIndexes (A.image area.old) tiles.now known.new }
    ensures area { Reads A.image A.frame A.faults A.edited area.old area.new result }
{
    let mut room = Room::AtMost(u64::MAX);
    for block in blocks {
        match check_block(alloc, area, tiles, known, is_compressed, rec_bytes, block)? {
            Ok(share) => {
                room = room.narrowed(share);
            }
            Err(broken) => return Ok(Err(broken)),
        }
    }
    Ok(Ok(room))
}
