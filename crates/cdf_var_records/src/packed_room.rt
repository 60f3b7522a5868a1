//! How many bytes the blocks take at most that a put of a packed variable rewrites.

ghost use Rattle.std.specs.Prelude.{◌≡◌, ◌≤◌, ◌+◌, ◌-◌, ◌*◌, suc, length, IfOk};
ghost use Rattle.cdf_area.specs.Calls.{Reads};
ghost use Rattle.cdf_edits.specs.Commands.Room.{packed_room};
ghost use Rattle.cdf_edits.specs.Edits.Standing.{Ascending};
ghost use Rattle.cdf_edits.specs.Index.Blocks.{first_written, ranges_of};
ghost use Rattle.cdf_format.specs.Index.{leaves_of};
ghost use Rattle.cdf_format.specs.Records.{linked_size};
ghost use Rattle.cdf_format.specs.WellFormed.{Good};
ghost use Rattle.cdf_index.specs.Finding.{index_at, HasIndex};
ghost use Rattle.cdf_model.specs.Limits.{image_limit, record_number_limit};
ghost use Rattle.cdf_model.specs.Place.{record_limit};
ghost use Rattle.cdf_puts.specs.Searching.{IsSearch};
ghost use Rattle.cdf_puts.specs.Starts.{InTopChain};
ghost use Rattle.cdf_puts.specs.SharedRoom.{shared_room};
ghost use Rattle.cdf_var_records.specs.PackedRoom.{IsBlockRoom};
ghost use Rattle.cdf_var_records.specs.Records.{IsForm, variable_at};

use crate::extent::read_extent;
use crate::form::Form;
use crate::record::record_size_of;
use crate::variable::says_packed;
use cdf_area::{Area, AreaError};
use cdf_format::fields::LINKED_SIZE;
use cdf_index::Leaf;
use cdf_model::limits::RECORD_NUMBER_LIMIT;
use cdf_puts::Search;

/// What the block of a record takes, and from which record the walk goes on.
#[derive(Clone, Copy)]
pub struct BlockRoom {
    /// The record behind the block, or the next one that may have a block.
    pub next: u32,
    /// The least size of a record of the file and the bytes of the records of the block, or 0 where no block has the record.
    pub bytes: u64,
}

/// The least size of a record of the file, and the bytes of the records of a block.
fn room_of(leaf: Leaf, rec_bytes: u64) -> u64
    requires order { leaf.first ≤ leaf.last }
    requires short { rec_bytes ≤ record_limit }
    ensures { result ≡ linked_size + (leaf.last + 1 - leaf.first) * rec_bytes }
{
    let count = u64::from(leaf.last) + 1 - u64::from(leaf.first);
    LINKED_SIZE + count * rec_bytes
}

/// What the block takes that has the record that is searched for.
fn read_block_room<A: Area>(
    area: &mut A,
    search: &Search,
    rec_bytes: u64,
) -> Result<BlockRoom, AreaError>
    requires search { IsSearch (A.image area.old) search.now }
    requires order { Ascending 0 (suc record_number_limit) (leaves_of (index_at (A.image area.old) search.now.head)) }
    requires short { length (A.image area.old) ≤ image_limit }
    requires within { search.now.rec ≤ record_number_limit }
    requires size { rec_bytes ≤ record_limit }
    ensures room { IfOk result (IsBlockRoom (ranges_of (index_at (A.image area.old) search.now.head)) rec_bytes search.now.rec) }
    ensures area { Reads A.image A.frame A.faults A.edited area.old area.new result }
{
    let found = search.leaf(area)?;
    if let Some(leaf) = found {
        return Ok(BlockRoom {
            next: leaf.last + 1,
            bytes: room_of(leaf, rec_bytes),
        });
    }
    let next = search.next_first(area)?;
    Ok(BlockRoom {
        next: next.unwrap_or(RECORD_NUMBER_LIMIT + 1),
        bytes: 0,
    })
}

/// What the blocks take that have one of the records from a first to a last.
fn read_shared_room<A: Area>(
    area: &mut A,
    head: u64,
    known: Option<u64>,
    rec_bytes: u64,
    first: u32,
    last: u32,
) -> Result<u128, AreaError>
    requires index { HasIndex (A.image area.old) head }
    requires known { InTopChain (index_at (A.image area.old) head) known }
    requires order { Ascending 0 (suc record_number_limit) (leaves_of (index_at (A.image area.old) head)) }
    requires short { length (A.image area.old) ≤ image_limit }
    requires size { rec_bytes ≤ record_limit }
    requires more { first ≤ last }
    requires within { last ≤ record_number_limit }
    ensures room { IfOk result (λ room. room ≡ shared_room rec_bytes first last (ranges_of (index_at (A.image area.old) head))) }
    ensures area { Reads A.image A.frame A.faults A.edited area.old area.new result }
{
    let mut k = first;
    let mut node = known;
    let mut room = 0;
    for turn in 0..last - first + 1 {
        if last < k {
            return Ok(room);
        }
        let search = Search::begin(area, head, node, k)?;
        let block = read_block_room(area, &search, rec_bytes)?;
        room += u128::from(block.bytes);
        k = block.next;
        node = search.node();
    }
    Ok(room)
}

/// What the blocks of a packed variable take that have a record which a put writes, from a first one on, or one that it cuts before; 0 where
/// the variable is not packed. A first one past MaxRec + 1 is written under a rule for missing records alone, and this has what is past
/// MaxRec cut before.
#[tactic(auto, using(cdf_area::proofs::Calls::read_done, cdf_area::proofs::Calls::read_failed, cdf_area::proofs::Calls::read_more, cdf_area::proofs::Calls::read_once))]
pub fn read_packed_room<A: Area>(
    area: &mut A,
    form: &Form,
    head: u64,
    known: Option<u64>,
    from: u32,
    rec: u32,
) -> Result<u128, AreaError>
    requires good { Good (A.image area.old) }
    requires form { IsForm (A.image area.old) form.now }
    requires index { HasIndex (A.image area.old) head }
    requires known { InTopChain (index_at (A.image area.old) head) known }
    requires order { Ascending 0 (suc record_number_limit) (leaves_of (index_at (A.image area.old) head)) }
    requires short { length (A.image area.old) ≤ image_limit }
    requires from { from ≡ first_written (variable_at (A.image area.old) form.now.place.vdr) rec }
    requires within { rec ≤ record_number_limit }
    ensures room { IfOk result (λ room. room ≡ packed_room (variable_at (A.image area.old) form.now.place.vdr) (index_at (A.image area.old) head) rec) }
    ensures area { Reads A.image A.frame A.faults A.edited area.old area.new result }
{
    if !says_packed(form.place.flags) {
        return Ok(0);
    }
    let rec_bytes = record_size_of(&form.shape);
    let extent = read_extent(area, form.place.vdr)?;
    if extent < from {
        return read_shared_room(area, head, known, rec_bytes, extent, RECORD_NUMBER_LIMIT);
    }
    read_shared_room(area, head, known, rec_bytes, from, rec)
}
