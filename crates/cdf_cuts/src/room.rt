//! How many bytes a command may take by which records go and later ones close up.

ghost use Rattle.std.specs.Prelude.{◌≡◌, ◌+◌, ◌-◌, ◌*◌, ◌≤◌, List, length, IfOk};
ghost use Rattle.std.specs.Option.{option_map};
ghost use Rattle.cdf_area.specs.Calls.{Reads};
ghost use Rattle.cdf_cuts.specs.ClosingRoom.{IsSmall, back_room, front_room, part_room};
ghost use Rattle.cdf_edits.specs.Edits.Standing.{StandsAmong};
ghost use Rattle.cdf_edits.specs.Commands.Room.{cut_room};
ghost use Rattle.cdf_format.specs.Content.{variable_of};
ghost use Rattle.cdf_format.specs.Shape.{VariableShape, shape, variables, vdrs};
ghost use Rattle.cdf_format.specs.Tiles.{In};
ghost use Rattle.cdf_format.specs.VariableFields.{record_bytes};
ghost use Rattle.cdf_format.specs.WellFormed.{Good};
ghost use Rattle.cdf_index.specs.Sight.{seen};
ghost use Rattle.cdf_model.specs.Limits.{image_limit, record_number_limit};
ghost use Rattle.cdf_model.specs.declared.kinds.Kind.{Kind};
ghost use Rattle.cdf_model.specs.declared.kinds.Sparse.TheVariants.{NoRule};

use cdf_area::{Area, AreaError};
use cdf_format::fields::{LINKED_SIZE, VDR_VXR_HEAD, VXR_ENTRY_SIZE, VXR_FIRST};
use cdf_index::{Leaf, index_size};
use cdf_puts::find_leaf;
use cdf_records::read_unsigned8;

/// For a block of which some records go, but not all: three records of the least size, and its bytes twice.
fn room_of(leaf: Leaf, rec_bytes: u64) -> u64
    requires order { leaf.first ≤ leaf.last }
    requires within { leaf.last ≤ record_number_limit }
    requires small { (leaf.last + 1 - leaf.first) * rec_bytes ≤ image_limit }
    ensures { result ≡ part_room rec_bytes (seen leaf) }
{
    let count = u64::from(leaf.last + 1 - leaf.first);
    3 * LINKED_SIZE + 2 * (count * rec_bytes)
}

/// For the block that has the first record that goes.
fn room_in_front(found: Option<Leaf>, rec_bytes: u64, first: u32, last: u32) -> u64
    requires { IsSmall rec_bytes found }
    ensures value { result ≡ front_room first last rec_bytes (option_map seen found) }
    ensures few { result ≤ 2 * image_limit + 84 }
{
    match found {
        Some(leaf) => {
            if leaf.first < first || last < leaf.last {
                room_of(leaf, rec_bytes)
            } else {
                0
            }
        }
        None => 0,
    }
}

/// For the block that has the last record that goes, where it is another one.
fn room_behind(found: Option<Leaf>, rec_bytes: u64, first: u32, last: u32) -> u64
    requires { IsSmall rec_bytes found }
    ensures value { result ≡ back_room first last rec_bytes (option_map seen found) }
    ensures few { result ≤ 2 * image_limit + 84 }
{
    match found {
        Some(leaf) => {
            if first < leaf.first && last < leaf.last {
                room_of(leaf, rec_bytes)
            } else {
                0
            }
        }
        None => 0,
    }
}

/// How many bytes are taken at most where the records from a first to a last go from the variable whose descriptor stands at a place, and later
/// ones close up.
#[tactic(auto, using(cdf_area::proofs::Calls::read_done, cdf_area::proofs::Calls::read_failed, cdf_area::proofs::Calls::read_more, cdf_area::proofs::Calls::read_once))]
pub fn read_closing_room<A: Area>(
    area: &mut A,
    vdr: u64,
    rec_bytes: u64,
    first: u32,
    last: u32,
) -> Result<u64, AreaError>
    requires good { Good (A.image area.old) }
    requires vdr { In vdr (vdrs (variables (shape (A.image area.old)))) }
    requires size { rec_bytes ≡ record_bytes (A.image area.old) vdr }
    requires order { first ≤ last }
    requires short { length (A.image area.old) ≤ image_limit }
    ensures room { IfOk result (λ n. (kind : Kind) (before : List VariableShape) (own : VariableShape) (after : List VariableShape) → StandsAmong (A.image area.old) kind before own after → own.vdr ≡ vdr → (variable_of (A.image area.old) own).sparse ≡ NoRule → n ≡ cut_room (variable_of (A.image area.old) own) own.index first last) }
    ensures area { Reads A.image A.frame A.faults A.edited area.old area.new result }
{
    // An image has fewer than 2^64 bytes, so no place in it overflows.
    let _size = area.size();
    let head = read_unsigned8(area, vdr + VDR_VXR_HEAD)?;
    let size = index_size(area, head)?;
    let front = find_leaf(area, head, None, first)?;
    let back = find_leaf(area, head, None, last)?;
    let node = VXR_FIRST + VXR_ENTRY_SIZE * u64::from(size.widest);
    let parts = room_in_front(front, rec_bytes, first, last)
        + room_behind(back, rec_bytes, first, last);
    Ok(node + parts)
}
