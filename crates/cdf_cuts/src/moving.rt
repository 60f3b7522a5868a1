//! Bytes moved to the front within a record.

ghost use Rattle.std.specs.Prelude.{◌≡◌, ◌+◌, ◌≤◌, ◌<◌, length, OnOk};
ghost use Rattle.cdf_area.specs.Calls.{Edits};
ghost use Rattle.cdf_cuts.specs.Moving.{Moved};

use cdf_area::{Area, AreaError};
use cdf_records::read_bytes;
use std::alloc::Global;

/// How many bytes are moved at once.
const PIECE: u64 = 65536;

/// Moves a piece at most.
#[tactic(auto, using(cdf_area::proofs::Calls::edits_by_read, cdf_area::proofs::Calls::edits_by_write, cdf_area::proofs::Calls::read_once, cdf_area::proofs::Calls::keeps_by_read, cdf_area::proofs::Calls::edit_more, cdf_area::proofs::Calls::edit_once, cdf_area::proofs::Calls::edit_done, cdf_area::proofs::Calls::edit_failed))]
fn move_piece<A: Area>(
    alloc: Global,
    area: &mut A,
    from: u64,
    to: u64,
    count: u64,
) -> Result<(), AreaError>
    requires order { to ≤ from }
    requires room { from + count ≤ length (A.image area.old) }
    ensures moved { OnOk result (Moved (A.image area.old) (A.image area.new) from to count) }
    ensures area { Edits A.frame A.faults area.old area.new result }
{
    let piece = read_bytes(alloc, area, from, count)?;
    area.set(to, &piece)?;
    Ok(())
}

/// Moves so many bytes to a place before them, a piece after the other from the front.
pub fn move_down<A: Area>(
    alloc: Global,
    area: &mut A,
    from: u64,
    to: u64,
    n: u64,
) -> Result<(), AreaError>
    requires order { to ≤ from }
    requires room { from + n ≤ length (A.image area.old) }
    ensures moved { OnOk result (Moved (A.image area.old) (A.image area.new) from to n) }
    ensures area { Edits A.frame A.faults area.old area.new result }
{
    let _size = area.size();
    let mut done = 0u64;
    while done < n {
        let count = (n - done).min(PIECE);
        move_piece(alloc, area, from + done, to + done, count)?;
        done += count;
    }
    Ok(())
}
