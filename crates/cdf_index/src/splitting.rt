//! A full node, from which entries go to a new node behind it.

ghost use Rattle.std.specs.Prelude.{◌≡◌, ◌+◌, ◌-◌, ◌≤◌, ◌<◌, length, IfOk, OnOk};
ghost use Rattle.cdf_area.specs.Calls.{Edits, Reads};
ghost use Rattle.cdf_format.specs.Index.{room_at, used_count};
ghost use Rattle.cdf_model.specs.Limits.{image_limit};
ghost use Rattle.cdf_index.specs.Finding.{NodeInside};
ghost use Rattle.cdf_index.specs.Writing.{Cleared, EntriesRead, Shortened};

use crate::entries::{Entry, read_entry, set_entry, write_entries};
use cdf_area::{Area, AreaError};
use cdf_records::{set_vxr_n_used_entries, set_vxr_vxr_next};
use std::alloc::Global;

/// The entries of a node from one number to another.
pub fn read_entries<A: Area>(
    alloc: Global,
    area: &mut A,
    at: u64,
    room: u64,
    from: u64,
    upto: u64,
) -> Result<Vec<Entry>, AreaError>
    requires inside { NodeInside (A.image area.old) at }
    requires room { room ≡ room_at (A.image area.old) at }
    requires order { from ≤ upto }
    requires below { upto ≤ room }
    requires short { length (A.image area.old) ≤ image_limit }
    ensures value { IfOk result (λ entries. EntriesRead (A.image area.old) at from upto entries.items) }
    ensures area { Reads A.image A.frame A.faults A.edited area.old area.new result }
{
    let mut entries = Vec::new(alloc);
    for i in from..upto {
        let entry = read_entry(area, at, room, i)?;
        entries.push(entry)?;
    }
    Ok(entries)
}

/// Makes the entries of a node from one number to another -1 throughout.
fn clear_entries<A: Area>(
    area: &mut A,
    at: u64,
    room: u64,
    from: u64,
    upto: u64,
) -> Result<(), AreaError>
    requires inside { NodeInside (A.image area.old) at }
    requires room { room ≡ room_at (A.image area.old) at }
    requires order { from ≤ upto }
    requires below { upto ≤ room }
    requires short { length (A.image area.old) ≤ image_limit }
    ensures cleared { OnOk result (Cleared (A.image area.old) (A.image area.new) at from upto) }
    ensures area { Edits A.frame A.faults area.old area.new result }
{
    write_entries(area, at, room, from, upto, &[])
}

/// Leaves the first `p` of the used entries of a node, with one more behind them, and a link to another node.
pub fn shorten_node<A: Area>(
    area: &mut A,
    at: u64,
    room: u64,
    used: u64,
    p: u64,
    entry: Entry,
    next: u64,
) -> Result<(), AreaError>
    requires inside { NodeInside (A.image area.old) at }
    requires room { room ≡ room_at (A.image area.old) at }
    requires used { used ≡ used_count (A.image area.old) at }
    requires place { p < used }
    requires short { length (A.image area.old) ≤ image_limit }
    ensures shortened { OnOk result (Shortened (A.image area.old) (A.image area.new) at used p entry.first entry.last entry.place next) }
    ensures area { Edits A.frame A.faults area.old area.new result }
{
    clear_entries(area, at, room, p + 1, used)?;
    set_entry(area, at, room, p, entry)?;
    set_vxr_n_used_entries(area, at, (p + 1) as i32)?;
    set_vxr_vxr_next(area, at, next)
}
