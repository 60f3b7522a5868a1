//! The entries of a node, read and written as numbers without a sign.

ghost use Rattle.std.specs.Prelude.{◌≡◌, ◌+◌, ◌≤◌, ◌<◌, length, IfOk, OnOk};
ghost use Rattle.cdf_area.specs.Calls.{Edits, Reads};
ghost use Rattle.cdf_format.specs.Index.{room_at, used_count};
ghost use Rattle.cdf_format.specs.IndexOf.{SaysEntry};
ghost use Rattle.cdf_model.specs.Limits.{image_limit};
ghost use Rattle.cdf_index.specs.Finding.{NodeInside};
ghost use Rattle.cdf_index.specs.Writing.{EntriesWritten, EntrySet, Inserted, Widened, entry_in};

use cdf_area::{Area, AreaError};
use cdf_format::fields::VXR_FIRST;
use cdf_records::{
    read_unsigned4, read_unsigned8, set_unsigned4, set_unsigned8, set_vxr_n_used_entries,
};

/// What an entry of a node says: the records from a first to a last, and the place of a block or of a lower node.
#[derive(Clone, Copy)]
pub struct Entry {
    pub first: u32,
    pub last: u32,
    pub place: u64,
}

/// An entry that is not used is -1 throughout.
pub const UNUSED: Entry = Entry {
    first: u32::MAX,
    last: u32::MAX,
    place: u64::MAX,
};

/// The entry with number `i` of a node that has room for so many.
pub fn read_entry<A: Area>(area: &mut A, at: u64, room: u64, i: u64) -> Result<Entry, AreaError>
    requires inside { NodeInside (A.image area.old) at }
    requires room { room ≡ room_at (A.image area.old) at }
    requires below { i < room }
    requires short { length (A.image area.old) ≤ image_limit }
    ensures value { IfOk result (λ e. SaysEntry (A.image area.old) at i e.first e.last e.place) }
    ensures area { Reads A.image A.frame A.faults A.edited area.old area.new result }
{
    let first = read_unsigned4(area, at + (VXR_FIRST + 4 * i))?;
    let last = read_unsigned4(area, at + (VXR_FIRST + 4 * room + 4 * i))?;
    let place = read_unsigned8(area, at + (VXR_FIRST + 8 * room + 8 * i))?;
    Ok(Entry { first, last, place })
}

/// Writes the entry with number `i` of a node that has room for so many.
#[tactic(auto, using(crate::proofs::FieldSet::entry_written))]
pub fn set_entry<A: Area>(
    area: &mut A,
    at: u64,
    room: u64,
    i: u64,
    to: Entry,
) -> Result<(), AreaError>
    requires inside { NodeInside (A.image area.old) at }
    requires room { room ≡ room_at (A.image area.old) at }
    requires below { i < room }
    requires short { length (A.image area.old) ≤ image_limit }
    ensures set { OnOk result (EntrySet (A.image area.old) (A.image area.new) at i to.first to.last to.place) }
    ensures area { Edits A.frame A.faults area.old area.new result }
{
    set_unsigned4(area, at, VXR_FIRST + 4 * i, to.first)?;
    set_unsigned4(area, at, VXR_FIRST + 4 * room + 4 * i, to.last)?;
    set_unsigned8(area, at, VXR_FIRST + 8 * room + 8 * i, to.place)
}

/// The entry with number `i` of a node that has these, -1 throughout behind them.
fn entry_of(entries: &[Entry], i: u64) -> Entry
    ensures { result ≡ entry_in entries.now i }
{
    match entries.get(i as usize) {
        Some(entry) => *entry,
        None => UNUSED,
    }
}

/// Writes the entries of a node from one number to another: these, and -1 throughout behind them.
pub fn write_entries<A: Area>(
    area: &mut A,
    at: u64,
    room: u64,
    from: u64,
    upto: u64,
    entries: &[Entry],
) -> Result<(), AreaError>
    requires inside { NodeInside (A.image area.old) at }
    requires room { room ≡ room_at (A.image area.old) at }
    requires order { from ≤ upto }
    requires below { upto ≤ room }
    requires short { length (A.image area.old) ≤ image_limit }
    ensures written { OnOk result (EntriesWritten (A.image area.old) (A.image area.new) at from upto entries.now) }
    ensures area { Edits A.frame A.faults area.old area.new result }
{
    for i in from..upto {
        set_entry(area, at, room, i, entry_of(entries, i))?;
    }
    Ok(())
}

/// Puts an entry more before the entry with number `p` of a node that has room for it.
pub fn insert_entry<A: Area>(
    area: &mut A,
    at: u64,
    room: u64,
    used: u64,
    p: u64,
    entry: Entry,
) -> Result<(), AreaError>
    requires inside { NodeInside (A.image area.old) at }
    requires room { room ≡ room_at (A.image area.old) at }
    requires used { used ≡ used_count (A.image area.old) at }
    requires place { p ≤ used }
    requires fits { used < room }
    requires short { length (A.image area.old) ≤ image_limit }
    ensures inserted { OnOk result (Inserted (A.image area.old) (A.image area.new) at used p entry.first entry.last entry.place) }
    ensures area { Edits A.frame A.faults area.old area.new result }
{
    for moved in 0..used - p {
        let i = used - moved;
        let before = read_entry(area, at, room, i - 1)?;
        set_entry(area, at, room, i, before)?;
    }
    set_entry(area, at, room, p, entry)?;
    set_vxr_n_used_entries(area, at, (used + 1) as i32)
}

/// Lets the entry with number `i` of a node end at a record, if it ends before it.
#[tactic(auto, using(crate::proofs::Inserting::widened_by))]
pub fn widen_entry<A: Area>(
    area: &mut A,
    at: u64,
    room: u64,
    i: u64,
    last: u32,
) -> Result<(), AreaError>
    requires inside { NodeInside (A.image area.old) at }
    requires room { room ≡ room_at (A.image area.old) at }
    requires below { i < room }
    requires short { length (A.image area.old) ≤ image_limit }
    ensures widened { OnOk result (Widened (A.image area.old) (A.image area.new) at i last) }
    ensures area { Edits A.frame A.faults area.old area.new result }
{
    let entry = read_entry(area, at, room, i)?;
    let wider = Entry {
        first: entry.first,
        last: entry.last.max(last),
        place: entry.place,
    };
    set_entry(area, at, room, i, wider)
}
