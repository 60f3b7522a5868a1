//! The nodes of an index, read.

ghost use Rattle.std.specs.Prelude.{◌≡◌, ◌+◌, ◌-◌, ◌/◌, ◌≤◌, ◌<◌, min, length, IfOk};
ghost use Rattle.cdf_area.specs.Calls.{Reads};
ghost use Rattle.cdf_model.specs.Limits.{image_limit};
ghost use Rattle.cdf_format.specs.Fields.{counted};
ghost use Rattle.cdf_format.specs.Records.{linked_size, vxr_entries, vxr_entry_size};
ghost use Rattle.cdf_index.specs.Finding.{NodeInside};
ghost use Rattle.cdf_index.specs.Sight.{IsHead};

use cdf_area::{Area, AreaError};
use cdf_format::fields::{VXR_ENTRY_SIZE, VXR_FIRST};
use cdf_records::{Steps, read_vxr};
use std::marker::Brand;
use std::sync::ledger::{Blank, Ledger};

/// A leaf of an index: the records from a first to a last, and where their block stands.
#[derive(Clone, Copy, Debug, PartialEq, Eq)]
pub struct Leaf {
    pub first: u32,
    pub last: u32,
    pub at: u64,
    pub packed: bool,
}

/// What is read of a node before its entries: how many it has room for, how many are used, and the next node.
#[derive(Clone, Copy)]
pub struct Head {
    pub room: u64,
    pub used: u64,
    pub next: u64,
}

/// None below 0.
fn count_of(number: i32) -> u64
    ensures { result ≡ counted number }
{
    if number < 0 { 0 } else { number as u64 }
}

/// How many entries are used, of those that the record has room for.
fn used_of(used: u64, room: u64, size: u64) -> u64
    requires { linked_size ≤ size }
    ensures { result ≡ min used (min room ((size - (vxr_entries 0).place) / vxr_entry_size)) }
{
    used.min(room.min((size - VXR_FIRST) / VXR_ENTRY_SIZE))
}

/// What a node says before its entries. It takes one step.
pub fn read_node<A: Area, L: Ledger>(
    area: &mut A,
    at: u64,
    steps: &mut Steps<L>,
) -> Result<Head, AreaError>
    requires inside { NodeInside (A.image area.old) at }
    requires short { length (A.image area.old) ≤ image_limit }
    ensures head { IfOk result (IsHead (A.image area.old) at) }
    ensures step { steps.new ≡ steps.old + 1 }
    ensures area { Reads A.image A.frame A.faults A.edited area.old area.new result }
{
    let vxr = read_vxr(area, at, steps)?;
    let room = count_of(vxr.n_entries);
    let used = used_of(count_of(vxr.n_used_entries), room, vxr.record_size);
    Ok(Head {
        room,
        used,
        next: vxr.vxr_next,
    })
}

/// The same with a step of a count of its own.
fn read_counted<A: Area, L: Ledger>(area: &mut A, at: u64, blank: Blank) -> Result<Head, AreaError>
    requires name { blank.name ≡ L.name }
    requires parts { blank.parts ≡ L.parts }
    requires some { 0 < L.parts }
    requires inside { NodeInside (A.image area.old) at }
    requires short { length (A.image area.old) ≤ image_limit }
    ensures head { IfOk result (IsHead (A.image area.old) at) }
    ensures area { Reads A.image A.frame A.faults A.edited area.old area.new result }
{
    let mut steps = Steps::<L>::new(blank);
    read_node(area, at, &mut steps)
}

/// The same where no steps are counted.
pub fn read_head<A: Area>(area: &mut A, at: u64) -> Result<Head, AreaError>
    requires inside { NodeInside (A.image area.old) at }
    requires short { length (A.image area.old) ≤ image_limit }
    ensures head { IfOk result (IsHead (A.image area.old) at) }
    ensures area { Reads A.image A.frame A.faults A.edited area.old area.new result }
{
    read_counted::<A, Brand>(area, at, Blank::new(1))
}
