//! How many of the entries of a node come before a record. They are in order, so the last one is looked at first, and then one in the middle of those that are left.

ghost use Rattle.std.specs.Prelude.{◌≡◌, ◌+◌, ◌*◌, ◌≤◌, ◌<◌, length, IfOk};
ghost use Rattle.cdf_area.specs.Calls.{Reads};
ghost use Rattle.cdf_model.specs.Limits.{image_limit};
ghost use Rattle.cdf_format.specs.Index.{offset_at, used_count};
ghost use Rattle.cdf_format.specs.Fields.{type_at};
ghost use Rattle.cdf_index.specs.Ahead.{Begun};
ghost use Rattle.cdf_index.specs.Finding.{Ascends, IsCut, Scanned, SomeNode};
ghost use Rattle.cdf_index.specs.Sight.{IsHead};

use crate::nodes::Head;
use cdf_area::{Area, AreaError};
use cdf_format::fields::{RECORD_TYPE, VXR_FIRST};
use cdf_records::{read_unsigned4, read_unsigned8};

/// How many of the first numbers of a column of a node are below a bound.
fn count_below<A: Area>(
    area: &mut A,
    at: u64,
    field: u64,
    used: u64,
    bound: u64,
) -> Result<u64, AreaError>
    requires inside { at + (field + 4 * used) ≤ length (A.image area.old) }
    requires ascends { Ascends (A.image area.old) at field used }
    requires short { length (A.image area.old) ≤ image_limit }
    ensures cut { IfOk result (IsCut (A.image area.old) at field used bound) }
    ensures area { Reads A.image A.frame A.faults A.edited area.old area.new result }
{
    let mut low = 0;
    let mut high = used;
    let mut middle = used.saturating_sub(1);
    while low < high {
        let number = read_unsigned4(area, at + (field + 4 * middle))?;
        if u64::from(number) < bound {
            low = middle + 1;
        } else {
            high = middle;
        }
        middle = low + (high - low) / 2;
    }
    Ok(low)
}

/// The number of the first entry of a node that ends at a record or later.
#[tactic(auto, using(crate::proofs::Looking::node_inside, crate::proofs::Looking::node_lasts))]
pub fn entries_before<A: Area>(
    area: &mut A,
    at: u64,
    head: &Head,
    rec: u32,
) -> Result<u64, AreaError>
    requires head { IsHead (A.image area.old) at head.now }
    requires node { SomeNode (A.image area.old) at }
    requires short { length (A.image area.old) ≤ image_limit }
    ensures scanned { IfOk result (Scanned (A.image area.old) rec at) }
    ensures area { Reads A.image A.frame A.faults A.edited area.old area.new result }
{
    let i = count_below(
        area,
        at,
        VXR_FIRST + 4 * head.room,
        head.used,
        u64::from(rec),
    )?;
    Ok(i)
}

/// How many of the first entries of a node begin at a record or before it.
#[tactic(auto, using(crate::proofs::Looking::node_inside, crate::proofs::Looking::node_firsts))]
pub fn entries_begun<A: Area>(
    area: &mut A,
    at: u64,
    head: &Head,
    rec: u32,
) -> Result<u64, AreaError>
    requires head { IsHead (A.image area.old) at head.now }
    requires node { SomeNode (A.image area.old) at }
    requires short { length (A.image area.old) ≤ image_limit }
    ensures begun { IfOk result (Begun (A.image area.old) at rec) }
    ensures area { Reads A.image A.frame A.faults A.edited area.old area.new result }
{
    let i = count_below(area, at, VXR_FIRST, head.used, u64::from(rec) + 1)?;
    Ok(i)
}

/// What an entry of a node names: where it stands, and its type.
#[derive(Clone, Copy)]
pub struct Named {
    pub place: u64,
    pub kind: u32,
}

/// What the used entry with number `i` of a node names.
#[tactic(auto, using(crate::proofs::Looking::node_inside, crate::proofs::Looking::names_in))]
pub fn read_named<A: Area>(area: &mut A, at: u64, head: &Head, i: u64) -> Result<Named, AreaError>
    requires head { IsHead (A.image area.old) at head.now }
    requires node { SomeNode (A.image area.old) at }
    requires used { i < used_count (A.image area.old) at }
    requires short { length (A.image area.old) ≤ image_limit }
    ensures place { IfOk result (λ named. named.place ≡ offset_at (A.image area.old) at i) }
    ensures kind { IfOk result (λ named. named.kind ≡ type_at (A.image area.old) named.place) }
    ensures area { Reads A.image A.frame A.faults A.edited area.old area.new result }
{
    let place = read_unsigned8(area, at + (VXR_FIRST + 8 * head.room + 8 * i))?;
    let kind = read_unsigned4(area, place + RECORD_TYPE)?;
    Ok(Named { place, kind })
}
