//! The leaf that has a record, and the entry that names its block.

ghost use Rattle.std.specs.Prelude.{◌≡◌, ◌≢◌, ◌≤◌, ◌<◌, length, IfOk};
ghost use Rattle.cdf_area.specs.Calls.{Reads};
ghost use Rattle.cdf_index.specs.Finding.{HasIndex, index_at};
ghost use Rattle.cdf_model.specs.Limits.{image_limit};
ghost use Rattle.cdf_puts.specs.Searching.{IsSearch};
ghost use Rattle.cdf_blocks.specs.Sites.{IsEnd, IsFound};

use crate::placing::Site;
use cdf_area::{Area, AreaError};
use cdf_format::fields::{CVVR_TYPE, RECORD_TYPE};
use cdf_index::{Leaf, Spot, read_entry, way_down};
use cdf_puts::Search;
use cdf_records::{Steps, read_unsigned4};
use std::alloc::Global;
use std::marker::Brand;
use std::sync::ledger::{Blank, Ledger};

/// A leaf, and which entry names its block.
#[derive(Clone, Copy)]
pub struct SitedLeaf {
    /// The leaf.
    pub leaf: Leaf,
    /// The entry.
    pub site: Site,
}

/// The node where the way down to a record ends, as `way_down` counts it in steps.
fn end_counted<A: Area, L: Ledger>(
    alloc: Global,
    area: &mut A,
    start: u64,
    rec: u32,
    blank: Blank,
) -> Result<Spot, AreaError>
    requires name { blank.name ≡ L.name }
    requires parts { blank.parts ≡ L.parts }
    requires some { 0 < L.parts }
    requires index { HasIndex (A.image area.old) start }
    requires there { start ≢ 0 }
    requires short { length (A.image area.old) ≤ image_limit }
    ensures end { IfOk result (IsEnd (A.image area.old) start rec) }
    ensures area { Reads A.image A.frame A.faults A.edited area.old area.new result }
{
    let mut steps = Steps::<L>::new(blank);
    let way = way_down(alloc, area, start, rec, &mut steps)?;
    Ok(way.end)
}

/// The leaf that the last of the entries names that begin at a record or before it, where it has the record.
fn last_begun<A: Area>(
    area: &mut A,
    start: u64,
    rec: u32,
    end: &Spot,
) -> Result<Option<SitedLeaf>, AreaError>
    requires index { HasIndex (A.image area.old) start }
    requires there { start ≢ 0 }
    requires end { IsEnd (A.image area.old) start rec end.now }
    requires short { length (A.image area.old) ≤ image_limit }
    ensures found { IfOk result (IsFound (A.image area.old) (index_at (A.image area.old) start) rec) }
    ensures area { Reads A.image A.frame A.faults A.edited area.old area.new result }
{
    if end.begun == 0 {
        return Ok(None);
    }
    let number = end.begun - 1;
    let entry = read_entry(area, end.place, end.room, number)?;
    if entry.last < rec {
        return Ok(None);
    }
    let kind = read_unsigned4(area, entry.place + RECORD_TYPE)?;
    let leaf = Leaf {
        first: entry.first,
        last: entry.last,
        at: entry.place,
        packed: kind == CVVR_TYPE,
    };
    let site = Site {
        node: end.place,
        room: end.room,
        number,
    };
    Ok(Some(SitedLeaf { leaf, site }))
}

/// The leaf that has the record that is searched for, and the entry that names its block; none where no leaf has it.
pub fn find_site<A: Area>(
    alloc: Global,
    area: &mut A,
    search: &Search,
) -> Result<Option<SitedLeaf>, AreaError>
    requires search { IsSearch (A.image area.old) search.now }
    requires short { length (A.image area.old) ≤ image_limit }
    ensures found { IfOk result (IsFound (A.image area.old) (index_at (A.image area.old) search.now.head) search.now.rec) }
    ensures area { Reads A.image A.frame A.faults A.edited area.old area.new result }
{
    if search.start == 0 {
        return Ok(None);
    }
    let end = end_counted::<A, Brand>(alloc, area, search.start, search.rec, Blank::new(1))?;
    last_begun(area, search.start, search.rec, &end)
}
