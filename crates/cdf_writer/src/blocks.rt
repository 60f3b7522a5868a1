//! The blocks of a variable.

ghost use Rattle.std.specs.Prelude.{◌≡◌, ◌<◌, ◌^◌, ◌≤◌, ◌++◌, length, true, IfOk, OnOk};
ghost use Rattle.cdf_edits.specs.Index.Written.{is_worth_packing};
ghost use Rattle.cdf_model.specs.RunLengths.{IsLongest, Packs};
ghost use Rattle.cdf_writer.specs.Laying.{laid, plain_body};
ghost use Rattle.cdf_writer.specs.Progress.{closed, group_bodies, joins, most_records};
ghost use Rattle.cdf_writer.specs.Stops.{Writes};

use crate::appending::{WriteStop, append_record};
use crate::bodies::{NodeEntry, cvvr_body, vvr_body};
use crate::progress::OpenVariable;
use cdf_area::Area;
use cdf_format::fields::{CVVR_SIZE, VVR_SIZE};
use cdf_rle::encode;
use std::alloc::{AllocError, Global};

/// How many records a block is to hold whose BlockingFactor is not positive.
const USUAL_COUNT: u32 = 64;

/// The most bytes of a block of several records.
const BLOCK_LIMIT: u64 = 1_048_576;

/// The most bytes of a block that is packed.
const RECORD_LIMIT: u64 = 67_108_864;

/// Whether a block is shorter when it is packed, and may be.
fn is_worth_packing(plain: &[u8], packed: &[u8]) -> bool
    ensures { result ≡ is_worth_packing plain.now packed.now }
{
    plain.len() as u64 <= RECORD_LIMIT
        && CVVR_SIZE + (packed.len() as u64) < VVR_SIZE + plain.len() as u64
}

/// What follows the size of a block of a compressed variable: its bytes packed in the longest runs, where that is worth it.
fn shorter_body(alloc: Global, plain: &[u8], packed: &[u8]) -> Result<Vec<u8>, AllocError>
    requires packs { Packs packed.now plain.now }
    requires longest { IsLongest packed.now }
    ensures { IfOk result (λ body. body.items ≡ plain_body true plain.now) }
{
    if is_worth_packing(plain, packed) {
        cvvr_body(alloc, packed)
    } else {
        vvr_body(alloc, plain)
    }
}

/// What follows the size of a block with these bytes, which is packed in a compressed variable where it is worth it.
fn block_body(alloc: Global, rle: bool, plain: &[u8]) -> Result<Vec<u8>, AllocError>
    ensures { IfOk result (λ body. body.items ≡ plain_body rle plain.now) }
{
    if !rle {
        return vvr_body(alloc, plain);
    }
    let packed = encode(alloc, plain)?;
    shorter_body(alloc, plain, &packed)
}

/// How many records a block holds, where one has so many bytes.
fn most_records(vary: bool, blocking: i32, long: u64) -> u64
    requires { 0 < long }
    ensures { result ≡ most_records vary blocking long }
{
    if !vary {
        return 1;
    }
    let wanted = if blocking > 0 {
        blocking as u64
    } else {
        u64::from(USUAL_COUNT)
    };
    u64::max(1, u64::min(wanted, BLOCK_LIMIT / long))
}

/// Whether a record of so many bytes goes into the group that is open.
pub(crate) fn joins(v: &OpenVariable, num: u32, long: u64) -> bool
    requires { 0 < long }
    ensures { result ≡ joins v.now num long }
{
    v.group.count > 0
        && u64::from(num) == u64::from(v.group.last) + 1
        && u64::from(v.group.count) < most_records(v.vary, v.own.blocking, long)
}

/// Appends the block of the group that is open, if one is, and closes the group.
pub(crate) fn close_group<A: Area>(
    alloc: Global,
    area: &mut A,
    v: &mut OpenVariable,
) -> Result<(), WriteStop>
    requires limit { (A.frame area.old).limit ≤ 2 ^ 62 }
    requires within { length (A.image area.old) ≤ (A.frame area.old).limit }
    ensures appended { OnOk result (A.image area.new ≡ A.image area.old ++ laid (group_bodies v.old)) }
    ensures closed { OnOk result (v.new ≡ closed v.old (length (A.image area.old))) }
    ensures area { Writes A.image A.frame A.faults (length (A.image area.old)) area.old area.new (group_bodies v.old) result }
{
    if v.group.count > 0 {
        let place = area.size();
        let body = block_body(alloc, v.rle, v.group.plain.as_slice())?;
        append_record(area, &body)?;
        v.leaves.push(NodeEntry {
            first: v.group.first,
            last: v.group.last,
            place,
        })?;
    }
    v.group.clear();
    Ok(())
}
