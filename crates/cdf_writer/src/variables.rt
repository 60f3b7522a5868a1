//! Variables and their records.

ghost use Rattle.std.specs.Prelude.{◌≡◌, ◌+◌, ◌<◌, ◌^◌, ◌≤◌, ◌%◌, ◌++◌, length, map, true, IfOk, OnOk};
ghost use Rattle.std.specs.List.{flat_map};
ghost use Rattle.byteorder.specs.Endian.{big_bytes};
ghost use Rattle.cdf_base.specs.Bytes.{put};
ghost use Rattle.cdf_format.specs.Records.{vdr_name};
ghost use Rattle.cdf_model.specs.ByteOrder.{turned};
ghost use Rattle.cdf_model.specs.Limits.{dimension_limit};
ghost use Rattle.cdf_model.specs.Names.{name_limit};
ghost use Rattle.cdf_model.specs.Types.{size_of};
ghost use Rattle.cdf_writer.specs.Bodies.{name_bytes, own_dims, vary_code};
ghost use Rattle.cdf_writer.specs.Laying.{index_root, laid, laid_size};
ghost use Rattle.cdf_writer.specs.Progress.{count_of, finished_bodies, finished_place, finished_root, flags_of, group_begun, joined, own_of, vdr_made, vdr_tail};
ghost use Rattle.cdf_writer.specs.Stops.{Writes};

use crate::appending::{WriteStop, fill_room};
use crate::attributes::next_if;
use crate::blocks::close_group;
use crate::bodies::{Counts, Descriptor, push_numbers, vdr_front};
use crate::index::append_index;
use crate::progress::{FileState, OpenVariable};
use cdf_area::Area;
use cdf_fields::padded;
use cdf_model::{DataType, Encoding, Kind, Sparse};
use cdf_values::from_network;
use std::alloc::{AllocError, Global};

/// Flags of a VDR: whether records vary, whether there is a pad value, and whether records are packed.
pub(crate) fn flags_of(vary: bool, has_pad: bool, rle: bool) -> u32
    ensures { result ≡ flags_of vary has_pad rle }
{
    u32::from(vary) + 2 * u32::from(has_pad) + 4 * u32::from(rle)
}

/// What a VDR says in its fields up to the Name.
pub(crate) fn own_of(
    kind: Kind,
    num: u32,
    t: DataType,
    elems: u32,
    flags: u32,
    sparse: Sparse,
    blocking: i32,
    max_rec: i32,
) -> Descriptor
    ensures { result ≡ own_of kind num t elems flags sparse blocking max_rec }
{
    Descriptor {
        kind,
        num,
        t,
        elems,
        flags,
        sparse,
        blocking,
        max_rec,
    }
}

/// The bytes of values in network order, as a file with this byte order has them.
pub(crate) fn stored_values(
    alloc: Global,
    t: DataType,
    little: bool,
    bytes: &[u8],
) -> Result<Vec<u8>, AllocError>
    requires { length bytes.now % size_of t ≡ 0 }
    ensures { IfOk result (λ stored. stored.items ≡ turned t little bytes.now) }
{
    let mut stored = bytes.to_vec(alloc)?;
    from_network(t, Encoding { code: 0, little }, &mut stored);
    Ok(stored)
}

/// Appends zNumDims and zDimSizes, which a z variable has.
fn push_dims(bytes: &mut Vec<u8>, kind: Kind, dims: &[u32]) -> Result<(), AllocError>
    requires { length dims.now ≤ dimension_limit }
    ensures { OnOk result (bytes.new.items ≡ bytes.old.items ++ flat_map (big_bytes 4) (own_dims kind dims.now)) }
{
    match kind {
        Kind::R => Ok(()),
        Kind::Z => {
            let count = dims.len() as u32;
            bytes.extend_from_slice(&count.to_be_bytes())?;
            push_numbers(bytes, dims)
        }
    }
}

/// Appends DimVarys: -1 where a dimension varies.
fn push_varys(bytes: &mut Vec<u8>, varys: &[bool]) -> Result<(), AllocError>
    ensures { OnOk result (bytes.new.items ≡ bytes.old.items ++ flat_map (big_bytes 4) (map vary_code varys.now)) }
{
    for varies in varys {
        let code = if *varies { u32::MAX } else { 0 };
        bytes.extend_from_slice(&code.to_be_bytes())?;
    }
    Ok(())
}

/// What stands in a VDR from its Name on: the dimensions, and the pad value in network order, if there is one.
pub(crate) fn vdr_tail(
    alloc: Global,
    little: bool,
    kind: Kind,
    name: &[u8],
    dims: &[u32],
    varys: &[bool],
    t: DataType,
    has_pad: bool,
    pad: &[u8],
) -> Result<Vec<u8>, AllocError>
    requires name { length name.now ≤ name_limit }
    requires few { length dims.now ≤ dimension_limit }
    requires whole { has_pad ≡ true → length pad.now % size_of t ≡ 0 }
    ensures { IfOk result (λ bytes. bytes.items ≡ vdr_tail kind little name.now t dims.now varys.now has_pad pad.now) }
{
    let mut bytes = padded(name).to_vec(alloc)?;
    push_dims(&mut bytes, kind, dims)?;
    push_varys(&mut bytes, varys)?;
    if has_pad {
        let stored = stored_values(alloc, t, little, pad)?;
        bytes.extend_from_slice(&stored)?;
    }
    Ok(bytes)
}

/// How many variables of a kind there are.
fn count_of(kind: Kind, counts: Counts) -> u32
    ensures { result ≡ count_of kind counts }
{
    match kind {
        Kind::R => counts.r,
        Kind::Z => counts.z,
    }
}

/// The VDR of a variable that ends at a place, and has its index at another one.
fn vdr_body(
    alloc: Global,
    file: &FileState,
    v: &OpenVariable,
    end: u64,
    root: u64,
) -> Result<Vec<u8>, AllocError>
    ensures { IfOk result (λ body. body.items ≡ vdr_made file.now end root v.now) }
{
    let next = next_if(v.own.num, count_of(v.own.kind, file.counts), end);
    let mut body = vdr_front(alloc, v.own, next, root, v.cpr)?;
    body.extend_from_slice(v.tail.as_slice())?;
    Ok(body)
}

/// Appends the last block of a variable and its index, and writes its VDR.
pub(crate) fn finish_variable<A: Area>(
    alloc: Global,
    area: &mut A,
    file: &FileState,
    v: &mut OpenVariable,
) -> Result<(), WriteStop>
    requires limit { (A.frame area.old).limit ≤ 2 ^ 62 }
    requires within { length (A.image area.old) ≤ (A.frame area.old).limit }
    requires room { v.old.place + 84 + length v.old.tail ≤ length (A.image area.old) }
    ensures finished { OnOk result (A.image area.new ≡ put (A.image area.old ++ laid (finished_bodies v.old (length (A.image area.old)))) (v.old.place + 8) (vdr_made file.now (finished_place v.old (length (A.image area.old))) (finished_root v.old (length (A.image area.old))) v.old)) }
    ensures area { Writes A.image A.frame A.faults (length (A.image area.old)) area.old area.new (finished_bodies v.old (length (A.image area.old))) result }
{
    close_group(alloc, area, v)?;
    let root = append_index(alloc, area, v.leaves.as_slice())?;
    let body = vdr_body(alloc, file, v, area.size(), root)?;
    fill_room(area, v.place, &body)?;
    Ok(())
}
