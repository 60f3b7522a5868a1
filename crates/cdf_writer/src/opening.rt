//! Room kept for descriptors, and the first two records.

ghost use Rattle.std.specs.Prelude.{[], ◌≡◌, ◌+◌, ◌<◌, ◌^◌, ◌≤◌, ◌%◌, ◌++◌, ◌∷◌, length, replicate, IfOk, OnOk};
ghost use Rattle.cdf_base.specs.Bytes.{put};
ghost use Rattle.cdf_format.specs.NewFile.{magic};
ghost use Rattle.cdf_format.specs.Records.{adr_name};
ghost use Rattle.cdf_model.specs.DataSet.{extent};
ghost use Rattle.cdf_model.specs.Limits.{dimension_limit};
ghost use Rattle.cdf_model.specs.Names.{name_limit};
ghost use Rattle.cdf_writer.specs.Bodies.{name_bytes};
ghost use Rattle.cdf_writer.specs.Compact.{is_little_code};
ghost use Rattle.cdf_writer.specs.Laying.{cpr_bodies, laid};
ghost use Rattle.cdf_writer.specs.Progress.{adr_rest, attribute_opened, begun, first_place, gdr_made, max_rec_code, variable_opened, vdr_rest, with_variable};
ghost use Rattle.cdf_writer.specs.Stops.{Writes};

use crate::appending::{WriteStop, append_record, fill_room, keep_room};
use crate::bodies::{
    Counts, Descriptor, EntryChain, GDR_PLACE, Heads, cdr_body, cpr_body, gdr_front, push_numbers,
};
use crate::lists::{Buffer, NodeEntries};
use crate::progress::{FileState, Group, OpenAttribute, OpenVariable};
use cdf_area::Area;
use cdf_fields::padded;
use cdf_format::fields::{
    ADR_NAME, GDR_R_DIM_SIZE, MAGIC_UNCOMPRESSED, MAGIC_VERSION_3, RECORD_TYPE, VDR_NAME,
};
use cdf_model::{Bytes, Encoding, Head, Kind, Scope};
use std::alloc::{AllocError, Global};

/// Whether the least byte of a value stands first, by the code of an encoding.
fn is_little(code: u32) -> bool
    ensures { result ≡ is_little_code code }
{
    match code {
        4 | 6 | 13 | 16 | 17 => true,
        _ => false,
    }
}

/// The magic numbers.
fn magic(alloc: Global) -> Result<Vec<u8>, AllocError>
    ensures { IfOk result (λ bytes. bytes.items ≡ magic) }
{
    let mut bytes = Vec::new(alloc);
    push_numbers(&mut bytes, &[MAGIC_VERSION_3, MAGIC_UNCOMPRESSED])?;
    Ok(bytes)
}

/// Writes the magic numbers into an empty area.
fn append_magic<A: Area>(alloc: Global, area: &mut A) -> Result<(), WriteStop>
    requires room { 8 ≤ (A.frame area.old).limit }
    requires empty { A.image area.old ≡ [] }
    ensures magic { OnOk result (A.image area.new ≡ magic) }
    ensures area { Writes A.image A.frame A.faults 8 area.old area.new [] result }
{
    let start = magic(alloc)?;
    area.extend(start.len() as u64)?;
    area.set(0, &start)?;
    Ok(())
}

/// What is known of the file once its head came.
fn file_of(alloc: Global, head: &Head) -> Result<FileState, AllocError>
    requires { length head.now.rdims ≤ dimension_limit }
    ensures { IfOk result (λ file. file ≡ (begun head.now).file) }
{
    let sizes = head.rdims.as_slice();
    let mut dims = Vec::new(alloc);
    push_numbers(&mut dims, sizes)?;
    Ok(FileState {
        little: is_little(head.encoding),
        counts: Counts {
            attributes: head.attrs,
            r: head.rvars,
            z: head.zvars,
            dims: sizes.len() as u32,
        },
        dims: Bytes::new(dims),
        attributes: 0,
        r: 0,
        z: 0,
        extent: 0,
    })
}

/// Writes the magic numbers and the CDR into an empty area, and keeps room for the GDR.
pub(crate) fn begin_file<A: Area>(
    alloc: Global,
    area: &mut A,
    head: &Head,
) -> Result<FileState, WriteStop>
    requires limit { (A.frame area.old).limit ≤ 2 ^ 62 }
    requires room { 404 ≤ (A.frame area.old).limit }
    requires empty { A.image area.old ≡ [] }
    requires few { length head.now.rdims ≤ dimension_limit }
    ensures begun { OnOk result (A.image area.new ≡ magic ++ laid ((begun head.now).cdr ∷ (begun head.now).gdr ∷ [])) }
    ensures file { IfOk result (λ file. file ≡ (begun head.now).file) }
    ensures area { Writes A.image A.frame A.faults 8 area.old area.new ((begun head.now).cdr ∷ (begun head.now).gdr ∷ []) result }
{
    let file = file_of(alloc, head)?;
    let cdr = cdr_body(alloc, head)?;
    append_magic(alloc, area)?;
    append_record(area, &cdr)?;
    keep_room(
        area,
        GDR_R_DIM_SIZE - RECORD_TYPE + file.dims.as_slice().len() as u64,
    )?;
    Ok(file)
}

/// MaxRec where there are so many numbers up to it.
fn max_rec_code(extent: u32) -> u32
    ensures { result ≡ max_rec_code extent }
{
    if extent == 0 { u32::MAX } else { extent - 1 }
}

/// The GDR of a file that ends at a place.
fn gdr_body(alloc: Global, file: &FileState, end: u64) -> Result<Vec<u8>, AllocError>
    ensures { IfOk result (λ body. body.items ≡ gdr_made file.now end) }
{
    let heads = Heads {
        r: file.r,
        z: file.z,
        attributes: file.attributes,
        end,
        r_max_rec: max_rec_code(file.extent),
    };
    let mut body = gdr_front(alloc, file.counts, heads)?;
    body.extend_from_slice(file.dims.as_slice())?;
    Ok(body)
}

/// Writes the GDR of a file of which all else is written.
pub(crate) fn finish_file<A: Area>(
    alloc: Global,
    area: &mut A,
    file: &FileState,
) -> Result<(), WriteStop>
    requires limit { (A.frame area.old).limit ≤ 2 ^ 62 }
    requires within { length (A.image area.old) ≤ (A.frame area.old).limit }
    requires room { 404 + length file.now.dims ≤ length (A.image area.old) }
    ensures finished { OnOk result (A.image area.new ≡ put (A.image area.old) 328 (gdr_made file.now (length (A.image area.old)))) }
    ensures area { Writes A.image A.frame A.faults (length (A.image area.old)) area.old area.new [] result }
{
    let body = gdr_body(alloc, file, area.size())?;
    fill_room(area, GDR_PLACE, &body)
}

/// The place that was first.
fn first_place(was: u64, place: u64) -> u64
    ensures { result ≡ first_place was place }
{
    if was == 0 { place } else { was }
}

/// Keeps room for the ADR of an attribute without entries.
pub(crate) fn open_attribute<A: Area>(
    alloc: Global,
    area: &mut A,
    file: &mut FileState,
    num: u32,
    name: &[u8],
    scope: Scope,
) -> Result<OpenAttribute, WriteStop>
    requires limit { (A.frame area.old).limit ≤ 2 ^ 62 }
    requires within { length (A.image area.old) ≤ (A.frame area.old).limit }
    requires name { length name.now ≤ name_limit }
    ensures appended { OnOk result (A.image area.new ≡ A.image area.old ++ laid (replicate (adr_rest (name_bytes adr_name name.now)) 0 ∷ [])) }
    ensures file { OnOk result (file.new ≡ record file.old { attributes = first_place file.old.attributes (length (A.image area.old)) }) }
    ensures attribute { IfOk result (λ a. a ≡ attribute_opened (length (A.image area.old)) num name.now scope) }
    ensures area { Writes A.image A.frame A.faults (length (A.image area.old)) area.old area.new (replicate (adr_rest (name_bytes adr_name name.now)) 0 ∷ []) result }
{
    let place = area.size();
    let name = padded(name).to_vec(alloc)?;
    keep_room(area, ADR_NAME - RECORD_TYPE + name.len() as u64)?;
    file.attributes = first_place(file.attributes, place);
    Ok(OpenAttribute {
        place,
        num,
        scope,
        name: Bytes::new(name),
        g: NO_CHAIN,
        z: NO_CHAIN,
        held: None,
    })
}

/// A chain without entries.
const NO_CHAIN: EntryChain = EntryChain {
    head: 0,
    count: 0,
    greatest: None,
};

/// How many record numbers there are up to MaxRec.
fn extent(max_rec: i32) -> u32
    ensures { result ≡ extent max_rec }
{
    if max_rec < 0 { 0 } else { max_rec as u32 + 1 }
}

/// What is known of the file with a variable more, which stands at a place.
fn with_variable(file: &mut FileState, kind: Kind, place: u64, max_rec: i32)
    ensures { file.new ≡ with_variable kind place max_rec file.old }
{
    match kind {
        Kind::R => {
            file.r = first_place(file.r, place);
            file.extent = u32::max(file.extent, extent(max_rec));
        }
        Kind::Z => file.z = first_place(file.z, place),
    }
}

/// Appends a CPR, where records are packed.
fn append_cpr<A: Area>(alloc: Global, area: &mut A, rle: bool) -> Result<(), WriteStop>
    requires limit { (A.frame area.old).limit ≤ 2 ^ 62 }
    requires within { length (A.image area.old) ≤ (A.frame area.old).limit }
    ensures appended { OnOk result (A.image area.new ≡ A.image area.old ++ laid (cpr_bodies rle)) }
    ensures area { Writes A.image A.frame A.faults (length (A.image area.old)) area.old area.new (cpr_bodies rle) result }
{
    if !rle {
        return Ok(());
    }
    let body = cpr_body(alloc)?;
    append_record(area, &body)
}

/// Keeps room for the VDR of a variable without records, and appends its CPR.
pub(crate) fn open_variable<A: Area>(
    alloc: Global,
    area: &mut A,
    file: &mut FileState,
    own: Descriptor,
    vary: bool,
    rle: bool,
    tail: Bytes,
) -> Result<OpenVariable, WriteStop>
    requires limit { (A.frame area.old).limit ≤ 2 ^ 62 }
    requires within { length (A.image area.old) ≤ (A.frame area.old).limit }
    ensures appended { OnOk result (A.image area.new ≡ A.image area.old ++ laid (replicate (vdr_rest tail) 0 ∷ cpr_bodies rle)) }
    ensures file { OnOk result (file.new ≡ with_variable own.kind (length (A.image area.old)) own.max_rec file.old) }
    ensures variable { IfOk result (λ v. v ≡ variable_opened (length (A.image area.old)) own vary rle tail) }
    ensures area { Writes A.image A.frame A.faults (length (A.image area.old)) area.old area.new (replicate (vdr_rest tail) 0 ∷ cpr_bodies rle) result }
{
    let place = area.size();
    keep_room(area, VDR_NAME - RECORD_TYPE + tail.as_slice().len() as u64)?;
    let behind = area.size();
    append_cpr(alloc, area, rle)?;
    with_variable(file, own.kind, place, own.max_rec);
    Ok(OpenVariable {
        place,
        own,
        vary,
        rle,
        tail,
        cpr: if rle { behind } else { u64::MAX },
        leaves: NodeEntries::new(alloc),
        group: Group::new(alloc),
    })
}
