//! What follows the size of each internal record that is written.

ghost use Rattle.std.specs.Prelude.{◌≡◌, ◌++◌, ◌∷◌, [], length, map, IfOk, OnOk};
ghost use Rattle.std.specs.List.{flat_map};
ghost use Rattle.byteorder.specs.Endian.{big_bytes};
ghost use Rattle.cdf_edits.specs.Space.Placing.{laid_out};
ghost use Rattle.cdf_format.specs.NewFile.{copyright};
ghost use Rattle.cdf_format.specs.Records.{adr_name, record_type, vdr_name};
ghost use Rattle.cdf_model.specs.ByteOrder.{turned};
ghost use Rattle.cdf_model.specs.Types.{size_of};
ghost use Rattle.cdf_writer.specs.Compact.{gdr_place};
ghost use Rattle.cdf_writer.specs.Bodies.{adr_front, cdr_bytes, cpr_body, cvvr_body, entry_front, file_flags, gdr_front, or_minus_one, scope_code, sparse_code, spared, vary_code, vdr_front, vdr_type, vvr_body, vxr_body};

use cdf_format::fields::{
    ADR_TYPE, CDR_PLACE, CDR_SIZE, CDR_TYPE, CPR_TYPE, CVVR_TYPE, GDR_TYPE, LINKED_SIZE,
    R_VDR_TYPE, RECORD_TYPE, VVR_TYPE, VXR_TYPE, Z_VDR_TYPE,
};
use cdf_model::{DataType, Head, Kind, Majority, Scope, Sparse};
use std::alloc::{AllocError, Global};

/// Where the GDR stands, behind the CDR.
pub(crate) const GDR_PLACE: u64 = CDR_PLACE + CDR_SIZE;

/// Version.
const VERSION: u32 = 3;

/// The least number of bytes behind the size of a record.
const LEAST_BODY: usize = (LINKED_SIZE - RECORD_TYPE) as usize;

/// How many there are: attributes, r variables, z variables, and dimensions that r variables share.
#[derive(Clone, Copy)]
pub struct Counts {
    pub attributes: u32,
    pub r: u32,
    pub z: u32,
    pub dims: u32,
}

/// What a GDR says of the records behind it: where the chains begin, where all end, and the greatest MaxRec of the r variables.
#[derive(Clone, Copy)]
pub struct Heads {
    pub r: u64,
    pub z: u64,
    pub attributes: u64,
    pub end: u64,
    pub r_max_rec: u32,
}

/// What an ADR says of one of its chains of entries: where it begins, how many there are, and their greatest number.
#[derive(Clone, Copy)]
pub struct EntryChain {
    pub head: u64,
    pub count: u32,
    pub greatest: Option<u32>,
}

/// What a VDR says of its variable, but for its Name, its dimensions, its pad value and all links.
#[derive(Clone, Copy)]
pub struct Descriptor {
    pub kind: Kind,
    pub num: u32,
    pub t: DataType,
    pub elems: u32,
    pub flags: u32,
    pub sparse: Sparse,
    pub blocking: i32,
    pub max_rec: i32,
}

/// An entry of a node: the records from the first to the last, and where their block or a lower node stands.
#[derive(Clone, Copy)]
pub struct NodeEntry {
    pub first: u32,
    pub last: u32,
    pub place: u64,
}

/// The number, or -1 without one.
fn or_minus_one(number: Option<u32>) -> u32
    ensures { result ≡ or_minus_one number }
{
    match number {
        None => u32::MAX,
        Some(n) => n,
    }
}

/// Flags of the CDR.
fn file_flags(majority: Majority, md5: bool) -> u32
    ensures { result ≡ file_flags majority md5 }
{
    match (majority, md5) {
        (Majority::Row, true) => 15,
        (Majority::Row, false) => 3,
        (Majority::Column, true) => 14,
        (Majority::Column, false) => 2,
    }
}

/// Scope, as it is stored.
fn scope_code(scope: Scope) -> u32
    ensures { result ≡ scope_code scope }
{
    match scope {
        Scope::Global => 1,
        Scope::Variable => 2,
        Scope::GlobalAssumed => 3,
        Scope::VariableAssumed => 4,
    }
}

/// SRecords, as it is stored.
fn sparse_code(sparse: Sparse) -> u32
    ensures { result ≡ sparse_code sparse }
{
    match sparse {
        Sparse::NoRule => 0,
        Sparse::Pad => 1,
        Sparse::Previous => 2,
    }
}

/// The type of the VDRs of a kind.
fn vdr_type(kind: Kind) -> u32
    ensures { result ≡ vdr_type kind }
{
    match kind {
        Kind::R => R_VDR_TYPE,
        Kind::Z => Z_VDR_TYPE,
    }
}

/// Appends numbers of 4 bytes each.
pub(crate) fn push_numbers(bytes: &mut Vec<u8>, numbers: &[u32]) -> Result<(), AllocError>
    ensures { OnOk result (bytes.new.items ≡ bytes.old.items ++ flat_map (big_bytes 4) numbers.now) }
{
    for number in numbers {
        bytes.extend_from_slice(&number.to_be_bytes())?;
    }
    Ok(())
}

/// Appends bytes 0 up to the least body of a record.
fn fill_up(body: &mut Vec<u8>) -> Result<(), AllocError>
    ensures { OnOk result (body.new.items ≡ spared body.old.items) }
{
    if body.len() < LEAST_BODY {
        body.resize(LEAST_BODY, 0)?;
    }
    Ok(())
}

/// The CDR of a file with this head.
#[tactic(auto, unfolding(crate::specs::Bodies::cdr_bytes))]
pub(crate) fn cdr_body(alloc: Global, head: &Head) -> Result<Vec<u8>, AllocError>
    ensures { IfOk result (λ body. body.items ≡ cdr_bytes head.now gdr_place) }
{
    let mut body = Vec::new(alloc);
    body.extend_from_slice(&CDR_TYPE.to_be_bytes())?;
    body.extend_from_slice(&GDR_PLACE.to_be_bytes())?;
    push_numbers(
        &mut body,
        &[
            VERSION,
            head.release.cast_unsigned(),
            head.encoding,
            file_flags(head.majority, head.md5),
            // rfuA and rfuB
            0,
            0,
            head.increment.cast_unsigned(),
            // Identifier and rfuE
            2,
            u32::MAX,
        ],
    )?;
    body.extend_from_slice(b"\nCommon Data Format (CDF)\n")?;
    body.extend_from_slice(&[0; 230])?;
    Ok(body)
}

/// What stands in a GDR before the sizes of the dimensions.
#[tactic(auto, unfolding(crate::specs::Bodies::gdr_front))]
pub(crate) fn gdr_front(alloc: Global, counts: Counts, heads: Heads) -> Result<Vec<u8>, AllocError>
    ensures { IfOk result (λ body. body.items ≡ gdr_front counts heads) }
{
    let mut body = Vec::new(alloc);
    body.extend_from_slice(&GDR_TYPE.to_be_bytes())?;
    body.extend_from_slice(&heads.r.to_be_bytes())?;
    body.extend_from_slice(&heads.z.to_be_bytes())?;
    body.extend_from_slice(&heads.attributes.to_be_bytes())?;
    body.extend_from_slice(&heads.end.to_be_bytes())?;
    body.extend_from_slice(&counts.r.to_be_bytes())?;
    body.extend_from_slice(&counts.attributes.to_be_bytes())?;
    body.extend_from_slice(&heads.r_max_rec.to_be_bytes())?;
    body.extend_from_slice(&counts.dims.to_be_bytes())?;
    body.extend_from_slice(&counts.z.to_be_bytes())?;
    // UIRhead, rfuC, LeapSecondLastUpdated and rfuE
    body.extend_from_slice(&0u64.to_be_bytes())?;
    body.extend_from_slice(&0u32.to_be_bytes())?;
    body.extend_from_slice(&u32::MAX.to_be_bytes())?;
    body.extend_from_slice(&u32::MAX.to_be_bytes())?;
    Ok(body)
}

/// What stands in an ADR before its Name.
#[tactic(auto, unfolding(crate::specs::Bodies::adr_front))]
pub(crate) fn adr_front(
    alloc: Global,
    num: u32,
    next: u64,
    scope: Scope,
    g: EntryChain,
    z: EntryChain,
) -> Result<Vec<u8>, AllocError>
    ensures { IfOk result (λ body. body.items ≡ adr_front num next scope g z) }
{
    let mut body = Vec::new(alloc);
    body.extend_from_slice(&ADR_TYPE.to_be_bytes())?;
    body.extend_from_slice(&next.to_be_bytes())?;
    body.extend_from_slice(&g.head.to_be_bytes())?;
    body.extend_from_slice(&scope_code(scope).to_be_bytes())?;
    body.extend_from_slice(&num.to_be_bytes())?;
    body.extend_from_slice(&g.count.to_be_bytes())?;
    body.extend_from_slice(&or_minus_one(g.greatest).to_be_bytes())?;
    // rfuA
    body.extend_from_slice(&0u32.to_be_bytes())?;
    body.extend_from_slice(&z.head.to_be_bytes())?;
    body.extend_from_slice(&z.count.to_be_bytes())?;
    body.extend_from_slice(&or_minus_one(z.greatest).to_be_bytes())?;
    // rfuE
    body.extend_from_slice(&u32::MAX.to_be_bytes())?;
    Ok(body)
}

/// What stands in an entry before its Value.
#[tactic(auto, unfolding(crate::specs::Bodies::entry_front))]
pub(crate) fn entry_front(
    alloc: Global,
    type_: u32,
    attribute: u32,
    next: u64,
    num: u32,
    t: DataType,
    elems: u32,
) -> Result<Vec<u8>, AllocError>
    ensures { IfOk result (λ body. body.items ≡ entry_front type_ attribute next num t elems) }
{
    let mut body = Vec::new(alloc);
    body.extend_from_slice(&type_.to_be_bytes())?;
    body.extend_from_slice(&next.to_be_bytes())?;
    body.extend_from_slice(&attribute.to_be_bytes())?;
    body.extend_from_slice(&t.code().to_be_bytes())?;
    body.extend_from_slice(&num.to_be_bytes())?;
    body.extend_from_slice(&elems.to_be_bytes())?;
    // NumStrings, rfuB, rfuC, rfuD and rfuE
    body.extend_from_slice(&0u32.to_be_bytes())?;
    body.extend_from_slice(&0u32.to_be_bytes())?;
    body.extend_from_slice(&0u32.to_be_bytes())?;
    body.extend_from_slice(&u32::MAX.to_be_bytes())?;
    body.extend_from_slice(&u32::MAX.to_be_bytes())?;
    Ok(body)
}

/// What stands in a VDR before its Name.
#[tactic(auto, unfolding(crate::specs::Bodies::vdr_front))]
pub(crate) fn vdr_front(
    alloc: Global,
    own: Descriptor,
    next: u64,
    root: u64,
    cpr: u64,
) -> Result<Vec<u8>, AllocError>
    ensures { IfOk result (λ body. body.items ≡ vdr_front own next root cpr) }
{
    let mut body = Vec::new(alloc);
    body.extend_from_slice(&vdr_type(own.kind).to_be_bytes())?;
    body.extend_from_slice(&next.to_be_bytes())?;
    push_numbers(&mut body, &[own.t.code(), own.max_rec.cast_unsigned()])?;
    // the head and the tail of the index
    body.extend_from_slice(&root.to_be_bytes())?;
    body.extend_from_slice(&root.to_be_bytes())?;
    // with rfuB, rfuC and rfuF
    push_numbers(
        &mut body,
        &[
            own.flags,
            sparse_code(own.sparse),
            0,
            u32::MAX,
            u32::MAX,
            own.elems,
            own.num,
        ],
    )?;
    body.extend_from_slice(&cpr.to_be_bytes())?;
    body.extend_from_slice(&own.blocking.to_be_bytes())?;
    Ok(body)
}

/// The parameters of run lengths of zeros.
#[tactic(auto, unfolding(crate::specs::Bodies::cpr_body))]
pub(crate) fn cpr_body(alloc: Global) -> Result<Vec<u8>, AllocError>
    ensures { IfOk result (λ body. body.items ≡ cpr_body) }
{
    let mut body = Vec::new(alloc);
    body.extend_from_slice(&CPR_TYPE.to_be_bytes())?;
    // cType, rfuA, pCount and the parameter
    body.extend_from_slice(&1u32.to_be_bytes())?;
    body.extend_from_slice(&0u32.to_be_bytes())?;
    body.extend_from_slice(&1u32.to_be_bytes())?;
    body.extend_from_slice(&0u32.to_be_bytes())?;
    Ok(body)
}

/// A block that is not packed.
#[tactic(auto, unfolding(crate::specs::Bodies::vvr_body))]
pub(crate) fn vvr_body(alloc: Global, plain: &[u8]) -> Result<Vec<u8>, AllocError>
    ensures { IfOk result (λ body. body.items ≡ vvr_body plain.now) }
{
    let mut body = Vec::new(alloc);
    body.extend_from_slice(&VVR_TYPE.to_be_bytes())?;
    body.extend_from_slice(plain)?;
    fill_up(&mut body)?;
    Ok(body)
}

/// A packed block.
#[tactic(auto, unfolding(crate::specs::Bodies::cvvr_body))]
pub(crate) fn cvvr_body(alloc: Global, packed: &[u8]) -> Result<Vec<u8>, AllocError>
    ensures { IfOk result (λ body. body.items ≡ cvvr_body packed.now) }
{
    let mut body = Vec::new(alloc);
    body.extend_from_slice(&CVVR_TYPE.to_be_bytes())?;
    // rfuA and cSize
    body.extend_from_slice(&0u32.to_be_bytes())?;
    body.extend_from_slice(&(packed.len() as u64).to_be_bytes())?;
    body.extend_from_slice(packed)?;
    fill_up(&mut body)?;
    Ok(body)
}
