//! Entries of attributes, as they are written.

ghost use Rattle.std.specs.Prelude.{◌≡◌, ◌+◌, ◌≤◌, ◌++◌, length, IfOk, OnOk};
ghost use Rattle.cdf_attrs.specs.Putting.{aedr_body, aedr_fields, new_reserved, reserved_at};
ghost use Rattle.cdf_area.specs.Calls.{Reads};
ghost use Rattle.cdf_edits.specs.Commands.EntryChains.{entry_type};
ghost use Rattle.cdf_format.specs.Fields.{size_at};
ghost use Rattle.cdf_format.specs.Records.{aedr_value};
ghost use Rattle.cdf_records.specs.Pieces.{AreBytes};
ghost use Rattle.cdf_edits.specs.Space.Placing.{laid_out};

use cdf_area::{Area, AreaError};
use cdf_format::fields::{AGR_EDR_TYPE, AZ_EDR_TYPE};
use cdf_model::{DataType, EntryKind};
use cdf_records::read_aedr;
use std::alloc::{AllocError, Global};

/// The numbers in the reserved fields of an entry.
#[derive(Clone, Copy)]
pub struct Reserved {
    pub b: u32,
    pub c: u32,
    pub d: u32,
    pub e: u32,
}

impl Reserved {
    /// Those of a new entry.
    pub fn new() -> Reserved
        ensures { result ≡ new_reserved }
    {
        Reserved {
            b: 0,
            c: 0,
            d: 0xffff_ffff,
            e: 0xffff_ffff,
        }
    }
}

/// The value of an entry as a file has it: so many elements of a type, in the byte order of the file.
#[derive(Drop)]
pub struct StoredValue {
    pub t: DataType,
    pub elems: u32,
    pub bytes: Vec<u8>,
}

/// What of an entry that is replaced is taken: where it stands, how long its record is, and the numbers in its reserved fields.
#[derive(Clone, Copy)]
pub struct OldEntry {
    pub place: u64,
    pub size: u64,
    pub reserved: Reserved,
}

/// That of the entry whose descriptor stands at a place.
pub fn read_old<A: Area>(area: &mut A, place: u64) -> Result<OldEntry, AreaError>
    requires { place + (aedr_value 0).place ≤ length (A.image area.old) }
    ensures place { IfOk result (λ old. old.place ≡ place) }
    ensures size { IfOk result (λ old. old.size ≡ size_at (A.image area.old) place) }
    ensures reserved { IfOk result (λ old. old.reserved ≡ reserved_at (A.image area.old) place) }
    ensures bytes { OnOk result (AreBytes (A.image area.old) place (aedr_value 0).place) }
    ensures area { Reads A.image A.frame A.faults A.edited area.old area.new result }
{
    let head = read_aedr(area, place)?;
    Ok(OldEntry {
        place,
        size: head.record_size,
        reserved: Reserved {
            b: head.rfu_b.cast_unsigned(),
            c: head.rfu_c.cast_unsigned(),
            d: head.rfu_d.cast_unsigned(),
            e: head.rfu_e.cast_unsigned(),
        },
    })
}

/// The type of the record of an entry.
fn record_type(kind: EntryKind) -> u32
    ensures { result ≡ entry_type kind }
{
    match kind {
        EntryKind::G | EntryKind::R => AGR_EDR_TYPE,
        EntryKind::Z => AZ_EDR_TYPE,
    }
}

/// What follows the link of an entry to the next one.
#[tactic(auto, unfolding(crate::specs::Putting::aedr_body))]
pub fn field_bytes(
    alloc: Global,
    attr: u32,
    num: u32,
    value: &StoredValue,
    reserved: Reserved,
) -> Result<Vec<u8>, AllocError>
    ensures { IfOk result (λ bytes. bytes.items ≡ laid_out (aedr_fields attr value.now.t num value.now.elems reserved) ++ value.now.bytes.items) }
{
    let mut bytes = Vec::new(alloc);
    bytes.extend_from_slice(&attr.to_be_bytes())?;
    bytes.extend_from_slice(&value.t.code().to_be_bytes())?;
    bytes.extend_from_slice(&num.to_be_bytes())?;
    bytes.extend_from_slice(&value.elems.to_be_bytes())?;
    // no strings
    bytes.extend_from_slice(&0u32.to_be_bytes())?;
    bytes.extend_from_slice(&reserved.b.to_be_bytes())?;
    bytes.extend_from_slice(&reserved.c.to_be_bytes())?;
    bytes.extend_from_slice(&reserved.d.to_be_bytes())?;
    bytes.extend_from_slice(&reserved.e.to_be_bytes())?;
    bytes.extend_from_slice(&value.bytes)?;
    Ok(bytes)
}

/// What follows the size of an entry that no other one follows.
#[tactic(auto, unfolding(crate::specs::Putting::aedr_body))]
pub fn aedr_bytes(
    alloc: Global,
    kind: EntryKind,
    attr: u32,
    num: u32,
    value: &StoredValue,
    reserved: Reserved,
) -> Result<Vec<u8>, AllocError>
    ensures { IfOk result (λ bytes. bytes.items ≡ aedr_body kind attr value.now.t num value.now.elems reserved value.now.bytes.items) }
{
    let mut bytes = Vec::new(alloc);
    bytes.extend_from_slice(&record_type(kind).to_be_bytes())?;
    // no next one
    bytes.extend_from_slice(&0u64.to_be_bytes())?;
    let fields = field_bytes(alloc, attr, num, value, reserved)?;
    bytes.extend_from_slice(&fields)?;
    Ok(bytes)
}
