//! The Name of an attribute or a variable, read.

ghost use Rattle.std.specs.Prelude.{◌≡◌, ◌+◌, ◌≤◌, ◌==◌, length, IfOk};
ghost use Rattle.std.specs.List.{before_first, position, position_or_len};
ghost use Rattle.cdf_area.specs.Calls.{Reads};
ghost use Rattle.cdf_format.specs.Fields.{LiesIn, name_at, name_field, type_at};

use crate::numbers::read_unsigned4;
use cdf_area::{Area, AreaError};
use cdf_format::fields::{ADR_NAME, ADR_TYPE, NAME_SIZE, RECORD_TYPE, VDR_NAME};
use cdf_model::Bytes;
use std::alloc::Global;

/// Where the Name of a record of this type stands in it.
fn name_place(record_type: u32) -> u64
    ensures { result ≡ (name_field record_type).place }
{
    if record_type == ADR_TYPE {
        ADR_NAME
    } else {
        VDR_NAME
    }
}

/// Where the first byte 0 stands.
fn first_zero(bytes: &[u8]) -> Option<usize>
    ensures { result ≡ position (λ byte. byte == 0) bytes.now }
{
    bytes.iter().position(|byte| *byte == 0)
}

/// How many bytes stand before the first byte 0.
fn name_length(bytes: &[u8]) -> usize
    ensures value { result ≡ position_or_len (λ byte. byte == 0) bytes.now }
    ensures within { result ≤ length bytes.now }
{
    first_zero(bytes).unwrap_or(bytes.len())
}

/// The Name of the record at a place, an ADR where its type is 4, else a VDR.
#[tactic(auto, using(crate::proofs::NameLengths::past_the_type))]
pub fn read_name<A: Area>(alloc: Global, area: &mut A, at: u64) -> Result<Bytes, AreaError>
    requires { LiesIn (A.image area.old) at (name_field (type_at (A.image area.old) at)) }
    ensures value { IfOk result (λ name. name ≡ name_at (A.image area.old) at) }
    ensures area { Reads A.image A.frame A.faults A.edited area.old area.new result }
{
    let _size = area.size();
    let record_type = read_unsigned4(area, at + RECORD_TYPE)?;
    let mut bytes = [0u8; NAME_SIZE];
    area.get(at + name_place(record_type), &mut bytes)?;
    let length = name_length(&bytes);
    Ok(Bytes::new(bytes[..length].to_vec(alloc)?))
}
