//! What is told of a variable before its records.

ghost use Rattle.std.specs.Prelude.{◌≡◌, ◌==◌, ◌+◌, ◌≤◌, IfOk, if◌then◌else◌};
ghost use Rattle.cdf_area.specs.Calls.{Reads};
ghost use Rattle.cdf_format.specs.Fields.{LiesIn, has_bit};
ghost use Rattle.cdf_format.specs.Records.{vdr_compression_bit, vdr_name};
ghost use Rattle.cdf_format.specs.VariableFields.{sparse_at};
ghost use Rattle.cdf_format.specs.WellFormed.{Good};
ghost use Rattle.cdf_model.specs.Events.{variable_event};
ghost use Rattle.cdf_model.specs.declared.kinds.Sparse.TheVariants as sparse;
ghost use Rattle.cdf_var_records.specs.Descriptors.{IsVdr};
ghost use Rattle.cdf_var_records.specs.Records.{variable_at};

use crate::form::read_form;
use crate::record::{read_pad, says_vary};
use cdf_area::{Area, AreaError};
use cdf_format::fields::{VDR_BLOCKING_FACTOR, VDR_COMPRESSION_BIT, VDR_MAX_REC, VDR_S_RECORDS};
use cdf_format::flags::has_bit;
use cdf_model::{Bytes, Event, Kind, Sparse};
use cdf_records::{read_name, read_signed4, read_unsigned4};
use std::alloc::Global;

/// Whether records are packed, by the Flags of a descriptor.
pub fn says_packed(flags: u32) -> bool
    ensures { result ≡ has_bit flags vdr_compression_bit }
{
    has_bit(flags, VDR_COMPRESSION_BIT)
}

/// How a record is read that the variable lacks, by SRecords of its descriptor.
fn sparse_of(code: u32) -> Sparse
    ensures { result ≡ (if code == 0 then sparse.NoRule else (if code == 1 then sparse.Pad else sparse.Previous)) }
{
    match code {
        0 => Sparse::NoRule,
        1 => Sparse::Pad,
        _ => Sparse::Previous,
    }
}

/// How a record is read that the variable lacks whose descriptor stands at a place.
pub fn read_sparse<A: Area>(area: &mut A, vdr: u64) -> Result<Sparse, AreaError>
    requires { LiesIn (A.image area.old) vdr vdr_name }
    ensures sparse { IfOk result (λ rule. rule ≡ sparse_at (A.image area.old) vdr) }
    ensures area { Reads A.image A.frame A.faults A.edited area.old area.new result }
{
    // An image has fewer than 2^64 bytes, so no place in it overflows.
    let _size = area.size();
    let code = read_unsigned4(area, vdr + VDR_S_RECORDS)?;
    Ok(sparse_of(code))
}

/// What is told of a variable of a kind and a number, whose descriptor stands at a place of a good image.
#[tactic(auto, using(cdf_area::proofs::Calls::read_done, cdf_area::proofs::Calls::read_failed, cdf_area::proofs::Calls::read_more, cdf_area::proofs::Calls::read_once))]
pub fn read_variable<A: Area>(
    alloc: Global,
    area: &mut A,
    kind: Kind,
    num: u32,
    vdr: u64,
) -> Result<Event, AreaError>
    requires good { Good (A.image area.old) }
    requires vdr { IsVdr (A.image area.old) kind vdr }
    ensures event { IfOk result (λ event. event ≡ variable_event kind num (variable_at (A.image area.old) vdr)) }
    ensures area { Reads A.image A.frame A.faults A.edited area.old area.new result }
{
    // An image has fewer than 2^64 bytes, so no place in it overflows.
    let _size = area.size();
    let form = read_form(alloc, area, kind, vdr)?;
    let pad = read_pad(alloc, area, &form)?;
    let name = read_name(alloc, area, vdr)?;
    let sparse = read_sparse(area, vdr)?;
    let blocking = read_signed4(area, vdr + VDR_BLOCKING_FACTOR)?;
    let max_rec = read_signed4(area, vdr + VDR_MAX_REC)?;
    let flags = form.place.flags;
    Ok(Event::Var {
        kind,
        num,
        name,
        t: form.shape.t,
        elems: form.shape.elems,
        vary: says_vary(flags),
        dims: form.shape.dims,
        varys: form.shape.varys,
        sparse,
        rle: says_packed(flags),
        blocking,
        max_rec,
        has_pad: pad.is_some(),
        pad: Bytes::new(pad.unwrap_or(Vec::new(alloc))),
    })
}
