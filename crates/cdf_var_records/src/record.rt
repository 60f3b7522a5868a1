//! What a record of a variable reads as.

ghost use Rattle.std.specs.Prelude.{◌≡◌, ◌+◌, ◌*◌, ◌%◌, ◌<◌, ◌≤◌, ℕ, List, ◌-◌, length, if◌then◌else◌, IfOk, Some};
ghost use Rattle.std.specs.List.{repeat};
ghost use Rattle.std.specs.Option.{option_map};
ghost use Rattle.cdf_area.specs.Calls.{Reads};
ghost use Rattle.cdf_format.specs.Content.{plain_bytes};
ghost use Rattle.cdf_format.specs.Fields.{has_bit, number};
ghost use Rattle.cdf_format.specs.Records.{vdr_pad_bit, vdr_variance_bit, vdr_vxr_head, past, vdr_name};
ghost use Rattle.cdf_format.specs.VariableFields.{max_rec_at, record_bytes};
ghost use Rattle.cdf_format.specs.WellFormed.{Good};
ghost use Rattle.cdf_index.specs.Finding.{HasIndex};
ghost use Rattle.cdf_index.specs.Order.{leaf_of};
ghost use Rattle.cdf_index.specs.Reading.{record_in};
ghost use Rattle.cdf_index.specs.Sight.{seen};
ghost use Rattle.cdf_model.specs.ByteOrder.{turned};
ghost use Rattle.cdf_model.specs.DataSet.{extent};
ghost use Rattle.cdf_model.specs.Limits.{image_limit};
ghost use Rattle.cdf_model.specs.Numbered.{item_at};
ghost use Rattle.cdf_model.specs.Pads.{default_value};
ghost use Rattle.cdf_model.specs.Place.{record_size, value_count};
ghost use Rattle.cdf_model.specs.Reading.{pad_record, pad_value, read};
ghost use Rattle.cdf_model.specs.RecordSteps.{cannot_be_put};
ghost use Rattle.cdf_model.specs.Types.{size_of};
ghost use Rattle.cdf_puts.specs.Starts.{IsKnownStart};
ghost use Rattle.cdf_var_records.specs.Next.{leaves_at};
ghost use Rattle.cdf_var_records.specs.Records.{IsForm, IsRecordShape, leaf_in, variable_at};
ghost use Rattle.cdf_var_records.specs.Unpacked.{IsUnpacked};

use crate::extent::read_extent;
use crate::form::Form;
use crate::previous::read_missing;
use crate::unpacked::Unpacked;
use cdf_area::{Area, AreaError};
use cdf_format::fields::{VDR_PAD_BIT, VDR_VARIANCE_BIT, VDR_VXR_HEAD};
use cdf_format::flags::has_bit;
use cdf_index::{Leaf, read_rec};
use cdf_model::limits::RECORD_NUMBER_LIMIT;
use cdf_model::{DataType, Encoding, default_pad};
use cdf_puts::find_leaf;
use cdf_records::{read_bytes, read_unsigned8};
use cdf_shape::{Shape, record_bytes};
use cdf_values::to_network;
use std::alloc::{AllocError, Global};

/// The bytes of a value.
pub fn value_size(shape: &Shape) -> u64
    requires { IsRecordShape shape.now }
    ensures { result ≡ size_of shape.now.t * shape.now.elems }
{
    u64::from(shape.t.size()) * u64::from(shape.elems)
}

/// The bytes of a record.
pub fn record_size_of(shape: &Shape) -> u64
    requires { IsRecordShape shape.now }
    ensures { result ≡ record_size shape.now.t shape.now.elems shape.now.dims shape.now.varys }
{
    record_bytes(shape).unwrap_or(0)
}

/// How many values a record has.
pub fn values_of(shape: &Shape) -> u64
    requires { IsRecordShape shape.now }
    ensures { result ≡ value_count shape.now.dims shape.now.varys }
{
    record_size_of(shape) / value_size(shape)
}

/// The bytes of elements of a type, as they are stored, turned into network order.
pub fn in_network_order(t: DataType, encoding: Encoding, mut bytes: Vec<u8>) -> Vec<u8>
    requires { length bytes.items % size_of t ≡ 0 }
    ensures { result.items ≡ turned t encoding.little bytes.items }
{
    to_network(t, encoding, &mut bytes);
    bytes
}

/// Whether there is a pad value, by the Flags of a descriptor.
fn says_pad(flags: u32) -> bool
    ensures { result ≡ has_bit flags vdr_pad_bit }
{
    has_bit(flags, VDR_PAD_BIT)
}

/// Whether records vary, by the Flags of a descriptor.
pub fn says_vary(flags: u32) -> bool
    ensures { result ≡ has_bit flags vdr_variance_bit }
{
    has_bit(flags, VDR_VARIANCE_BIT)
}

/// Whether a variable has no record of a number: it is past the greatest one, or records do not vary and it is not 0.
pub fn is_out_of_range(form: &Form, rec: u32) -> bool
    ensures { (b : List ℕ) → IsForm b form.now → result ≡ cannot_be_put (variable_at b form.now.place.vdr) rec }
{
    rec > RECORD_NUMBER_LIMIT || !says_vary(form.place.flags) && rec != 0
}

/// The number of the record that is read, by the Flags of a descriptor: 0 where records do not vary.
fn number_of(flags: u32, rec: u32) -> u32
    ensures { result ≡ (if has_bit flags vdr_variance_bit then rec else 0) }
{
    if says_vary(flags) { rec } else { 0 }
}

/// The value that stands where none was written, of a variable without a pad value.
fn default_value(alloc: Global, shape: &Shape) -> Result<Vec<u8>, AllocError>
    requires { IsRecordShape shape.now }
    ensures { IfOk result (λ bytes. bytes.items ≡ default_value shape.now.t shape.now.elems) }
{
    let mut bytes = Vec::new(alloc);
    bytes.resize(value_size(shape) as usize, 0)?;
    default_pad(shape.t, shape.elems, &mut bytes);
    Ok(bytes)
}

/// The pad value of a variable, in network order; none where its Flags say that there is none.
#[tactic(auto, using(cdf_area::proofs::Calls::read_done, cdf_area::proofs::Calls::read_failed, cdf_area::proofs::Calls::read_more, cdf_area::proofs::Calls::read_once))]
pub fn read_pad<A: Area>(
    alloc: Global,
    area: &mut A,
    form: &Form,
) -> Result<Option<Vec<u8>>, AreaError>
    requires good { Good (A.image area.old) }
    requires form { IsForm (A.image area.old) form.now }
    ensures pad { IfOk result (λ found. option_map (λ bytes. bytes.items) found ≡ (variable_at (A.image area.old) form.now.place.vdr).pad) }
    ensures area { Reads A.image A.frame A.faults A.edited area.old area.new result }
{
    let place = form.place;
    if !says_pad(place.flags) {
        return Ok(None);
    }
    // An image has fewer than 2^64 bytes, so no place in it overflows.
    let _size = area.size();
    let size = value_size(&form.shape);
    let bytes = read_bytes(alloc, area, place.vdr + place.at, size)?;
    Ok(Some(in_network_order(place.t, form.encoding, bytes)))
}

/// The value that stands where none was written, in network order.
#[tactic(auto, using(cdf_area::proofs::Calls::read_done, cdf_area::proofs::Calls::read_failed, cdf_area::proofs::Calls::read_more, cdf_area::proofs::Calls::read_once))]
fn read_pad_value<A: Area>(alloc: Global, area: &mut A, form: &Form) -> Result<Vec<u8>, AreaError>
    requires good { Good (A.image area.old) }
    requires form { IsForm (A.image area.old) form.now }
    ensures value { IfOk result (λ bytes. bytes.items ≡ pad_value (variable_at (A.image area.old) form.now.place.vdr)) }
    ensures area { Reads A.image A.frame A.faults A.edited area.old area.new result }
{
    match read_pad(alloc, area, form)? {
        Some(bytes) => Ok(bytes),
        None => {
            let filler = default_value(alloc, &form.shape)?;
            Ok(filler)
        }
    }
}

/// A value so many times, one after the other.
fn repeated(alloc: Global, value: &[u8], count: u64) -> Result<Vec<u8>, AllocError>
    ensures { IfOk result (λ bytes. bytes.items ≡ repeat count value.now) }
{
    let mut bytes = Vec::new(alloc);
    for _ in 0..count {
        bytes.extend_from_slice(value)?;
    }
    Ok(bytes)
}

/// A record where none was written, in network order.
#[tactic(auto, using(cdf_area::proofs::Calls::read_done, cdf_area::proofs::Calls::read_failed, cdf_area::proofs::Calls::read_more, cdf_area::proofs::Calls::read_once))]
pub fn read_pad_record<A: Area>(
    alloc: Global,
    area: &mut A,
    form: &Form,
) -> Result<Vec<u8>, AreaError>
    requires good { Good (A.image area.old) }
    requires form { IsForm (A.image area.old) form.now }
    ensures record { IfOk result (λ bytes. bytes.items ≡ pad_record (variable_at (A.image area.old) form.now.place.vdr)) }
    ensures area { Reads A.image A.frame A.faults A.edited area.old area.new result }
{
    let value = read_pad_value(alloc, area, form)?;
    let all = record_size_of(&form.shape);
    let one = value_size(&form.shape);
    let bytes = repeated(alloc, &value, all / one)?;
    Ok(bytes)
}

/// A record, as it is stored, out of the leaf that has it.
fn read_raw<A: Area>(
    alloc: Global,
    area: &mut A,
    unpacked: &mut Unpacked,
    form: &Form,
    leaf: &Leaf,
    rec: u32,
) -> Result<Vec<u8>, AreaError>
    requires good { Good (A.image area.old) }
    requires short { length (A.image area.old) ≤ image_limit }
    requires form { IsForm (A.image area.old) form.now }
    requires kept { IsUnpacked (A.image area.old) unpacked.old }
    requires leaf { Some (seen leaf.now) ≡ leaf_in (A.image area.old) form.now.place.vdr rec }
    ensures bytes { IfOk result (λ bytes. bytes.items ≡ record_in (plain_bytes (A.image area.old) form.now.place.vdr (seen leaf.now)) (record_bytes (A.image area.old) form.now.place.vdr) (rec - leaf.now.first)) }
    ensures kept { IsUnpacked (A.image area.old) unpacked.new }
    ensures area { Reads A.image A.frame A.faults A.edited area.old area.new result }
{
    let size = record_size_of(&form.shape);
    if !leaf.packed {
        return read_rec(alloc, area, leaf, size, rec);
    }
    let from = (rec - leaf.first) as u64 * size;
    let all = (leaf.last as u64 + 1 - leaf.first as u64) * size;
    unpacked.read_part(alloc, area, leaf.at, all, from, size)
}

/// A record, in network order, out of the leaf that has it.
#[tactic(auto, using(cdf_area::proofs::Calls::read_done, cdf_area::proofs::Calls::read_failed, cdf_area::proofs::Calls::read_more, cdf_area::proofs::Calls::read_once))]
pub fn read_in_leaf<A: Area>(
    alloc: Global,
    area: &mut A,
    unpacked: &mut Unpacked,
    form: &Form,
    leaf: &Leaf,
    rec: u32,
) -> Result<Vec<u8>, AreaError>
    requires good { Good (A.image area.old) }
    requires short { length (A.image area.old) ≤ image_limit }
    requires form { IsForm (A.image area.old) form.now }
    requires kept { IsUnpacked (A.image area.old) unpacked.old }
    requires leaf { Some (seen leaf.now) ≡ leaf_in (A.image area.old) form.now.place.vdr rec }
    ensures record { IfOk result (λ bytes. Some bytes.items ≡ item_at rec (variable_at (A.image area.old) form.now.place.vdr).recs) }
    ensures kept { IsUnpacked (A.image area.old) unpacked.new }
    ensures area { Reads A.image A.frame A.faults A.edited area.old area.new result }
{
    let raw = read_raw(alloc, area, unpacked, form, leaf, rec)?;
    Ok(in_network_order(form.place.t, form.encoding, raw))
}

/// The leaf that has a record, up to MaxRec, of the variable whose descriptor stands at a place. Of the top chain of its index a node may be known.
fn find_stored<A: Area>(
    area: &mut A,
    vdr: u64,
    known: Option<u64>,
    rec: u32,
) -> Result<Option<Leaf>, AreaError>
    requires lies { vdr + past vdr_name ≤ length (A.image area.old) }
    requires index { HasIndex (A.image area.old) (number (A.image area.old) vdr vdr_vxr_head) }
    requires known { IsKnownStart (A.image area.old) vdr known }
    requires short { length (A.image area.old) ≤ image_limit }
    ensures leaf { IfOk result (λ found. option_map seen found ≡ leaf_of rec (leaves_at (A.image area.old) vdr)) }
    ensures area { Reads A.image A.frame A.faults A.edited area.old area.new result }
{
    // An image has fewer than 2^64 bytes, so no place in it overflows.
    let _size = area.size();
    let head = read_unsigned8(area, vdr + VDR_VXR_HEAD)?;
    find_leaf(area, head, known, rec)
}

/// A record up to MaxRec that is stored, in network order; none where no block has it.
#[tactic(auto, using(cdf_area::proofs::Calls::read_done, cdf_area::proofs::Calls::read_failed, cdf_area::proofs::Calls::read_more, cdf_area::proofs::Calls::read_once))]
fn read_stored<A: Area>(
    alloc: Global,
    area: &mut A,
    unpacked: &mut Unpacked,
    form: &Form,
    known: Option<u64>,
    rec: u32,
) -> Result<Option<Vec<u8>>, AreaError>
    requires good { Good (A.image area.old) }
    requires short { length (A.image area.old) ≤ image_limit }
    requires form { IsForm (A.image area.old) form.now }
    requires kept { IsUnpacked (A.image area.old) unpacked.old }
    requires known { IsKnownStart (A.image area.old) form.now.place.vdr known }
    requires within { rec < extent (max_rec_at (A.image area.old) form.now.place.vdr) }
    ensures record { IfOk result (λ found. option_map (λ bytes. bytes.items) found ≡ item_at rec (variable_at (A.image area.old) form.now.place.vdr).recs) }
    ensures kept { IsUnpacked (A.image area.old) unpacked.new }
    ensures area { Reads A.image A.frame A.faults A.edited area.old area.new result }
{
    let found = find_stored(area, form.place.vdr, known, rec)?;
    let Some(leaf) = found else {
        return Ok(None);
    };
    let bytes = read_in_leaf(alloc, area, unpacked, form, &leaf, rec)?;
    Ok(Some(bytes))
}

/// What a record reads as, in network order: the one that is stored, or else what the variable's rule for missing records says. Past MaxRec it is
/// the pad value throughout. Of the top chain of the index a node may be known.
#[tactic(auto, using(cdf_area::proofs::Calls::read_done, cdf_area::proofs::Calls::read_failed, cdf_area::proofs::Calls::read_more, cdf_area::proofs::Calls::read_once))]
pub fn read_record<A: Area>(
    alloc: Global,
    area: &mut A,
    unpacked: &mut Unpacked,
    form: &Form,
    known: Option<u64>,
    rec: u32,
) -> Result<Vec<u8>, AreaError>
    requires good { Good (A.image area.old) }
    requires short { length (A.image area.old) ≤ image_limit }
    requires form { IsForm (A.image area.old) form.now }
    requires kept { IsUnpacked (A.image area.old) unpacked.old }
    requires known { IsKnownStart (A.image area.old) form.now.place.vdr known }
    ensures record { IfOk result (λ bytes. bytes.items ≡ read (variable_at (A.image area.old) form.now.place.vdr) rec) }
    ensures kept { IsUnpacked (A.image area.old) unpacked.new }
    ensures area { Reads A.image A.frame A.faults A.edited area.old area.new result }
{
    let number = number_of(form.place.flags, rec);
    let extent = read_extent(area, form.place.vdr)?;
    if number >= extent {
        return read_pad_record(alloc, area, form);
    }
    let stored = read_stored(alloc, area, unpacked, form, known, number)?;
    match stored {
        Some(bytes) => Ok(bytes),
        None => read_missing(alloc, area, unpacked, form, known, number),
    }
}
