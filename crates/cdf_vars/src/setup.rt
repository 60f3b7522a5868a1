//! The command `setup`: the encoding, the majority, and the dimensions that the r variables share.

ghost use Rattle.std.specs.Prelude.{◌≡◌, ◌+◌, ◌≤◌, ◌++◌, ◌==◌, ◌&&◌, ◌||◌, length, false, is_some, not, true, IfOk, OnOk, IsTrue};
ghost use Rattle.std.specs.Int.{cast_unsigned, w32};
ghost use Rattle.cdf_area.specs.Calls.{Edits, Reads};
ghost use Rattle.cdf_base.specs.Bytes.{put};
ghost use Rattle.cdf_edits.specs.Answers.{Answers};
ghost use Rattle.cdf_edits.specs.Commands.NewRecords.{with_bits};
ghost use Rattle.cdf_edits.specs.Commands.Setup.{majority_bit};
ghost use Rattle.cdf_edits.specs.Follows.{Follows};
ghost use Rattle.cdf_format.specs.Content.{content};
ghost use Rattle.cdf_format.specs.Fields.{LiesIn, flags, gdr_offset, size_at};
ghost use Rattle.cdf_format.specs.NewFile.{of_4_bytes};
ghost use Rattle.cdf_format.specs.Records.{cdr_copyright, cdr_majority_bit, cdr_place, gdr_bytes, gdr_r_dim_sizes, past, record_size};
ghost use Rattle.cdf_format.specs.WellFormed.{Good};
ghost use Rattle.cdf_model.specs.Encodings.{encoding_at};
ghost use Rattle.cdf_model.specs.Limits.{image_limit};
ghost use Rattle.cdf_model.specs.VariableSteps.{are_bad_sizes, is_empty_set};
ghost use Rattle.cdf_model.specs.Turns.{is_refused};
ghost use Rattle.cdf_model.specs.declared.command.Command.TheVariants.{Setup};
ghost use Rattle.cdf_vars.specs.Setup.{MakesGdr, MovesGdr, WritesHeads, gdr_fields};

use cdf_area::{Area, AreaError};
use cdf_format::fields::{CDR_MAJORITY_BIT, CDR_PLACE, GDR_R_DIM_SIZE, GDR_SIZE, RECORD_TYPE};
use cdf_model::{Encoding, Majority, Nums, Outcome, Reason, Reply};
use cdf_records::{
    Gdr, read_cdr, read_gdr, set_cdr_encoding, set_cdr_flags, set_cdr_gdr_offset,
    set_gdr_r_num_dims,
};
use cdf_space::{alloc_record, free_record};
use cdf_var_records::are_bad_sizes;
use std::alloc::{AllocError, Global};

/// The bytes of a Global Descriptor Record between its size and the sizes of its dimensions.
const FIELDS_SIZE: usize = (GDR_R_DIM_SIZE - RECORD_TYPE) as usize;

/// What the CDF Descriptor Record is to say: the code of the encoding, and Flags.
#[derive(Clone, Copy)]
struct NewCdr {
    encoding: u32,
    flags: u32,
}

/// What the bit of Flags counts that says that values stand row by row.
const BY_ROW: u32 = 1 << CDR_MAJORITY_BIT;

/// Flags with another majority.
fn majority_flags(flags: u32, majority: Majority) -> u32
    ensures { result ≡ with_bits flags cdr_majority_bit 1 (majority_bit majority) }
{
    let others = flags % BY_ROW + flags / (2 * BY_ROW) * (2 * BY_ROW);
    match majority {
        Majority::Row => others + BY_ROW,
        Majority::Column => others,
    }
}

/// Whether the encoding of this code is one of those that are read.
fn is_encoding(code: u32) -> bool
    ensures { result ≡ is_some (encoding_at code) }
{
    match i32::try_from(code) {
        Ok(code) => Encoding::of_code(code).is_some(),
        Err(_) => false,
    }
}

/// Appends the sizes of dimensions as they are stored.
fn push_sizes(bytes: &mut Vec<u8>, sizes: &[u32]) -> Result<(), AllocError>
    ensures { OnOk result (bytes.new.items ≡ bytes.old.items ++ of_4_bytes sizes.now) }
{
    for size in sizes {
        bytes.extend_from_slice(&size.to_be_bytes())?;
    }
    Ok(())
}

/// Writes the dimensions into the Global Descriptor Record at a place, and then GDRoffset, which leads to it, Encoding and Flags.
/// After an error a part of this may have been done.
fn write_heads<A: Area>(
    alloc: Global,
    area: &mut A,
    gdr: u64,
    encoding: u32,
    flags: u32,
    dims: &[u32],
) -> Result<(), AreaError>
    requires fine { are_bad_sizes dims.now ≡ false }
    requires cdr { LiesIn (A.image area.old) cdr_place cdr_copyright }
    requires room { LiesIn (A.image area.old) gdr (gdr_r_dim_sizes (length dims.now)) }
    ensures written { OnOk result (WritesHeads (A.image area.old) (A.image area.new) gdr encoding flags dims.now) }
    ensures area { Edits A.frame A.faults area.old area.new result }
{
    // An image has fewer than 2^64 bytes, so no place in it overflows.
    let _size = area.size();
    let mut bytes = Vec::new(alloc);
    push_sizes(&mut bytes, dims)?;
    set_gdr_r_num_dims(area, gdr, dims.len() as i32)?;
    area.set(gdr + GDR_R_DIM_SIZE, &bytes)?;
    set_cdr_gdr_offset(area, CDR_PLACE, gdr)?;
    set_cdr_encoding(area, CDR_PLACE, encoding.cast_signed())?;
    set_cdr_flags(area, CDR_PLACE, flags)
}

/// Copies a Global Descriptor Record over another one, but for its size and the sizes of its dimensions.
fn copy_gdr<A: Area>(area: &mut A, from: u64, to: u64) -> Result<(), AreaError>
    requires from { from + gdr_bytes 0 ≤ length (A.image area.old) }
    requires to { to + gdr_bytes 0 ≤ length (A.image area.old) }
    ensures long { length (A.image area.new) ≡ length (A.image area.old) }
    ensures copied { OnOk result (A.image area.new ≡ put (A.image area.old) (to + past record_size) (gdr_fields (A.image area.old) from)) }
    ensures area { Edits A.frame A.faults area.old area.new result }
{
    // An image has fewer than 2^64 bytes, so no place in it overflows.
    let _size = area.size();
    let mut bytes = [0u8; FIELDS_SIZE];
    area.get(from + RECORD_TYPE, &mut bytes)?;
    area.set(to + RECORD_TYPE, &bytes)
}

/// Makes a Global Descriptor Record with other dimensions in place of the old one, which still stands. It is copied once its record
/// is taken, since that writes UIRhead and eof. After an error a part of this may have been done.
fn make_gdr<A: Area>(
    alloc: Global,
    area: &mut A,
    old: u64,
    new: NewCdr,
    dims: &[u32],
) -> Result<u64, AreaError>
    requires good { Good (A.image area.old) }
    requires gdr { old ≡ gdr_offset (A.image area.old) }
    requires fine { are_bad_sizes dims.now ≡ false }
    requires room { length (A.image area.old) + gdr_bytes (length dims.now) ≤ (A.frame area.old).limit }
    requires limit { (A.frame area.old).limit ≤ image_limit }
    ensures made { IfOk result (λ place. MakesGdr (A.image area.old) (A.image area.new) new.encoding new.flags dims.now place) }
    ensures area { Edits A.frame A.faults area.old area.new result }
{
    let place = alloc_record(area, GDR_SIZE + 4 * dims.len() as u64)?;
    copy_gdr(area, old, place)?;
    write_heads(alloc, area, place, new.encoding, new.flags, dims)?;
    Ok(place)
}

/// Moves the Global Descriptor Record into one with room for the dimensions, and frees the old one.
/// After an error a part of this may have been done.
fn move_gdr<A: Area>(
    alloc: Global,
    area: &mut A,
    old: u64,
    new: NewCdr,
    dims: &[u32],
) -> Result<(), AreaError>
    requires good { Good (A.image area.old) }
    requires empty { is_empty_set (content (A.image area.old)) ≡ true }
    requires gdr { old ≡ gdr_offset (A.image area.old) }
    requires fine { are_bad_sizes dims.now ≡ false }
    requires room { length (A.image area.old) + gdr_bytes (length dims.now) ≤ (A.frame area.old).limit }
    requires limit { (A.frame area.old).limit ≤ image_limit }
    ensures moved { OnOk result (MovesGdr (A.image area.old) (A.image area.new) new.encoding new.flags dims.now) }
    ensures area { Edits A.frame A.faults area.old area.new result }
{
    let _place = make_gdr(alloc, area, old, new, dims)?;
    free_record(area, old)
}

/// What is read of the CDF Descriptor Record and the Global Descriptor Record: where the second stands, its size, Flags of the first,
/// and whether there is an attribute or a variable.
#[derive(Clone, Copy)]
struct Heads {
    gdr: u64,
    size: u64,
    flags: u32,
    in_use: bool,
}

/// Whether there is an attribute or a variable.
fn is_in_use(gdr: &Gdr) -> bool
    ensures { (((cast_unsigned w32 gdr.now.num_attr == 0) && (cast_unsigned w32 gdr.now.nr_vars == 0)) && (cast_unsigned w32 gdr.now.nz_vars == 0)) ≡ not result }
{
    gdr.num_attr != 0 || gdr.nr_vars != 0 || gdr.nz_vars != 0
}

/// Reads the two records of a good image.
fn read_heads<A: Area>(area: &mut A) -> Result<Heads, AreaError>
    requires { Good (A.image area.old) }
    ensures gdr { IfOk result (λ heads. heads.gdr ≡ gdr_offset (A.image area.old)) }
    ensures size { IfOk result (λ heads. heads.size ≡ size_at (A.image area.old) (gdr_offset (A.image area.old))) }
    ensures flags { IfOk result (λ heads. heads.flags ≡ flags (A.image area.old)) }
    ensures in_use { IfOk result (λ heads. is_empty_set (content (A.image area.old)) ≡ not heads.in_use) }
    ensures area { Reads A.image A.frame A.faults A.edited area.old area.new result }
{
    let cdr = read_cdr(area, CDR_PLACE)?;
    let gdr = read_gdr(area, cdr.gdr_offset)?;
    Ok(Heads {
        gdr: cdr.gdr_offset,
        size: gdr.record_size,
        flags: cdr.flags,
        in_use: is_in_use(&gdr),
    })
}

/// Carries the command out, whose Global Descriptor Record moves where it has no room for the dimensions.
/// After an error a part of this may have been done.
fn carry_out<A: Area>(
    alloc: Global,
    area: &mut A,
    heads: Heads,
    encoding: u32,
    majority: Majority,
    dims: &[u32],
) -> Result<(), AreaError>
    requires good { Good (A.image area.old) }
    requires empty { is_empty_set (content (A.image area.old)) ≡ true }
    requires gdr { heads.gdr ≡ gdr_offset (A.image area.old) }
    requires size { heads.size ≡ size_at (A.image area.old) (gdr_offset (A.image area.old)) }
    requires flags { heads.flags ≡ flags (A.image area.old) }
    requires encoding { is_some (encoding_at encoding) ≡ true }
    requires fine { are_bad_sizes dims.now ≡ false }
    requires room { length (A.image area.old) + gdr_bytes (length dims.now) ≤ (A.frame area.old).limit }
    requires limit { (A.frame area.old).limit ≤ image_limit }
    ensures follows { OnOk result (Follows (A.image area.old) (Setup encoding majority dims.now) (A.image area.new)) }
    ensures area { Edits A.frame A.faults area.old area.new result }
{
    let new = NewCdr {
        encoding,
        flags: majority_flags(heads.flags, majority),
    };
    if GDR_SIZE + 4 * dims.len() as u64 <= heads.size {
        write_heads(alloc, area, heads.gdr, new.encoding, new.flags, dims)
    } else {
        move_gdr(alloc, area, heads.gdr, new, dims)
    }
}

/// Sets the encoding, the majority, and the dimensions that the r variables share, where there is no attribute and no variable: the
/// command `setup`. After an error a part of this may have been done in the area.
pub fn set_up<A: Area>(
    alloc: Global,
    area: &mut A,
    encoding: u32,
    majority: Majority,
    dims: &Nums,
) -> Result<Outcome, AreaError>
    requires good { Good (A.image area.old) }
    requires fits { length (A.image area.old) ≤ (A.frame area.old).limit }
    requires limit { (A.frame area.old).limit ≤ image_limit }
    ensures answers { IfOk result (λ o. Answers (A.frame area.old).limit (A.image area.old) (Setup encoding majority dims.now) o (A.image area.new)) }
    ensures refused { IfOk result (λ o. IsTrue (is_refused o) → A.edited area.new ≡ A.edited area.old) }
    ensures area { Edits A.frame A.faults area.old area.new result }
{
    let sizes = dims.as_slice();
    if !is_encoding(encoding) {
        return Ok(Outcome::Refused {
            reason: Reason::NumberOutOfRange,
        });
    }
    if are_bad_sizes(sizes) {
        return Ok(Outcome::Refused {
            reason: Reason::BadShape,
        });
    }
    let heads = read_heads(area)?;
    if heads.in_use {
        return Ok(Outcome::Refused {
            reason: Reason::InUse,
        });
    }
    if area.limit() < area.size() + (GDR_SIZE + 4 * sizes.len() as u64) {
        return Ok(Outcome::Refused {
            reason: Reason::TooLarge,
        });
    }
    carry_out(alloc, area, heads, encoding, majority, sizes)?;
    Ok(Outcome::Done {
        reply: Reply::Plain,
    })
}
