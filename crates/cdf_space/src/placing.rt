//! Records taken from the unused list or at the end of the image, and freed.

ghost use Rattle.std.specs.Prelude.{◌≡◌, ◌≢◌, ◌⊎◌, ◌<◌, ◌≤◌, ◌+◌, ◌^◌, length, replicate, IfOk, OnOk, MatchOption};
ghost use Rattle.cdf_base.specs.Bytes.{put};
ghost use Rattle.cdf_area.specs.Calls.{Edits, Reads};
ghost use Rattle.cdf_format.specs.Sound.{IsSound};
ghost use Rattle.cdf_format.specs.Content.{content};
ghost use Rattle.cdf_format.specs.Fields.{eof, gdr_offset};
ghost use Rattle.cdf_format.specs.Owners.{owned_records, times};
ghost use Rattle.cdf_edits.specs.Space.Freeing.{AllGiven, AreFree};
ghost use Rattle.cdf_edits.specs.Space.Placement.{Gives, Takes, fits};
ghost use Rattle.cdf_format.specs.Shape.{shape};
ghost use Rattle.cdf_edits.specs.Space.Taking.{EndBytes, IsTaken, NoneFit};
ghost use Rattle.cdf_format.specs.Tiles.{In};
ghost use Rattle.cdf_format.specs.Records.{past, linked_size, link_size, record_size, uir_prev_uir, gdr_eof};
ghost use Rattle.cdf_model.specs.Limits.{image_limit};
ghost use Rattle.cdf_space.specs.Fits.{Cleared, IsFirstFit, Listed, Relinked};
ghost use Rattle.cdf_edits.specs.Space.Placing.{IsBody, Placed};

use cdf_area::{Area, AreaError};
use cdf_format::fields::{
    CDR_GDR_OFFSET, CDR_PLACE, GDR_UIR_HEAD, LEAST_SIZE, LINKED_SIZE, RECORD_TYPE, UIR_NEXT_UIR,
};
use cdf_records::{
    read_uir, read_unsigned8, set_gdr_eof, set_record_size, set_record_type, set_uir_next_uir,
    set_uir_prev_uir, set_unsigned8,
};

/// How many bytes are cleared at once.
const PIECE: usize = 4096;

/// An unused record of the list: where the link stands that leads to it, the record before it, 0 where there is none, and what it says.
#[derive(Clone, Copy)]
struct Fit {
    link: u64,
    before: u64,
    place: u64,
    size: u64,
    next: u64,
}

/// A record of this size is taken whole, or so that the rest is a record of the unused list.
fn is_fit(need: u64, size: u64) -> bool
    requires { need + linked_size < 2 ^ 64 }
    ensures { result ≡ fits need size }
{
    size == need || need + LINKED_SIZE <= size
}

/// The first record of the unused list that fits.
fn first_fit<A: Area>(area: &mut A, gdr: u64, need: u64) -> Result<Option<Fit>, AreaError>
    requires sound { IsSound (A.image area.old) (shape (A.image area.old)) }
    requires gdr { gdr ≡ gdr_offset (A.image area.old) }
    requires short { length (A.image area.old) ≤ image_limit }
    requires need { need ≤ image_limit }
    ensures found { IfOk result (λ found. MatchOption found (NoneFit (A.image area.old) need (shape (A.image area.old)).unused) (IsFirstFit (A.image area.old) (shape (A.image area.old)) need)) }
    ensures area { Reads A.image A.frame A.faults A.edited area.old area.new result }
{
    let mut link = gdr + GDR_UIR_HEAD;
    let mut before = 0;
    let mut place = read_unsigned8(area, link)?;
    for _ in 0..u32::MAX {
        if place == 0 {
            return Ok(None);
        }
        let uir = read_uir(area, place)?;
        if is_fit(need, uir.record_size) {
            let fit = Fit {
                link,
                before,
                place,
                size: uir.record_size,
                next: uir.next_uir,
            };
            return Ok(Some(fit));
        }
        before = place;
        link = place + UIR_NEXT_UIR;
        place = uir.next_uir;
    }
    Ok(None)
}

/// Writes `count` bytes 0, a piece at most.
fn set_zeros<A: Area>(area: &mut A, from: u64, count: usize) -> Result<(), AreaError>
    requires piece { count ≤ 4096 }
    requires room { from + count ≤ length (A.image area.old) }
    ensures written { OnOk result (A.image area.new ≡ put (A.image area.old) from (replicate count 0)) }
    ensures area { Edits A.frame A.faults area.old area.new result }
{
    let zeros = [0u8; PIECE];
    area.set(from, &zeros[..count])
}

/// Makes so many bytes from a place on 0.
fn clear<A: Area>(area: &mut A, from: u64, n: u64) -> Result<(), AreaError>
    requires { from + n ≤ length (A.image area.old) }
    ensures cleared { OnOk result (Cleared (A.image area.old) (A.image area.new) from n) }
    ensures area { Edits A.frame A.faults area.old area.new result }
{
    let _size = area.size();
    let mut done = 0u64;
    while done < n {
        let count = (n - done).min(PIECE as u64) as usize;
        set_zeros(area, from + done, count)?;
        done += count as u64;
    }
    Ok(())
}

/// Writes size, type and links of an unused record.
fn list<A: Area>(
    area: &mut A,
    place: u64,
    size: u64,
    next: u64,
    before: u64,
) -> Result<(), AreaError>
    requires { place + linked_size ≤ length (A.image area.old) }
    ensures listed { OnOk result (Listed (A.image area.old) (A.image area.new) place size next before) }
    ensures area { Edits A.frame A.faults area.old area.new result }
{
    set_record_size(area, place, size)?;
    set_record_type(area, place, -1)?;
    set_uir_next_uir(area, place, next)?;
    set_uir_prev_uir(area, place, before)
}

/// Leads the link to a record of the list past it, and the link back of the next record too.
fn relink<A: Area>(area: &mut A, fit: Fit, to: u64, back: u64) -> Result<(), AreaError>
    requires link { fit.link + link_size ≤ length (A.image area.old) }
    requires next { fit.next ≢ 0 → fit.next + linked_size ≤ length (A.image area.old) }
    requires apart { fit.next ≢ 0 → (fit.link + link_size ≤ fit.next + uir_prev_uir.place) ⊎ (fit.next + past uir_prev_uir ≤ fit.link) }
    ensures relinked { OnOk result (Relinked (A.image area.old) (A.image area.new) fit to back) }
    ensures area { Edits A.frame A.faults area.old area.new result }
{
    set_unsigned8(area, fit.link, 0, to)?;
    if fit.next == 0 {
        return Ok(());
    }
    set_uir_prev_uir(area, fit.next, back)
}

/// Takes a record of the list whole.
fn take_whole<A: Area>(area: &mut A, fit: Fit, need: u64) -> Result<(), AreaError>
    requires sound { IsSound (A.image area.old) (shape (A.image area.old)) }
    requires fit { IsFirstFit (A.image area.old) (shape (A.image area.old)) need fit }
    requires size { fit.size ≡ need }
    requires need { linked_size ≤ need }
    requires short { length (A.image area.old) ≤ image_limit }
    requires eof { eof (A.image area.old) (gdr_offset (A.image area.old)) ≡ length (A.image area.old) }
    ensures taken { OnOk result (IsTaken (A.image area.old) (A.image area.new) (shape (A.image area.old)) (shape (A.image area.new)) need fit.place) }
    ensures area { Edits A.frame A.faults area.old area.new result }
{
    relink(area, fit, fit.next, fit.before)?;
    clear(area, fit.place + LEAST_SIZE, need - LEAST_SIZE)
}

/// Takes a record of the list in part: the rest stays at its higher end, in its place of the list.
fn take_part<A: Area>(area: &mut A, fit: Fit, need: u64) -> Result<(), AreaError>
    requires sound { IsSound (A.image area.old) (shape (A.image area.old)) }
    requires fit { IsFirstFit (A.image area.old) (shape (A.image area.old)) need fit }
    requires size { fit.size ≢ need }
    requires need { linked_size ≤ need }
    requires short { length (A.image area.old) ≤ image_limit }
    requires eof { eof (A.image area.old) (gdr_offset (A.image area.old)) ≡ length (A.image area.old) }
    ensures taken { OnOk result (IsTaken (A.image area.old) (A.image area.new) (shape (A.image area.old)) (shape (A.image area.new)) need fit.place) }
    ensures area { Edits A.frame A.faults area.old area.new result }
{
    let rest = fit.place + need;
    list(area, rest, fit.size - need, fit.next, fit.before)?;
    relink(area, fit, rest, rest)?;
    set_record_size(area, fit.place, need)?;
    clear(area, fit.place + LEAST_SIZE, need - LEAST_SIZE)
}

/// Takes a record of the list, whole or in part.
fn take_listed<A: Area>(area: &mut A, fit: Fit, need: u64) -> Result<(), AreaError>
    requires sound { IsSound (A.image area.old) (shape (A.image area.old)) }
    requires fit { IsFirstFit (A.image area.old) (shape (A.image area.old)) need fit }
    requires need { linked_size ≤ need }
    requires short { length (A.image area.old) ≤ image_limit }
    requires eof { eof (A.image area.old) (gdr_offset (A.image area.old)) ≡ length (A.image area.old) }
    ensures taken { OnOk result (IsTaken (A.image area.old) (A.image area.new) (shape (A.image area.old)) (shape (A.image area.new)) need fit.place) }
    ensures area { Edits A.frame A.faults area.old area.new result }
{
    if fit.size == need {
        return take_whole(area, fit, need);
    }
    take_part(area, fit, need)
}

/// Takes a record at the end of the image.
fn take_end<A: Area>(area: &mut A, gdr: u64, need: u64) -> Result<u64, AreaError>
    requires gdr { gdr + past gdr_eof ≤ length (A.image area.old) }
    requires need { linked_size ≤ need }
    requires room { length (A.image area.old) + need ≤ (A.frame area.old).limit }
    requires limit { (A.frame area.old).limit ≤ image_limit }
    ensures place { IfOk result (λ place. place ≡ length (A.image area.old)) }
    ensures taken { OnOk result (EndBytes (A.image area.old) (A.image area.new) gdr need) }
    ensures area { Edits A.frame A.faults area.old area.new result }
{
    let place = area.size();
    area.extend(need)?;
    set_record_size(area, place, need)?;
    set_record_type(area, place, -1)?;
    set_gdr_eof(area, gdr, place + need)?;
    Ok(place)
}

/// Takes a record of so many bytes, and gives its place: the first unused record of the list that fits, else the end of the image.
/// It then stands there with type UIR, on no list, its bytes after the type 0. After an error a part of this may have been done.
pub fn alloc_record<A: Area>(area: &mut A, need: u64) -> Result<u64, AreaError>
    requires sound { IsSound (A.image area.old) (shape (A.image area.old)) }
    requires eof { eof (A.image area.old) (gdr_offset (A.image area.old)) ≡ length (A.image area.old) }
    requires need { linked_size ≤ need }
    requires room { length (A.image area.old) + need ≤ (A.frame area.old).limit }
    requires limit { (A.frame area.old).limit ≤ image_limit }
    ensures takes { IfOk result (λ place. Takes (A.image area.old) (A.image area.new) (shape (A.image area.old)) (shape (A.image area.new)) need place) }
    ensures sound { OnOk result (IsSound (A.image area.new) (shape (A.image area.new))) }
    ensures content { OnOk result (content (A.image area.new) ≡ content (A.image area.old)) }
    ensures area { Edits A.frame A.faults area.old area.new result }
{
    let gdr = read_unsigned8(area, CDR_PLACE + CDR_GDR_OFFSET)?;
    let Some(fit) = first_fit(area, gdr, need)? else {
        return take_end(area, gdr, need);
    };
    take_listed(area, fit, need)?;
    Ok(fit.place)
}

/// Takes a record and writes it: its size and these bytes, which begin with its type. Gives its place, that of `alloc_record`.
/// After an error a part of this may have been done.
pub fn place_record<A: Area>(area: &mut A, bytes: &[u8]) -> Result<u64, AreaError>
    requires sound { IsSound (A.image area.old) (shape (A.image area.old)) }
    requires eof { eof (A.image area.old) (gdr_offset (A.image area.old)) ≡ length (A.image area.old) }
    requires body { IsBody bytes.now }
    requires room { length (A.image area.old) + (record_size.width + length bytes.now) ≤ (A.frame area.old).limit }
    requires limit { (A.frame area.old).limit ≤ image_limit }
    ensures placed { IfOk result (λ place. Placed (A.image area.old) (A.image area.new) bytes.now place) }
    ensures sound { OnOk result (IsSound (A.image area.new) (shape (A.image area.new))) }
    ensures content { OnOk result (content (A.image area.new) ≡ content (A.image area.old)) }
    ensures area { Edits A.frame A.faults area.old area.new result }
{
    let need = RECORD_TYPE + bytes.len() as u64;
    let place = alloc_record(area, need)?;
    area.set(place + RECORD_TYPE, bytes)?;
    Ok(place)
}

/// Frees a record that nothing leads to any more: it gets the type UIR, and with at least 28 bytes it becomes the head of the unused list.
/// After an error a part of this may have been done.
pub fn free_record<A: Area>(area: &mut A, place: u64) -> Result<(), AreaError>
    requires sound { IsSound (A.image area.old) (shape (A.image area.old)) }
    requires stands { In place (shape (A.image area.old)).records }
    requires free { times place (owned_records (A.image area.old) (shape (A.image area.old))) ≡ 0 }
    ensures gives { OnOk result (Gives (A.image area.old) (A.image area.new) (shape (A.image area.old)) (shape (A.image area.new)) place) }
    ensures sound { OnOk result (IsSound (A.image area.new) (shape (A.image area.new))) }
    ensures content { OnOk result (content (A.image area.new) ≡ content (A.image area.old)) }
    ensures area { Edits A.frame A.faults area.old area.new result }
{
    let _length = area.size();
    let size = read_unsigned8(area, place)?;
    let gdr = read_unsigned8(area, CDR_PLACE + CDR_GDR_OFFSET)?;
    let next = read_unsigned8(area, gdr + GDR_UIR_HEAD)?;
    set_record_type(area, place, -1)?;
    if size < LINKED_SIZE {
        return Ok(());
    }
    set_uir_next_uir(area, place, next)?;
    set_uir_prev_uir(area, place, 0)?;
    let head = Fit {
        link: gdr + GDR_UIR_HEAD,
        before: 0,
        place,
        size,
        next,
    };
    relink(area, head, place, place)
}

/// Frees records that nothing leads to any more, one after the other. After an error a part of this may have been done.
pub fn free_records<A: Area>(area: &mut A, places: &[u64]) -> Result<(), AreaError>
    requires sound { IsSound (A.image area.old) (shape (A.image area.old)) }
    requires free { AreFree (A.image area.old) places.now }
    ensures given { OnOk result (AllGiven (A.image area.old) (A.image area.new) places.now) }
    ensures sound { OnOk result (IsSound (A.image area.new) (shape (A.image area.new))) }
    ensures content { OnOk result (content (A.image area.new) ≡ content (A.image area.old)) }
    ensures area { Edits A.frame A.faults area.old area.new result }
{
    for place in places {
        free_record(area, *place)?;
    }
    Ok(())
}
