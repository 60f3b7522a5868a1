//! An open log read as the journal of a file, which is filled from it in memory.

ghost use Rattle.std.specs.Prelude.{◌≡◌, ◌≤◌, ◌+◌, ◌++◌, ◌∷◌, ◌&&◌, [], length, nat_le, true, false, IfOk, IfSome, MatchOption, OnOk};
ghost use Rattle.byteorder.specs.Endian.{big_from};
ghost use Rattle.cdf_base.specs.Bytes.{put};
ghost use Rattle.cdf_journal.specs.Loading.{Loads, Patches, fit_members};

use crate::Range;
use crate::slices::{behind, front};
use byteorder::{BigEndian, ByteOrder};
use cdf_store::put_in;
use std::alloc::AllocError;

/// Puts bytes at a place of a file, and keeps their range.
fn put_member(
    file: &mut Vec<u8>,
    ranges: &mut Vec<Range>,
    place: usize,
    bytes: &[u8],
) -> Result<(), AllocError>
    requires { place ≤ length file.old.items }
    ensures file { OnOk result (file.new.items ≡ put file.old.items place bytes.now) }
    ensures ranges { OnOk result (ranges.new.items ≡ ranges.old.items ++ record { place = place; count = length bytes.now } ∷ []) }
{
    file.reserve(bytes.len())?;
    let count = bytes.len();
    ranges.push(Range { place, count })?;
    put_in(file, place, bytes);
    Ok(())
}

/// What a member begins with: its place, and how many bytes it has.
#[derive(Clone, Copy)]
struct Head {
    place: u64,
    size: u64,
}

/// What the first member begins with, where the bytes are enough for it.
fn head_of(bytes: &[u8]) -> Option<Head>
    ensures room { IfSome result (λ head. 16 + head.size ≤ length bytes.now) }
    ensures head { MatchOption result (nat_le (16 + big_from 8 8 bytes.now) (length bytes.now) ≡ false)
        (λ head. (nat_le (16 + big_from 8 8 bytes.now) (length bytes.now) ≡ true) × (head.place ≡ big_from 0 8 bytes.now) × (head.size ≡ big_from 8 8 bytes.now)) }
{
    if bytes.len() < 16 {
        return None;
    }
    let place = BigEndian::read_u64(bytes);
    let size = BigEndian::read_u64(&bytes[8..]);
    if size > (bytes.len() - 16) as u64 {
        return None;
    }
    Some(Head { place, size })
}

/// Whether a member fits a file that is to have so many bytes.
fn is_fit(head: Head, file: &[u8], new_length: u64) -> bool
    ensures { result ≡ (nat_le head.place (length file.now) && nat_le (head.place + head.size) new_length) }
{
    head.place <= file.len() as u64
        && head.place <= new_length
        && head.size <= new_length - head.place
}

/// Writes so many members into a file, of which the first one begins the bytes, and answers whether there are as many that fit it.
fn patch(
    bytes: &[u8],
    count: u64,
    new_length: u64,
    file: &mut Vec<u8>,
    ranges: &mut Vec<Range>,
) -> Result<bool, AllocError>
    ensures { IfOk result (Patches (fit_members (length file.old.items) new_length count bytes.now) file.old.items ranges.old.items file.new.items ranges.new.items) }
{
    let mut rest = bytes;
    let mut left = count;
    while left > 0 {
        let Some(head) = head_of(rest) else {
            return Ok(false);
        };
        if !is_fit(head, file, new_length) {
            return Ok(false);
        }
        let body = behind(rest, 16);
        let piece = front(body, head.size as usize);
        let next = behind(body, head.size as usize);
        put_member(file, ranges, head.place as usize, piece)?;
        rest = next;
        left -= 1;
    }
    Ok(new_length <= file.len() as u64)
}

/// Fills a file from an open log, and answers whether that is its journal.
pub fn load(log: &[u8], file: &mut Vec<u8>, ranges: &mut Vec<Range>) -> Result<bool, AllocError>
    requires { ranges.old.items ≡ [] }
    ensures { IfOk result (Loads log.now file.old.items file.new.items ranges.new.items) }
{
    if log.len() < 24 {
        return Ok(false);
    }
    let new_length = BigEndian::read_u64(&log[8..]);
    let count = BigEndian::read_u64(&log[16..]);
    let is_journal = patch(&log[24..], count, new_length, file, ranges)?;
    if is_journal {
        file.truncate(new_length as usize);
    }
    Ok(is_journal)
}
