//! An area in memory.

ghost use Rattle.std.specs.Prelude.{◌≡◌, ◌+◌, ◌-◌, ◌≤◌, ◌<◌, ◌^◌, ◌++◌, length, take, drop, replicate, true, IsOk, OnOk, OnErr};
ghost use Rattle.cdf_base.specs.Bytes.{put};
ghost use Rattle.cdf_area.specs.Base.{FitsIn, base_at, base_of};
ghost use Rattle.cdf_area.specs.OldBytes.{AllLieBelow};
ghost use Rattle.cdf_area.specs.Frame.{Frame};

use crate::undo_log::{UndoLog, put_bytes};
use crate::{Area, AreaError};
use std::alloc::{AllocError, Global};

/// The size at the mark, and the old bytes of what was written below it since.
#[derive(Drop)]
pub struct Mark {
    pub size: usize,
    pub log: UndoLog,
}

/// An area in memory.
///
/// While there is a mark, the old bytes of each write are kept before it, with its place and length. Bytes that were
/// appended since the mark are not kept. So going back takes no memory, and costs in proportion to what was written.
#[derive(Drop)]
pub struct MemArea {
    alloc: Global,
    bytes: Vec<u8>,
    limit: u64,
    marked: Option<Mark>,
    ghost fits: { FitsIn (length bytes.items) marked },
}

impl MemArea {
    /// These bytes as they are, which may be more than the limit, without a mark.
    pub fn new(alloc: Global, bytes: Vec<u8>, limit: u64) -> Self
        ensures image { ⟦<MemArea as Area>⟧.image result ≡ bytes.items }
        ensures base { (⟦<MemArea as Area>⟧.frame result).base ≡ None }
        ensures limit { (⟦<MemArea as Area>⟧.frame result).limit ≡ limit }
        // No call of such an area answers a fault.
        ensures faultless { (area : MemArea) → ⟦<MemArea as Area>⟧.faults area ≡ 0 }
    {
        MemArea {
            alloc,
            bytes,
            limit,
            marked: None,
        }
    }

    /// The bytes of the image, whether or not there is a mark.
    pub fn into_bytes(self) -> Vec<u8>
        ensures { result.items ≡ ⟦<MemArea as Area>⟧.image self }
    {
        self.bytes
    }
}

impl Mark {
    /// Keeps the old bytes of a range that is to be written over, as far as they are of the marked image.
    fn keep_old(&mut self, bytes: &[u8], place: usize, written: &[u8]) -> Result<(), AllocError>
        requires range { place + length written.now ≤ length bytes.now }
        requires size { self.old.size ≤ length bytes.now }
        requires below { AllLieBelow self.old.size self.old.log }
        ensures size { self.new.size ≡ self.old.size }
        ensures below { AllLieBelow self.new.size self.new.log }
        ensures base { OnOk result (base_at self.new (put bytes.now place written.now) ≡ base_at self.old bytes.now) }
        ensures stays { OnErr result (self.new ≡ self.old) }
    {
        let end = self.size.min(place + written.len());
        if place < end {
            self.log.push(place, &bytes[place..end])?;
        }
        Ok(())
    }
}

/// Keeps the old bytes of a range that is to be written over, where there is a mark, so that the write leaves the base.
fn keep_old(
    marked: &mut Option<Mark>,
    bytes: &[u8],
    place: usize,
    written: &[u8],
) -> Result<(), AllocError>
    requires range { place + length written.now ≤ length bytes.now }
    requires fits { FitsIn (length bytes.now) marked.old }
    ensures fits { FitsIn (length bytes.now) marked.new }
    ensures base { OnOk result (base_of marked.new (put bytes.now place written.now) ≡ base_of marked.old bytes.now) }
    ensures stays { OnErr result (marked.new ≡ marked.old) }
{
    match marked {
        Some(mark) => mark.keep_old(bytes, place, written),
        None => Ok(()),
    }
}

/// Appends bytes that are 0.
fn grow(bytes: &mut Vec<u8>, n: usize) -> Result<(), AllocError>
    requires { length bytes.old.items + n < 2 ^ 64 }
    ensures ok { OnOk result (bytes.new.items ≡ bytes.old.items ++ replicate n 0) }
    ensures err { OnErr result (bytes.new.items ≡ bytes.old.items) }
{
    let size = bytes.len() + n;
    bytes.resize(size, 0)
}

impl Area for MemArea {
    ghost image = { λ area. area.bytes.items };

    ghost Under = { Unit {0} };

    ghost frame = { λ area. record { base = base_of area.marked area.bytes.items; limit = area.limit; under = tt } };

    ghost faults = { λ area. 0 };

    // It is not kept.
    ghost edited = { λ area. true };

    fn size(&self) -> u64 {
        self.bytes.len() as u64
    }

    fn limit(&self) -> u64 {
        self.limit
    }

    fn get(&mut self, place: u64, out: &mut [u8]) -> Result<(), AreaError>
        requires { place + length out.old ≤ length (⟦<MemArea as Area>⟧.image self.old) }
        ensures bytes { out.new ≡ take (length out.new) (drop place (⟦<MemArea as Area>⟧.image self.old)) }
        ensures ok { IsOk result }
        ensures same { self.new ≡ self.old }
    {
        let start = place as usize;
        let end = start + out.len();
        out.copy_from_slice(&self.bytes[start..end]);
        Ok(())
    }

    fn set(&mut self, place: u64, bytes: &[u8]) -> Result<(), AreaError> {
        let start = place as usize;
        keep_old(&mut self.marked, &self.bytes, start, bytes)?;
        put_bytes(&mut self.bytes, start, bytes);
        Ok(())
    }

    fn extend(&mut self, n: u64) -> Result<(), AreaError> {
        let _limit = self.limit;
        grow(&mut self.bytes, n as usize)?;
        Ok(())
    }

    fn shorten(&mut self, n: u64) {
        let size = self.bytes.len() - n as usize;
        self.bytes.truncate(size);
    }

    #[tactic(auto, using(std::proofs::lemmas::List::take_all), unfolding(crate::specs::OldBytes::back))]
    fn mark(&mut self) {
        self.marked = Some(Mark {
            size: self.bytes.len(),
            log: UndoLog::new(self.alloc),
        });
    }

    fn keep(&mut self) {
        self.marked = None;
    }

    fn undo(&mut self) {
        if let Some(mark) = self.marked.take() {
            self.bytes.truncate(mark.size);
            mark.log.put_back(&mut self.bytes);
        }
    }
}
