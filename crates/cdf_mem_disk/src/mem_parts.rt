//! The parts of a disk in memory.

ghost use Rattle.std.specs.Prelude.{◌≡◌, ◌≤◌, ◌+◌, length, take, IfOk, OnOk};
ghost use Rattle.cdf_base.specs.Bytes.{put};
ghost use Rattle.cdf_journal.specs.declared.disk.Part.{Part};
ghost use Rattle.cdf_journal.specs.Crashes.{part_of, with_part};

use cdf_journal::Part;
use cdf_store::put_in;
use std::alloc::{AllocError, Global};

/// The bytes of a file and of its log.
#[derive(Drop)]
pub struct MemParts {
    pub main: Vec<u8>,
    pub log: Vec<u8>,
}

/// Bytes, and room for so many more behind them.
fn with_room(alloc: Global, bytes: &[u8], more: usize) -> Result<Vec<u8>, AllocError>
    ensures { IfOk result (λ kept. kept.items ≡ bytes.now) }
{
    let mut kept = Vec::with_capacity(alloc, bytes.len().saturating_add(more))?;
    kept.extend_from_slice(bytes)?;
    Ok(kept)
}

impl MemParts {
    ghost use Rattle.cdf_mem_disk.specs.MemParts.{parts_in, room_in};

    /// These bytes, and room for so many more in each part.
    pub fn new(alloc: Global, main: &[u8], log: &[u8], more: usize) -> Result<Self, AllocError>
        ensures { IfOk result (λ parts. parts_in parts ≡ record { main = main.now; log = log.now }) }
    {
        Ok(MemParts {
            main: with_room(alloc, main, more)?,
            log: with_room(alloc, log, more)?,
        })
    }

    /// The bytes of a part.
    pub fn bytes(&self, part: Part) -> &[u8]
        ensures { result.now ≡ part_of (parts_in self.now) part }
    {
        match part {
            Part::Main => &self.main,
            Part::Log => &self.log,
        }
    }

    /// Makes room for so many bytes more in a part.
    pub fn reserve(&mut self, part: Part, more: usize) -> Result<(), AllocError>
        ensures same { parts_in self.new ≡ parts_in self.old }
        ensures room { OnOk result (length (part_of (parts_in self.old) part) + more ≤ room_in self.new part) }
    {
        match part {
            Part::Main => self.main.reserve_exact(more),
            Part::Log => self.log.reserve_exact(more),
        }
    }

    /// Puts bytes at a place of a part, for which room was made.
    pub fn put(&mut self, part: Part, place: usize, bytes: &[u8])
        requires place { place ≤ length (part_of (parts_in self.old) part) }
        requires room { place + length bytes.now ≤ room_in self.old part }
        ensures { parts_in self.new ≡ with_part (parts_in self.old) part (put (part_of (parts_in self.old) part) place bytes.now) }
    {
        match part {
            Part::Main => put_in(&mut self.main, place, bytes),
            Part::Log => put_in(&mut self.log, place, bytes),
        }
    }

    /// Cuts a part.
    pub fn cut(&mut self, part: Part, n: usize)
        ensures { parts_in self.new ≡ with_part (parts_in self.old) part (take n (part_of (parts_in self.old) part)) }
    {
        match part {
            Part::Main => self.main.truncate(n),
            Part::Log => self.log.truncate(n),
        }
    }
}
