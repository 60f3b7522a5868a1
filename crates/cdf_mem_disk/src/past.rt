//! What a disk in memory has, and how it came to have it.

ghost use Rattle.std.specs.Prelude.{◌≡◌, ◌≤◌, ◌⊎◌, ◌++◌, ◌∷◌, [], length, take, true, false, IfOk, OnErr, OnOk};
ghost use Rattle.cdf_base.specs.Bytes.{put};
ghost use Rattle.cdf_journal.specs.Crashes.{part_of, with_part};
ghost use Rattle.cdf_mem_disk.specs.Events.{Cut, Stored, Wrote, after_events, are_made, crashed};
ghost use Rattle.cdf_mem_disk.specs.MemParts.{parts_in};

use crate::history::History;
use crate::mem_parts::MemParts;
use cdf_journal::Part;
use std::alloc::{AllocError, Global};

/// The parts of a disk, and the calls that made them of what was stored before the first of them.
#[derive(Drop)]
pub struct Past {
    /// What was stored before the first call.
    pub base: MemParts,
    pub history: History,
    /// What reads give.
    pub parts: MemParts,
    ghost replayed: { parts_in parts ≡ after_events (parts_in base) history },
    ghost made: { are_made (parts_in base) history ≡ true },
}

impl Past {
    /// Parts that are stored, and no call; with room for so many calls, and for so many bytes of writes.
    pub fn new(
        alloc: Global,
        main: &[u8],
        log: &[u8],
        calls: usize,
        bytes: usize,
    ) -> Result<Self, AllocError>
        ensures base { IfOk result (λ past. parts_in past.base ≡ record { main = main.now; log = log.now }) }
        ensures parts { IfOk result (λ past. parts_in past.parts ≡ record { main = main.now; log = log.now }) }
        ensures history { IfOk result (λ past. past.history ≡ []) }
    {
        Ok(Past {
            base: MemParts::new(alloc, main, log, 0)?,
            history: History::new(alloc, calls, bytes)?,
            parts: MemParts::new(alloc, main, log, bytes)?,
        })
    }

    /// Writes bytes over what is there and past the end.
    pub fn write(&mut self, part: Part, place: usize, bytes: &[u8]) -> Result<(), AllocError>
        requires { place ≤ length (part_of (parts_in self.old.parts) part) }
        ensures base { parts_in self.new.base ≡ parts_in self.old.base }
        ensures parts { OnOk result (parts_in self.new.parts ≡ with_part (parts_in self.old.parts) part (put (part_of (parts_in self.old.parts) part) place bytes.now)) }
        ensures kept { OnOk result (self.new.history ≡ self.old.history ++ Wrote part place bytes.now true ∷ []) }
        ensures same { OnErr result (parts_in self.new.parts ≡ parts_in self.old.parts) }
        ensures unkept { OnErr result (self.new.history ≡ self.old.history) }
    {
        self.parts.reserve(part, bytes.len())?;
        self.history.note_write(part, place, bytes, true)?;
        self.parts.put(part, place, bytes);
        Ok(())
    }

    /// Cuts a part.
    pub fn cut(&mut self, part: Part, n: usize) -> Result<(), AllocError>
        ensures base { parts_in self.new.base ≡ parts_in self.old.base }
        ensures parts { OnOk result (parts_in self.new.parts ≡ with_part (parts_in self.old.parts) part (take n (part_of (parts_in self.old.parts) part))) }
        ensures kept { OnOk result (self.new.history ≡ self.old.history ++ Cut part n true ∷ []) }
        ensures same { OnErr result (parts_in self.new.parts ≡ parts_in self.old.parts) }
        ensures unkept { OnErr result (self.new.history ≡ self.old.history) }
    {
        self.history.note_cut(part, n, true)?;
        self.parts.cut(part, n);
        Ok(())
    }

    /// Keeps that a write was refused, where there is room for that: a crash may tear its range all the same.
    pub fn refuse_write(&mut self, part: Part, place: usize, bytes: &[u8])
        requires { place ≤ length (part_of (parts_in self.old.parts) part) }
        ensures base { parts_in self.new.base ≡ parts_in self.old.base }
        ensures parts { parts_in self.new.parts ≡ parts_in self.old.parts }
        ensures kept { (self.new.history ≡ self.old.history) ⊎ (self.new.history ≡ self.old.history ++ Wrote part place bytes.now false ∷ []) }
    {
        let _ = self.history.note_write(part, place, bytes, false);
    }

    /// Keeps that a cut was refused, where there is room for that.
    pub fn refuse_cut(&mut self, part: Part, n: usize)
        ensures base { parts_in self.new.base ≡ parts_in self.old.base }
        ensures parts { parts_in self.new.parts ≡ parts_in self.old.parts }
        ensures kept { (self.new.history ≡ self.old.history) ⊎ (self.new.history ≡ self.old.history ++ Cut part n false ∷ []) }
    {
        let _ = self.history.note_cut(part, n, false);
    }

    /// Keeps that both parts were stored.
    pub fn store(&mut self) -> Result<(), AllocError>
        ensures base { parts_in self.new.base ≡ parts_in self.old.base }
        ensures parts { parts_in self.new.parts ≡ parts_in self.old.parts }
        ensures kept { OnOk result (self.new.history ≡ self.old.history ++ Stored ∷ []) }
        ensures unkept { OnErr result (self.new.history ≡ self.old.history) }
    {
        self.history.note_store()
    }

    /// The parts that are left where a crash keeps the first `keep` writes and cuts since the parts were stored.
    pub fn left(&self, alloc: Global, keep: u64) -> Result<MemParts, AllocError>
        ensures { IfOk result (λ parts. parts_in parts ≡ crashed keep (parts_in self.now.base) self.now.history) }
    {
        let mut parts = MemParts::new(alloc, &self.base.main, &self.base.log, 0)?;
        let end = self.history.kept_end(keep);
        self.history.redo(end, &mut parts)?;
        Ok(parts)
    }
}
