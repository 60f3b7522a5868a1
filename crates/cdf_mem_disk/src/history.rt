//! The calls of a disk in memory, in order.

ghost use Rattle.std.specs.Prelude.{◌≡◌, ◌≤◌, ◌<◌, ◌+◌, ◌^◌, ◌++◌, ◌∷◌, ℕ, List, [], length, map, take, true, IfOk, OnErr, OnOk};
ghost use Rattle.cdf_mem_disk.specs.Events.{Cut, Event, Stored, Wrote, after_event, after_events, are_made, fits_parts, kept_end};
ghost use Rattle.cdf_mem_disk.specs.History.{AreWithin, IsWithin, event_of};
ghost use Rattle.cdf_mem_disk.specs.MemParts.{parts_in};

use crate::mem_parts::MemParts;
use cdf_journal::Part;
use std::alloc::{AllocError, Global};
use std::marker::Model;

/// What a call was to do, and whether it did it.
#[derive(Clone, Copy)]
pub enum Call {
    /// So many bytes were to be written into a part from a place on. They are the history's from `start` on.
    Write {
        part: Part,
        place: usize,
        start: usize,
        count: usize,
        is_done: bool,
    },
    /// A part was to be cut to a length.
    Cut {
        part: Part,
        size: usize,
        is_done: bool,
    },
    /// Both parts were stored.
    Store,
}

/// The calls of a disk in memory that wrote, cut or stored, in order.
#[derive(Drop)]
pub struct History {
    calls: Vec<Call>,
    /// What was to be written, one call's bytes behind the other's.
    bytes: Vec<u8>,
}

impl Model for History {
    ghost use Rattle.std.specs.Prelude.{List, length, map};
    ghost use Rattle.cdf_mem_disk.specs.Events.{Event};

    ghost Value = { List Event };

    ghost use Rattle.cdf_mem_disk.specs.History.{AreWithin, event_of};

    ghost view = { λ h. map (event_of h.bytes.items) h.calls.items };

    ghost invariant = { λ h. AreWithin (length h.bytes.items) h.calls.items };
}

/// Does again to the parts what a call did.
fn redo_call(call: Call, bytes: &[u8], parts: &mut MemParts) -> Result<(), AllocError>
    requires within { IsWithin (length bytes.now) call }
    requires fits { fits_parts (parts_in parts.old) (event_of bytes.now call) ≡ true }
    ensures { OnOk result (parts_in parts.new ≡ after_event (parts_in parts.old) (event_of bytes.now call)) }
{
    match call {
        Call::Write {
            part,
            place,
            start,
            count,
            is_done: true,
        } => {
            parts.reserve(part, count)?;
            parts.put(part, place, &bytes[start..start + count]);
        }
        Call::Cut {
            part,
            size,
            is_done: true,
        } => parts.cut(part, size),
        _ => {}
    }
    Ok(())
}

/// Does again to the parts what some calls did, in order.
fn redo_calls(calls: &[Call], bytes: &[u8], parts: &mut MemParts) -> Result<(), AllocError>
    requires within { AreWithin (length bytes.now) calls.now }
    requires made { are_made (parts_in parts.old) (map (event_of bytes.now) calls.now) ≡ true }
    ensures { OnOk result (parts_in parts.new ≡ after_events (parts_in parts.old) (map (event_of bytes.now) calls.now)) }
{
    for call in calls {
        redo_call(*call, bytes, parts)?;
    }
    Ok(())
}

/// Up to which of the calls so far those are kept that a crash leaves, and how many of the writes and cuts that come next are.
#[derive(Clone, Copy)]
struct Kept {
    end: usize,
    left: u64,
}

/// The same one call on, before which `at` came.
fn kept_after(call: Call, at: usize, keep: u64, kept: Kept) -> Kept
    requires { at < 2 ^ 63 }
    ensures end { (bytes : List ℕ) (events : List Event) → kept_end keep at kept.end kept.left (event_of bytes call ∷ events) ≡ kept_end keep (at + 1) result.end result.left events }
    ensures within { kept.end ≤ at → result.end ≤ at + 1 }
{
    match call {
        Call::Store => Kept {
            end: at + 1,
            left: keep,
        },
        Call::Write { is_done, .. } | Call::Cut { is_done, .. } => {
            if is_done && kept.left > 0 {
                Kept {
                    end: at + 1,
                    left: kept.left - 1,
                }
            } else {
                kept
            }
        }
    }
}

impl History {
    /// No call, and room for so many and for so many bytes of writes.
    pub fn new(alloc: Global, calls: usize, bytes: usize) -> Result<Self, AllocError>
        ensures { IfOk result (λ history. history ≡ []) }
    {
        Ok(History {
            calls: Vec::with_capacity(alloc, calls)?,
            bytes: Vec::with_capacity(alloc, bytes)?,
        })
    }

    /// Keeps that bytes were written, or were to be.
    pub fn note_write(
        &mut self,
        part: Part,
        place: usize,
        bytes: &[u8],
        is_done: bool,
    ) -> Result<(), AllocError>
        ensures ok { OnOk result (self.new ≡ self.old ++ Wrote part place bytes.now is_done ∷ []) }
        ensures err { OnErr result (self.new ≡ self.old) }
    {
        let start = self.bytes.len();
        self.bytes.extend_from_slice(bytes)?;
        self.calls.push(Call::Write {
            part,
            place,
            start,
            count: bytes.len(),
            is_done,
        })?;
        Ok(())
    }

    /// Keeps that a part was cut, or was to be.
    pub fn note_cut(&mut self, part: Part, size: usize, is_done: bool) -> Result<(), AllocError>
        ensures ok { OnOk result (self.new ≡ self.old ++ Cut part size is_done ∷ []) }
        ensures err { OnErr result (self.new ≡ self.old) }
    {
        self.calls.push(Call::Cut {
            part,
            size,
            is_done,
        })?;
        Ok(())
    }

    /// Keeps that both parts were stored.
    pub fn note_store(&mut self) -> Result<(), AllocError>
        ensures ok { OnOk result (self.new ≡ self.old ++ Stored ∷ []) }
        ensures err { OnErr result (self.new ≡ self.old) }
    {
        self.calls.push(Call::Store)?;
        Ok(())
    }

    /// Up to which call those are kept that a crash leaves where, of the writes and cuts since the parts were stored, it keeps the
    /// first `keep`.
    pub fn kept_end(&self, keep: u64) -> usize
        ensures end { result ≡ kept_end keep 0 0 keep self.now }
        ensures within { result ≤ length self.now }
    {
        let mut kept = Kept { end: 0, left: keep };
        for (at, call) in self.calls.iter().enumerate() {
            kept = kept_after(*call, at, keep, kept);
        }
        kept.end
    }

    /// Does again to the parts what the first `count` calls did.
    pub fn redo(&self, count: usize, parts: &mut MemParts) -> Result<(), AllocError>
        requires within { count ≤ length self.now }
        requires made { are_made (parts_in parts.old) self.now ≡ true }
        ensures { OnOk result (parts_in parts.new ≡ after_events (parts_in parts.old) (take count self.now)) }
    {
        redo_calls(&self.calls[..count], &self.bytes, parts)
    }
}
