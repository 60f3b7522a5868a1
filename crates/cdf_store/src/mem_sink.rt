//! A sink in memory.

ghost use Rattle.std.specs.Prelude.{◌≡◌, ◌≤◌, ◌∷◌, ◌++◌, [], IfOk, OnOk, OnErr, Some, vec_len, vec_capacity};

use crate::plan::Plan;
use crate::{Failed, Sink};
use std::alloc::{AllocError, Global};

/// A sink in memory, which tells everything. It takes at most `room` bytes in all, and chosen writes fail.
#[derive(Drop)]
pub struct MemSink {
    taken: Vec<u8>,
    room: usize,
    plan: Plan,
    faults: u64,
    ghost has_room: { room ≤ vec_capacity taken },
    ghost within: { vec_len taken ≤ room },
}

impl MemSink {
    ghost use Rattle.cdf_store.specs.MemSink.{calls_of, failing_of, room_of};

    /// An empty sink, with the memory for all that it may take, of which no write fails.
    pub fn new(alloc: Global, room: usize) -> Result<Self, AllocError>
        ensures written { IfOk result (λ sink. ⟦<MemSink as Sink>⟧.written sink ≡ Some []) }
        ensures faults { IfOk result (λ sink. ⟦<MemSink as Sink>⟧.faults sink ≡ 0) }
        ensures calls { IfOk result (λ sink. calls_of sink ≡ 0) }
        ensures failing { IfOk result (λ sink. failing_of sink ≡ []) }
        ensures room { IfOk result (λ sink. room_of sink ≡ room) }
    {
        let taken = Vec::with_capacity(alloc, room)?;
        Ok(MemSink {
            taken,
            room,
            plan: Plan::new(alloc),
            faults: 0,
        })
    }

    /// What it took.
    pub fn written(&self) -> &[u8]
        ensures { ⟦<MemSink as Sink>⟧.written self.now ≡ Some result.now }
    {
        &self.taken
    }

    /// From now on the write of this number fails too. The first write has the number 1.
    pub fn fail_at(&mut self, call: u64) -> Result<(), AllocError>
        ensures ok { OnOk result (failing_of self.new ≡ failing_of self.old ++ call ∷ []) }
        ensures err { OnErr result (failing_of self.new ≡ failing_of self.old) }
        ensures calls { calls_of self.new ≡ calls_of self.old }
        ensures room { room_of self.new ≡ room_of self.old }
        ensures written { ⟦<MemSink as Sink>⟧.written self.new ≡ ⟦<MemSink as Sink>⟧.written self.old }
        ensures faults { ⟦<MemSink as Sink>⟧.faults self.new ≡ ⟦<MemSink as Sink>⟧.faults self.old }
    {
        self.plan.fail_at(call)
    }

    /// How many writes were made.
    pub fn calls(&self) -> u64
        ensures { result ≡ calls_of self.now }
    {
        self.plan.calls
    }
}

impl Sink for MemSink {
    ghost use Rattle.cdf_store.specs.MemSink.{IsWrite, faults_of, written_of};

    ghost written = { λ s. Some (written_of s) };

    ghost faults = { faults_of };

    ghost also = { IsWrite };

    fn write(&mut self, bytes: &[u8]) -> Result<usize, Failed> {
        if self.plan.next_fails() {
            self.faults = self.faults.saturating_add(1);
            return Err(Failed);
        }
        if bytes.len() > self.room - self.taken.len() {
            self.faults = self.faults.saturating_add(1);
            return Err(Failed);
        }
        self.taken.extend_from_slice(bytes).unwrap();
        Ok(bytes.len())
    }
}
