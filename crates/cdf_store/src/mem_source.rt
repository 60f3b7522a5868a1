//! A source in memory.

ghost use Rattle.std.specs.Prelude.{◌≡◌, ◌≤◌, ◌∷◌, ◌++◌, [], vec_len, OnOk, OnErr, Some};

use crate::copy::copy_front;
use crate::plan::Plan;
use crate::{Failed, Source};
use std::alloc::{AllocError, Global};

/// A source in memory, which tells everything. A read gives at most `most` bytes, and chosen reads fail.
#[derive(Drop)]
pub struct MemSource {
    bytes: Vec<u8>,
    place: usize,
    most: usize,
    plan: Plan,
    faults: u64,
    ghost in_range: { place ≤ vec_len bytes },
    ghost takes_some: { 1 ≤ most },
}

impl MemSource {
    ghost use Rattle.cdf_store.specs.MemSource.{calls_of, failing_of, most_of};

    /// A source of these bytes, of which no read fails.
    pub fn new(alloc: Global, bytes: Vec<u8>, most: usize) -> Self
        requires { 1 ≤ most }
        ensures left { ⟦<MemSource as Source>⟧.left result ≡ Some bytes.items }
        ensures faults { ⟦<MemSource as Source>⟧.faults result ≡ 0 }
        ensures calls { calls_of result ≡ 0 }
        ensures failing { failing_of result ≡ [] }
        ensures most { most_of result ≡ most }
    {
        MemSource {
            bytes,
            place: 0,
            most,
            plan: Plan::new(alloc),
            faults: 0,
        }
    }

    /// From now on the read of this number fails too. The first read has the number 1.
    pub fn fail_at(&mut self, call: u64) -> Result<(), AllocError>
        ensures ok { OnOk result (failing_of self.new ≡ failing_of self.old ++ call ∷ []) }
        ensures err { OnErr result (failing_of self.new ≡ failing_of self.old) }
        ensures calls { calls_of self.new ≡ calls_of self.old }
        ensures most { most_of self.new ≡ most_of self.old }
        ensures left { ⟦<MemSource as Source>⟧.left self.new ≡ ⟦<MemSource as Source>⟧.left self.old }
        ensures faults { ⟦<MemSource as Source>⟧.faults self.new ≡ ⟦<MemSource as Source>⟧.faults self.old }
    {
        self.plan.fail_at(call)
    }

    /// How many reads were made.
    pub fn calls(&self) -> u64
        ensures { result ≡ calls_of self.now }
    {
        self.plan.calls
    }
}

impl Source for MemSource {
    ghost use Rattle.cdf_store.specs.MemSource.{IsRead, faults_of, left_of};

    ghost left = { λ s. Some (left_of s) };

    ghost faults = { faults_of };

    ghost also = { IsRead };

    fn read(&mut self, out: &mut [u8]) -> Result<usize, Failed> {
        if self.plan.next_fails() {
            self.faults = self.faults.saturating_add(1);
            return Err(Failed);
        }
        let count = copy_front(&self.bytes[self.place..], self.most, out);
        self.place += count;
        Ok(count)
    }
}
