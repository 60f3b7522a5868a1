//! Which calls of a device in memory are to fail.

ghost use Rattle.std.specs.Prelude.{◌≡◌, ◌+◌, ◌-◌, ◌^◌, ◌↔◌, min, IsTrue, OnOk, OnErr, Contains, ◌++◌, [], ◌∷◌};

use std::alloc::{AllocError, Global};

/// Which calls of a device in memory fail, by their number from 1.
#[derive(Drop)]
pub struct Plan {
    pub calls: u64,
    pub failing: Vec<u64>,
}

impl Plan {
    /// No call was made, and none fails.
    pub fn new(alloc: Global) -> Self
        ensures calls { result.calls ≡ 0 }
        ensures failing { result.failing.items ≡ [] }
    {
        Plan {
            calls: 0,
            failing: Vec::new(alloc),
        }
    }

    /// From now on the call of this number fails too.
    pub fn fail_at(&mut self, call: u64) -> Result<(), AllocError>
        ensures ok { OnOk result (self.new.failing.items ≡ self.old.failing.items ++ call ∷ []) }
        ensures err { OnErr result (self.new.failing.items ≡ self.old.failing.items) }
        ensures calls { self.new.calls ≡ self.old.calls }
    {
        self.failing.push(call)?;
        Ok(())
    }

    /// Counts a call, and says whether it fails.
    pub fn next_fails(&mut self) -> bool
        ensures which { IsTrue result ↔ Contains self.old.failing.items self.new.calls }
        ensures calls { self.new.calls ≡ min (self.old.calls + 1) (2 ^ 64 - 1) }
        ensures failing { self.new.failing.items ≡ self.old.failing.items }
    {
        self.calls = self.calls.saturating_add(1);
        self.failing.contains(&self.calls)
    }
}
