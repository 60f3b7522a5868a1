//! What a sink is.

ghost use Rattle.std.specs.Prelude.{◌≡◌, ℕ, List, Bool, length, is_err, IfOk};
ghost use Rattle.std.specs.declared.option.Option.{Option};
ghost use Rattle.std.specs.Io.{WritesAtMost};
ghost use Rattle.std.specs.Io.KnownBytes.{WriteAppends};
ghost use Rattle.cdf_base.specs.Causes.{HasCause};

use crate::Failed;

/// A device that takes bytes.
pub trait Sink {
    /// The bytes that it took, where the device tells them.
    ghost written: { Self → Option (List ℕ) };

    /// How often the device has failed.
    ghost faults: { Self → ℕ };

    /// What a device says of each write beyond these clauses: of itself before and after, of the bytes, and whether it failed.
    ghost also: { Self → Self → List ℕ → Bool → Type 0 } = { λ _ _ _ _. Unit {0} };

    /// Takes some of the bytes, from the front, and answers how many. To take none of some counts as a fault. A failed write
    /// takes nothing.
    fn write(&mut self, bytes: &[u8]) -> Result<usize, Failed>
        ensures bound { WritesAtMost result bytes.now }
        ensures takes { IfOk result (λ n. n ≡ 0 → length bytes.now ≡ 0) }
        ensures bytes { WriteAppends (written self.old) (written self.new) result bytes.now }
        ensures cause { HasCause (faults self.old) (faults self.new) result }
        ensures also { also self.old self.new bytes.now (is_err result) };
}
