//! What a source is.

ghost use Rattle.std.specs.Prelude.{ℕ, List, Bool, is_err};
ghost use Rattle.std.specs.declared.option.Option.{Option};
ghost use Rattle.std.specs.Io.{ReadsAtMost};
ghost use Rattle.std.specs.Io.KnownBytes.{ReadConsumes};
ghost use Rattle.cdf_base.specs.Causes.{HasCause};

use crate::Failed;

/// A device that gives bytes.
pub trait Source {
    /// The bytes that are left, where the device tells them.
    ghost left: { Self → Option (List ℕ) };

    /// How often the device has failed.
    ghost faults: { Self → ℕ };

    /// What a device says of each read beyond these clauses: of itself before and after, and whether it failed.
    ghost also: { Self → Self → Bool → Type 0 } = { λ _ _ _. Unit {0} };

    /// Reads some of the next bytes to the front of `out`, and answers how many. 0 for an `out` that is not empty is the end
    /// of the input. A failed read gives nothing.
    fn read(&mut self, out: &mut [u8]) -> Result<usize, Failed>
        ensures bound { ReadsAtMost result out.new }
        ensures bytes { ReadConsumes (left self.old) (left self.new) result out.new }
        ensures cause { HasCause (faults self.old) (faults self.new) result }
        ensures also { also self.old self.new (is_err result) };
}
