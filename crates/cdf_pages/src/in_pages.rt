//! Which pages of an area stand in memory.

ghost use Rattle.std.specs.Prelude.{ℕ, Bool, List};
ghost use Rattle.std.specs.declared.option.Option.{Option};
ghost use Rattle.cdf_pages.specs.Standing.{AreClean};

/// An area in pages of 65,536 bytes over a device.
///
/// The meanings are the pages that stand in memory, by their numbers, and what the device gave.
pub trait InPages {
    /// The pages that were changed and not saved.
    ghost changed: { Self → ℕ → Bool };

    /// The same at the last mark.
    ghost marked: { Self → ℕ → Bool };

    /// The pages that were only read, the most recently used first.
    ghost clean: { Self → List ℕ };

    /// The number of bytes that reads of the device have given, where it tells it.
    ghost taken: { Self → Option ℕ };

    /// Whether the device has the file stored as it stands.
    ghost synced: { Self → Bool };

    /// At most 256 pages are clean, no page twice, and none that is changed.
    ghost cached: { (area : Self) → AreClean (changed area) (clean area) };
}
