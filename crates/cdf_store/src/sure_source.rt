//! A source in memory that never fails.

ghost use Rattle.std.specs.Prelude.{◌≡◌, ◌≤◌, drop, vec_len, Some};

use crate::copy::copy_front;
use crate::{Failed, Source};

/// A source in memory, which tells everything and never fails.
#[derive(Drop)]
pub struct SureSource {
    bytes: Vec<u8>,
    place: usize,
    ghost in_range: { place ≤ vec_len bytes },
}

impl SureSource {
    /// A source of these bytes.
    pub fn new(bytes: Vec<u8>) -> Self
        ensures left { ⟦<SureSource as Source>⟧.left result ≡ Some bytes.items }
        // No read of such a source fails.
        ensures faultless { (source : SureSource) → ⟦<SureSource as Source>⟧.faults source ≡ 0 }
    {
        SureSource { bytes, place: 0 }
    }
}

impl Source for SureSource {
    ghost left = { λ s. Some (drop s.place s.bytes.items) };

    ghost faults = { λ _. 0 };

    fn read(&mut self, out: &mut [u8]) -> Result<usize, Failed> {
        let room = out.len();
        let count = copy_front(&self.bytes[self.place..], room, out);
        self.place += count;
        Ok(count)
    }
}
