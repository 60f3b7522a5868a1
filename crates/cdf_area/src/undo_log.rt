//! The old bytes of what was written since a mark, from which the image of the mark is made again.

ghost use Rattle.std.specs.Prelude.{◌≡◌, ◌+◌, ◌≤◌, [], ◌∷◌, ◌++◌, length, OnOk, OnErr};
ghost use Rattle.cdf_base.specs.Bytes.{put};
ghost use Rattle.cdf_area.specs.OldBytes.{AllLieBelow, back};

use std::alloc::{AllocError, Global};
use std::marker::Model;

/// A range of bytes.
#[derive(Clone, Copy)]
pub struct Span {
    pub place: usize,
    pub count: usize,
}

/// Old bytes of ranges that were written over, in the order of the writes.
#[derive(Drop)]
pub struct UndoLog {
    spans: Vec<Span>,
    saved: Vec<u8>,
}

impl Model for UndoLog {
    ghost use Rattle.std.specs.Prelude.{◌≡◌, List, length};
    ghost use Rattle.std.specs.List.{sum_by};
    ghost use Rattle.cdf_area.specs.OldBytes.{Old, olds_of};

    ghost Value = { List Old };

    ghost view = { λ log. olds_of log.spans.items log.saved.items };

    ghost invariant = { λ log. sum_by (λ span. span.count) log.spans.items ≡ length log.saved.items };
}

impl UndoLog {
    /// Nothing is kept.
    #[tactic(auto, unfolding(crate::specs::OldBytes::olds_of))]
    pub fn new(alloc: Global) -> Self
        ensures { result ≡ [] }
    {
        UndoLog {
            spans: Vec::new(alloc),
            saved: Vec::new(alloc),
        }
    }

    /// Keeps bytes that stand at a place.
    pub fn push(&mut self, place: usize, bytes: &[u8]) -> Result<(), AllocError>
        ensures kept { OnOk result (self.new ≡ self.old ++ record { place = place; bytes = bytes.now } ∷ []) }
        ensures stays { OnErr result (self.new ≡ self.old) }
    {
        self.spans.reserve(1)?;
        self.saved.extend_from_slice(bytes)?;
        let span = Span {
            place,
            count: bytes.len(),
        };
        self.spans.push(span)?;
        Ok(())
    }

    /// Puts all that is kept back, the last first.
    pub fn put_back(self, bytes: &mut Vec<u8>)
        requires { AllLieBelow (length bytes.old.items) self }
        ensures { bytes.new.items ≡ back self bytes.old.items }
    {
        let UndoLog {
            mut spans,
            mut saved,
        } = self;
        while let Some(span) = spans.pop() {
            let from = saved.len() - span.count;
            put_bytes(bytes, span.place, &saved[from..]);
            saved.truncate(from);
        }
    }
}

/// Writes bytes over those from a place on.
#[tactic(auto, unfolding(cdf_base::specs::Bytes::put))]
pub fn put_bytes(bytes: &mut Vec<u8>, place: usize, written: &[u8])
    requires { place + length written.now ≤ length bytes.old.items }
    ensures items { bytes.new.items ≡ put bytes.old.items place written.now }
    ensures size { length bytes.new.items ≡ length bytes.old.items }
{
    let end = place + written.len();
    bytes[place..end].copy_from_slice(written);
}
