//! What a tap is.

ghost use Rattle.std.specs.Prelude.{◌≡◌, ◌↔◌, true, OnOk, OnErr, IfOk};
ghost use Rattle.cdf_tap.specs.Meanings.{Meaning, cleared, is_final, moved, text_of};

use cdf_model::Event;
use std::alloc::AllocError;

/// Whether a tap wants more events.
#[derive(Debug, PartialEq, Eq, Clone, Copy)]
pub enum Go {
    More,
    /// The tap came to its end.
    Done,
}

/// An observer of the events of a data set, which says a text of them.
pub trait Tap: Drop {
    /// Its name and the definitions that never change, and its state.
    ghost meaning: { Self → Meaning };

    fn name(&self) -> &[u8]
        ensures { result.now ≡ (meaning self.now).own.name };

    /// Begins anew. This takes no memory.
    fn clear(&mut self)
        ensures { meaning self.new ≡ cleared (meaning self.old) };

    /// Sees an event, and says whether that brought it to its end.
    fn on(&mut self, event: &Event) -> Result<Go, AllocError>
        ensures moved { OnOk result (meaning self.new ≡ moved (meaning self.old) event.now) }
        ensures done { IfOk result (λ go. (go ≡ Go.Done) ↔ (is_final (meaning self.new) ≡ true)) }
        ensures stays { OnErr result (meaning self.new ≡ meaning self.old) };

    /// What it says of the events that it saw. This takes no memory.
    fn text(&self) -> &[u8]
        ensures { result.now ≡ text_of (meaning self.now) };
}
