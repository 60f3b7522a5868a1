//! A tap that marks each event that it is shown.

ghost use Rattle.cdf_tool_tests.specs.Watching.{watcher};

use cdf_model::Event;
use cdf_tap::{Go, Tap};
use std::alloc::{AllocError, Global};

/// A tap whose text has one byte for each event that it saw. It comes to its end at the event of a number.
#[derive(Drop)]
pub struct Watcher {
    name: Vec<u8>,
    mark: u8,
    last: u8,
    seen: Vec<u8>,
}

impl Watcher {
    /// A tap that saw so much.
    pub fn new(
        alloc: Global,
        name: &[u8],
        mark: u8,
        last: u8,
        seen: &[u8],
    ) -> Result<Self, AllocError> {
        Ok(Watcher {
            name: Vec::from_slice(alloc, name)?,
            mark,
            last,
            seen: Vec::from_slice(alloc, seen)?,
        })
    }
}

impl Tap for Watcher {
    ghost meaning = { λ it. record { own = watcher it.name.items it.mark it.last; state = it.seen.items } };

    fn name(&self) -> &[u8] {
        &self.name
    }

    fn clear(&mut self) {
        self.seen.clear();
    }

    fn on(&mut self, _event: &Event) -> Result<Go, AllocError> {
        self.seen.push(self.mark)?;
        if self.seen.len() == self.last as usize {
            Ok(Go::Done)
        } else {
            Ok(Go::More)
        }
    }

    fn text(&self) -> &[u8] {
        &self.seen
    }
}
