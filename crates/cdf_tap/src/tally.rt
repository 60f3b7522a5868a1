//! A tap that counts.

ghost use Rattle.std.specs.Prelude.{◌≡◌, ◌+◌, ◌≤◌, ◌++◌, [], length, decimal, vec_len, vec_capacity, IfOk};
ghost use Rattle.cdf_model.specs.ShippedTaps.{tally_text};
ghost use Rattle.cdf_tap.specs.Counted.{listed};

use crate::counts::{Counts, counts_with};
use crate::{Go, Tap};
use cdf_model::Event;
use itoa::Buffer;
use std::alloc::{AllocError, Global};

/// How long the text of four counts of 64 bits can be.
const LONGEST: usize = 121;

const NO_COUNTS: Counts = Counts {
    attrs: 0,
    entries: 0,
    vars: 0,
    recs: 0,
};

/// Says how many attributes, entries, variables and records there are. It never comes to its end.
#[derive(Drop)]
pub struct Tally {
    counts: Counts,
    text: Vec<u8>,
    ghost room: { 121 ≤ vec_capacity text },
    ghost says: { text.items ≡ tally_text (listed counts) },
}

impl Tally {
    ghost use Rattle.std.specs.Prelude.{◌≡◌, IfOk};
    ghost use Rattle.cdf_model.specs.ShippedTaps.{tally};
    ghost use Rattle.cdf_tap.specs.Meanings.{fresh};

    /// A tap that has seen nothing. The room of its text is made here.
    pub fn new(alloc: Global) -> Result<Self, AllocError>
        ensures { IfOk result (λ tap. ⟦<Tally as Tap>⟧.meaning tap ≡ fresh tally) }
    {
        let mut text = Vec::with_capacity(alloc, LONGEST)?;
        write_counts(&mut text, NO_COUNTS);
        Ok(Tally {
            counts: NO_COUNTS,
            text,
        })
    }
}

impl Tap for Tally {
    ghost use Rattle.cdf_model.specs.ShippedTaps.{tally};
    ghost use Rattle.cdf_tap.specs.Counted.{listed};

    ghost meaning = { λ it. record { own = tally; state = listed it.counts } };

    fn name(&self) -> &[u8] {
        b"tally"
    }

    fn clear(&mut self) {
        self.counts = NO_COUNTS;
        write_counts(&mut self.text, NO_COUNTS);
    }

    fn on(&mut self, event: &Event) -> Result<Go, AllocError> {
        let counts = counts_with(self.counts, event).ok_or(AllocError)?;
        self.counts = counts;
        write_counts(&mut self.text, counts);
        Ok(Go::More)
    }

    fn text(&self) -> &[u8] {
        &self.text
    }
}

/// Appends a piece of a text for which there is room.
fn append(text: &mut Vec<u8>, piece: &[u8])
    requires { vec_len text.old + length piece.now ≤ vec_capacity text.old }
    ensures items { text.new.items ≡ text.old.items ++ piece.now }
    ensures len { vec_len text.new ≡ vec_len text.old + length piece.now }
    ensures room { vec_capacity text.old ≤ vec_capacity text.new }
{
    text.extend_from_slice(piece).unwrap();
}

/// Appends a number in decimal, for which there is room.
fn append_number(text: &mut Vec<u8>, number: u64)
    requires { vec_len text.old + 20 ≤ vec_capacity text.old }
    ensures items { text.new.items ≡ text.old.items ++ decimal number }
    ensures len { vec_len text.new ≤ vec_len text.old + 20 }
    ensures room { vec_capacity text.old ≤ vec_capacity text.new }
{
    let mut buffer = Buffer::new();
    append(text, buffer.format(number).as_bytes());
}

/// Writes the text of four counts in the place of another.
fn write_counts(text: &mut Vec<u8>, counts: Counts)
    requires { 121 ≤ vec_capacity text.old }
    ensures items { text.new.items ≡ tally_text (listed counts) }
    ensures room { vec_capacity text.old ≤ vec_capacity text.new }
{
    text.clear();
    append(text, b"attributes ");
    append_number(text, counts.attrs);
    append(text, b" entries ");
    append_number(text, counts.entries);
    append(text, b" variables ");
    append_number(text, counts.vars);
    append(text, b" records ");
    append_number(text, counts.recs);
    append(text, b"\n");
}
