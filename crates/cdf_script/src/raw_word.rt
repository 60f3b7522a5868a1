//! A word as it stands in the line.

use crate::meaning::{decode, has_escape};
use crate::word_text::WordText;
use std::alloc::{AllocError, Global};
use std::marker::Model;

/// A word as it stands in the line: bare, or between quotes, which are left out.
#[derive(Drop)]
pub struct RawWord<'a> {
    place: usize,
    text: &'a [u8],
    quoted: bool,
}

impl<'a> Model for RawWord<'a> {
    ghost use Rattle.std.specs.Prelude.{◌≡◌, ◌<◌, ◌^◌, ◌+◌, length, is_ok, true};
    ghost use Rattle.cdf_model.specs.Quoting.{Word};

    ghost Value = { Word };

    ghost use Rattle.cdf_script.specs.Raw.{bytes_or_none, plain};

    ghost view = { λ w. record { place = w.place; bytes = bytes_or_none (plain w.quoted w.place w.text.now) } };

    ghost invariant = { λ w. (is_ok (plain w.quoted w.place w.text.now) ≡ true) × (w.place + 1 + length w.text.now < 2 ^ 64) };
}

impl<'a> RawWord<'a> {
    ghost use Rattle.std.specs.Prelude.{◌≡◌, ◌+◌, ◌<◌, ◌^◌, length, true, IfOk, is_ok};
    ghost use Rattle.cdf_model.specs.Quoting.{meaning};
    ghost use Rattle.cdf_script.specs.Raw.{bytes_or_none};
    ghost use Rattle.cdf_script.specs.Words.{bytes_of};

    pub fn bare(place: usize, text: &'a [u8]) -> Self
        requires { place + 1 + length text.now < 2 ^ 64 }
        ensures { result ≡ record { place = place; bytes = text.now } }
    {
        RawWord {
            place,
            text,
            quoted: false,
        }
    }

    /// A word between quotes, the first of which stands at the place.
    pub fn quoted(place: usize, text: &'a [u8]) -> Self
        requires fits { place + 1 + length text.now < 2 ^ 64 }
        requires good { is_ok (meaning (place + 1) text.now) ≡ true }
        ensures { result ≡ record { place = place; bytes = bytes_or_none (meaning (place + 1) text.now) } }
    {
        RawWord {
            place,
            text,
            quoted: true,
        }
    }

    pub fn place(&self) -> usize
        ensures { result ≡ self.now.place }
    {
        self.place
    }

    /// The bytes of the word.
    pub fn read(&self, alloc: Global) -> Result<WordText<'a>, AllocError>
        ensures { IfOk result (λ text. bytes_of text ≡ self.now.bytes) }
    {
        if !self.quoted {
            return Ok(WordText::Lent(self.text));
        }
        if !has_escape(self.text) {
            return Ok(WordText::Lent(self.text));
        }
        Ok(WordText::Owned(decode(alloc, self.place + 1, self.text)?))
    }
}

/// A word, and how many bytes of a text it took, the separators before it included.
#[derive(Drop)]
pub struct Found<'a> {
    pub word: RawWord<'a>,
    pub used: usize,
}

impl<'a> Found<'a> {
    ghost use Rattle.std.specs.Prelude.{◌≡◌, ◌+◌, ◌<◌, ◌^◌};

    /// The same word, behind so many bytes more.
    pub fn behind(self, count: usize) -> Self
        requires { count + self.used < 2 ^ 64 }
        ensures { result ≡ record self.entry { used = count + self.entry.used } }
    {
        Found {
            word: self.word,
            used: count + self.used,
        }
    }
}
