//! Lines that wait to be given, one behind the other.

use crate::line::Line;
use crate::split::newline_in;
use crate::text::Text;
use std::marker::Model;

/// Where the line stands that a block is at.
#[derive(Clone, Copy)]
pub enum Place {
    Front,
    /// The bytes from `start` to `end` of those behind.
    Behind { start: usize, end: usize },
}

impl Place {
    ghost use Rattle.std.specs.Prelude.{◌≡◌, ◌^◌, ◌<◌};
    ghost use Rattle.cdf_lines.specs.Waiting.{next_of};

    /// Where the line behind begins.
    #[inline(always)]
    fn next(self) -> usize
        requires { next_of self < 2 ^ 64 }
        ensures { result ≡ next_of self }
    {
        match self {
            Place::Front => 0,
            Place::Behind { end, .. } => end + 1,
        }
    }
}

/// Lines that have ended, and the one of them that is given.
#[derive(Drop)]
pub struct Block {
    front: Text,
    /// The lines behind it, each with its newline.
    behind: Vec<u8>,
    place: Place,
}

impl Model for Block {
    ghost use Rattle.std.specs.Prelude.{drop};
    ghost use Rattle.cdf_lines.specs.Waiting.{Standing, line_at, next_of, short_lines, IsPlaceIn};

    ghost Value = { Standing };

    ghost view = { λ block. record { line = line_at block.front block.behind.items block.place; others = short_lines (drop (next_of block.place) block.behind.items) } };

    ghost invariant = { λ block. IsPlaceIn block.behind.items block.place };
}

impl Block {
    ghost use Rattle.std.specs.Prelude.{◌≡◌, ◌↔◌, ◌∷◌, [], true, false, IsTrue};
    ghost use Rattle.cdf_lines.specs.Pending.{line_of};
    ghost use Rattle.cdf_lines.specs.Waiting.{short_lines};

    /// At the line in front. No line of those behind is too long.
    pub fn new(front: Text, behind: Vec<u8>) -> Self
        ensures line { result.line ≡ front }
        ensures others { result.others ≡ short_lines behind.items }
    {
        Block {
            front,
            behind,
            place: Place::Front,
        }
    }

    /// Goes on to the next line, if there is one.
    #[inline(always)]
    pub fn advance(&mut self) -> bool
        ensures none { result ≡ false ↔ (self.old.others ≡ []) }
        ensures unchanged { result ≡ false → self.new ≡ self.old }
        ensures line { IsTrue result → self.old.others ≡ self.new.line ∷ self.new.others }
    {
        let start = self.place.next();
        let Some(size) = newline_in(&self.behind[start..]) else {
            return false;
        };
        self.place = Place::Behind {
            start,
            end: start + size,
        };
        true
    }

    /// The line that it is at.
    #[inline(always)]
    pub fn line(&self, number: u64) -> Line<'_>
        ensures text { line_of result ≡ self.now.line }
        ensures number { result.number ≡ number }
        ensures no_text { result.long ≡ true → result.text.now ≡ [] }
    {
        match self.place {
            Place::Front => self.front.line(number),
            Place::Behind { start, end } => Line {
                number,
                text: &self.behind[start..end],
                long: false,
            },
        }
    }
}
