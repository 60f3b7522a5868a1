//! The lines of a script that comes in pieces.

ghost use Rattle.std.specs.Prelude.{◌≡◌, ◌++◌, OnOk, IfOk};
ghost use Rattle.std.specs.List.{flat_map};
ghost use Rattle.cdf_model.specs.Lines.{kept, split, whole_lines};
ghost use Rattle.cdf_lines.specs.Waiting.{lines_of};

use crate::block::Block;
use crate::line::Line;
use crate::split::{first_line, leading_lines};
use crate::text::Text;
use std::alloc::{AllocError, Global};
use std::collections::VecDeque;
use std::marker::Model;
use std::mem;

/// The lines of a script that comes in pieces.
#[derive(Drop)]
pub struct Lines {
    alloc: Global,
    /// At the line given last.
    block: Block,
    waiting: VecDeque<Block>,
    rest: Text,
    given: u64,
    /// How many bytes were fed.
    taken: u64,
    over: bool,
}

impl Model for Lines {
    ghost use Rattle.std.specs.VecDeque.{deque_len, deque_capacity};
    ghost use Rattle.cdf_lines.specs.Pending.{Pending};
    ghost use Rattle.cdf_lines.specs.Waiting.{ready_of, HasRoom};

    ghost Value = { Pending };

    ghost view = { λ l. record { given = l.given; line = l.block.line; ready = ready_of l.block l.waiting.items; rest = l.rest; over = l.over } };

    ghost invariant = { λ l. HasRoom l.given (ready_of l.block l.waiting.items) l.rest l.taken (deque_len l.waiting) (deque_capacity l.waiting) };
}

impl Lines {
    ghost use Rattle.std.specs.Prelude.{◌≡◌, ◌↔◌, [], true, false, IsTrue, OnOk, OnErr};
    ghost use Rattle.cdf_lines.specs.Pending.{nothing_fed, fed, finished, line_of, GivesLine};

    pub fn new(alloc: Global) -> Self
        ensures { result ≡ nothing_fed }
    {
        Lines {
            alloc,
            block: Block::new(Text::new(alloc), Vec::new(alloc)),
            waiting: VecDeque::new(alloc),
            rest: Text::new(alloc),
            given: 0,
            taken: 0,
            over: false,
        }
    }

    /// Takes the next bytes of the script. The room of each line that has ended, and of the one that `finish` may end, is made here, so that neither
    /// `finish` nor `next_line` takes memory.
    pub fn feed(&mut self, piece: &[u8]) -> Result<(), AllocError>
        requires { self.old.over ≡ false }
        ensures ok { OnOk result (self.new ≡ fed self.old piece.now) }
        ensures err { OnErr result (self.new ≡ self.old) }
    {
        let Some(taken) = self.taken.checked_add(piece.len() as u64) else {
            return Err(AllocError);
        };
        let Some((line, others)) = first_line(piece) else {
            self.waiting.reserve(1)?;
            self.rest.append(self.alloc, piece)?;
            self.taken = taken;
            return Ok(());
        };
        let (whole, others) = leading_lines(others);
        let behind = Vec::from_slice(self.alloc, whole)?;
        let mut lines = VecDeque::new(self.alloc);
        let rest = push_lines(self.alloc, &mut lines, others)?;
        self.waiting.reserve(lines.len() + 2)?;
        self.rest.append(self.alloc, line)?;
        // Nothing fails from here on: there is room.
        let text = mem::replace(&mut self.rest, rest);
        self.waiting.push_back_reserved(Block::new(text, behind));
        self.waiting.append(&mut lines)?;
        self.taken = taken;
        Ok(())
    }

    /// Says that the script has ended: a last line without a newline counts if it is not empty.
    pub fn finish(&mut self)
        ensures { self.new ≡ finished self.old }
    {
        if !self.rest.is_empty() {
            let text = mem::replace(&mut self.rest, Text::new(self.alloc));
            self.waiting
                .push_back_reserved(Block::new(text, Vec::new(self.alloc)));
        }
        self.over = true;
    }

    /// Goes on to the next line that has ended, and says whether there is one.
    #[inline(always)]
    pub fn next_line(&mut self) -> bool
        ensures none { result ≡ false ↔ (self.old.ready ≡ []) }
        ensures unchanged { result ≡ false → self.new ≡ self.old }
        ensures line { IsTrue result → GivesLine self.old self.new }
    {
        if !self.block.advance() {
            let Some(block) = self.waiting.pop_front() else {
                return false;
            };
            self.block = block;
        }
        self.given += 1;
        true
    }

    /// The line given last, with its number. Before the first one it is an empty line with the number 0.
    #[inline(always)]
    pub fn line(&self) -> Line<'_>
        ensures text { line_of result ≡ self.now.line }
        ensures number { result.number ≡ self.now.given }
        ensures no_text { result.long ≡ true → result.text.now ≡ [] }
    {
        self.block.line(self.given)
    }
}

/// The lines of a text behind those that wait. The answer is what stands after the last newline.
fn push_lines(alloc: Global, waiting: &mut VecDeque<Block>, text: &[u8]) -> Result<Text, AllocError>
    ensures lines { OnOk result (flat_map lines_of waiting.new.items ≡ flat_map lines_of waiting.old.items ++ whole_lines text.now) }
    ensures rest { IfOk result (λ rest. rest ≡ kept (split text.now).1) }
{
    let mut left = text;
    while let Some((line, others)) = first_line(left) {
        let (whole, others) = leading_lines(others);
        let text = Text::from_slice(alloc, line)?;
        let behind = Vec::from_slice(alloc, whole)?;
        waiting.push_back(Block::new(text, behind))?;
        left = others;
    }
    Text::from_slice(alloc, left)
}
