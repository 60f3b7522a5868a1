//! The bytes of a line that has not ended, as long as it is not too long.

use crate::line::Line;
use cdf_model::limits::LINE_LIMIT;
use std::alloc::{AllocError, Global};
use std::marker::Model;

/// The bytes of a line, unless it is too long.
#[derive(Drop)]
pub struct Text {
    bytes: Vec<u8>,
    long: bool,
}

impl Model for Text {
    ghost use Rattle.cdf_model.specs.Limits.{line_limit};
    ghost use Rattle.std.specs.Prelude.{◌≡◌, ◌≤◌, ℕ, List, [], length, true, Some, None, if◌then◌else◌};
    ghost use Rattle.std.specs.declared.option.Option.{Option};

    ghost Value = { Option (List ℕ) };

    ghost view = { λ text. if text.long then None else Some text.bytes.items };

    ghost invariant = { λ text. (text.long ≡ true → text.bytes.items ≡ []) × (length text.bytes.items ≤ line_limit) };
}

impl Text {
    ghost use Rattle.std.specs.Prelude.{◌≡◌, ◌↔◌, [], Some, None, true, IfOk, OnOk, OnErr, IsTrue};
    ghost use Rattle.cdf_model.specs.Lines.{kept};
    ghost use Rattle.cdf_lines.specs.Pending.{grown, line_of};

    pub fn new(alloc: Global) -> Self
        ensures { result ≡ Some [] }
    {
        Text {
            bytes: Vec::new(alloc),
            long: false,
        }
    }

    pub fn from_slice(alloc: Global, line: &[u8]) -> Result<Self, AllocError>
        ensures { IfOk result (λ text. text ≡ kept line.now) }
    {
        if line.len() > LINE_LIMIT {
            return Ok(Text::too_long(alloc));
        }
        let bytes = Vec::from_slice(alloc, line)?;
        Ok(Text { bytes, long: false })
    }

    fn too_long(alloc: Global) -> Self
        ensures { result ≡ None }
    {
        Text {
            bytes: Vec::new(alloc),
            long: true,
        }
    }

    pub fn is_empty(&self) -> bool
        ensures { IsTrue result ↔ (self.now ≡ Some []) }
    {
        !self.long && self.bytes.is_empty()
    }

    /// More bytes of the line. Once it is too long its memory is let go.
    pub fn append(&mut self, alloc: Global, more: &[u8]) -> Result<(), AllocError>
        ensures ok { OnOk result (self.new ≡ grown self.old more.now) }
        ensures err { OnErr result (self.new ≡ self.old) }
    {
        if self.long {
            return Ok(());
        }
        if more.len() > LINE_LIMIT - self.bytes.len() {
            *self = Text::too_long(alloc);
            return Ok(());
        }
        self.bytes.extend_from_slice(more)?;
        Ok(())
    }

    #[inline(always)]
    pub fn line(&self, number: u64) -> Line<'_>
        ensures text { line_of result ≡ self.now }
        ensures number { result.number ≡ number }
        ensures no_text { result.long ≡ true → result.text.now ≡ [] }
    {
        Line {
            number,
            text: &self.bytes,
            long: self.long,
        }
    }
}
