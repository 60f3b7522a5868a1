//! Words that were read.

use cdf_model::Bytes;
use std::alloc::{AllocError, Global};

/// The bytes of a word: a part of the line where they stand as they are, else bytes of their own.
#[derive(Drop)]
pub enum WordText<'a> {
    Lent(&'a [u8]),
    Owned(Vec<u8>),
}

impl<'a> WordText<'a> {
    ghost use Rattle.std.specs.Prelude.{◌≡◌, IfOk};
    ghost use Rattle.cdf_script.specs.Words.{bytes_of};

    pub fn as_slice(&self) -> &[u8]
        ensures { result.now ≡ bytes_of self.now }
    {
        match self {
            WordText::Lent(text) => text,
            WordText::Owned(bytes) => bytes,
        }
    }

    pub fn into_bytes(self, alloc: Global) -> Result<Bytes, AllocError>
        ensures { IfOk result (λ bytes. bytes ≡ bytes_of self.entry) }
    {
        match self {
            WordText::Lent(text) => Ok(Bytes::new(Vec::from_slice(alloc, text)?)),
            WordText::Owned(bytes) => Ok(Bytes::new(bytes)),
        }
    }
}

/// A word that was read, and where it stands in the line.
#[derive(Drop)]
pub struct Argument<'a> {
    pub place: usize,
    pub text: WordText<'a>,
}
