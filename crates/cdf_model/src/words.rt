//! Lists of words, held as their bytes.

ghost use Rattle.std.specs.Prelude.{◌≡◌, ◌++◌, OnErr, OnOk, nat_lt, position};
ghost use Rattle.cdf_model.specs.Parts.{parts_of};

use std::alloc::{AllocError, Global};
use std::marker::Model;

/// The most bytes of a part of a word. A part that has fewer ends the word, and one that has as many goes on in the next part.
const PART: usize = 255;

/// A list of words, as the values of a command: the bytes of all words, joined, and the sizes of their parts. So a list takes one byte
/// more than its words for each word, and for each 255 bytes of one.
#[derive(Drop)]
pub struct Words {
    bytes: Vec<u8>,
    sizes: Vec<u8>,
    count: usize,
}

impl Model for Words {
    ghost use Rattle.std.specs.Prelude.{◌≡◌, ℕ, List, length};
    ghost use Rattle.cdf_model.specs.Parts.{cut, Hold};

    ghost Value = { List (List ℕ) };

    ghost view = { λ words. cut words.sizes.items words.bytes.items };

    ghost invariant = { λ words. let held = cut words.sizes.items words.bytes.items in Hold held words.sizes.items words.bytes.items × (words.count ≡ length held) };
}

impl Words {
    ghost use Rattle.std.specs.Prelude.{◌≡◌, ◌↔◌, [], ◌∷◌, ◌++◌, length, IsTrue, OnErr, OnOk};

    pub fn new(alloc: Global) -> Self
        ensures { result ≡ [] }
    {
        Words {
            bytes: Vec::new(alloc),
            sizes: Vec::new(alloc),
            count: 0,
        }
    }

    /// A word behind the others.
    pub fn push(&mut self, word: &[u8]) -> Result<(), AllocError>
        ensures ok { OnOk result (self.new ≡ self.old ++ word.now ∷ []) }
        ensures err { OnErr result (self.new ≡ self.old) }
    {
        self.bytes.reserve(word.len())?;
        push_parts(&mut self.sizes, word.len())?;
        self.bytes.extend_from_slice(word).unwrap();
        self.count += 1;
        Ok(())
    }

    /// How many words there are.
    pub fn len(&self) -> usize
        ensures { result ≡ length self.now }
    {
        self.count
    }

    pub fn is_empty(&self) -> bool
        ensures { IsTrue result ↔ (self.now ≡ []) }
    {
        self.count == 0
    }

    /// The words from the first one on.
    pub fn iter(&self) -> WordIter<'_>
        ensures { result ≡ self.now }
    {
        WordIter {
            bytes: &self.bytes,
            sizes: &self.sizes,
        }
    }
}

/// The words of a list that were not given yet.
#[derive(Drop)]
pub struct WordIter<'a> {
    bytes: &'a [u8],
    sizes: &'a [u8],
}

impl<'a> Model for WordIter<'a> {
    ghost use Rattle.std.specs.Prelude.{ℕ, List};
    ghost use Rattle.cdf_model.specs.Parts.{cut, Hold};

    ghost Value = { List (List ℕ) };

    ghost view = { λ words. cut words.sizes.now words.bytes.now };

    ghost invariant = { λ words. Hold (cut words.sizes.now words.bytes.now) words.sizes.now words.bytes.now };
}

impl<'a> WordIter<'a> {
    ghost use Rattle.std.specs.Prelude.{◌≡◌, ◌↔◌, [], ◌∷◌, IsNone, IfNone, IfSome};

    /// The next word.
    pub fn next_word(&mut self) -> Option<&'a [u8]>
        ensures none { IsNone result ↔ (self.old ≡ []) }
        ensures unchanged { IfNone result (self.new ≡ self.old) }
        ensures word { IfSome result (λ word. self.old ≡ word.now ∷ self.new) }
    {
        let full = full_parts(self.sizes)?;
        let size = full * PART + usize::from(self.sizes[full]);
        let (word, bytes) = self.bytes.split_at(size);
        self.bytes = bytes;
        self.sizes = &self.sizes[full + 1..];
        Some(word)
    }
}

/// Words that are gathered one after the other, the last of them byte by byte: it begins at `start`.
#[derive(Drop)]
pub struct WordsBuilder {
    bytes: Vec<u8>,
    sizes: Vec<u8>,
    count: usize,
    start: usize,
}

impl Model for WordsBuilder {
    ghost use Rattle.std.specs.Prelude.{◌≡◌, ◌≤◌, length, take, drop};
    ghost use Rattle.cdf_model.specs.Gathered.{Gathered};
    ghost use Rattle.cdf_model.specs.Parts.{cut, Hold};

    ghost Value = { Gathered };

    ghost view = { λ builder. record { words = cut builder.sizes.items (take builder.start builder.bytes.items); last = drop builder.start builder.bytes.items } };

    ghost invariant = { λ builder. let ended = take builder.start builder.bytes.items in let held = cut builder.sizes.items ended in Hold held builder.sizes.items ended × (builder.count ≡ length held) × (builder.start ≤ length builder.bytes.items) };
}

impl WordsBuilder {
    ghost use Rattle.std.specs.Prelude.{◌≡◌, OnOk, OnErr, IfOk};
    ghost use Rattle.cdf_model.specs.Gathered.{nothing_gathered, longer, ended};

    /// Makes room for words that have so many bytes in all. The sizes of the words take more room as they come.
    pub fn new(alloc: Global, room: usize) -> Result<Self, AllocError>
        ensures { IfOk result (λ builder. builder ≡ nothing_gathered) }
    {
        let bytes = Vec::with_capacity(alloc, room)?;
        Ok(WordsBuilder {
            bytes,
            sizes: Vec::new(alloc),
            count: 0,
            start: 0,
        })
    }

    /// More bytes of the last word.
    pub fn append(&mut self, bytes: &[u8]) -> Result<(), AllocError>
        ensures ok { OnOk result (self.new ≡ longer self.old bytes.now) }
        ensures err { OnErr result (self.new ≡ self.old) }
    {
        self.bytes.extend_from_slice(bytes)?;
        Ok(())
    }

    /// The last word ends, and another begins.
    pub fn end_word(&mut self) -> Result<(), AllocError>
        ensures ok { OnOk result (self.new ≡ ended self.old) }
        ensures err { OnErr result (self.new ≡ self.old) }
    {
        let end = self.bytes.len();
        push_parts(&mut self.sizes, end - self.start)?;
        self.count += 1;
        self.start = end;
        Ok(())
    }

    /// The words that have ended.
    pub fn finish(self) -> Words
        ensures { result ≡ self.words }
    {
        let WordsBuilder {
            mut bytes,
            sizes,
            count,
            start,
        } = self;
        bytes.truncate(start);
        Words {
            bytes,
            sizes,
            count,
        }
    }
}

/// How many parts of the first word go on in the next one; none where there is no word.
fn full_parts(sizes: &[u8]) -> Option<usize>
    ensures { result ≡ position (λ size. nat_lt size 255) sizes.now }
{
    sizes.iter().position(|size| usize::from(*size) < PART)
}

/// Writes the parts of a word of so many bytes behind those of other words.
fn push_parts(sizes: &mut Vec<u8>, size: usize) -> Result<(), AllocError>
    ensures ok { OnOk result (sizes.new.items ≡ sizes.old.items ++ parts_of size) }
    ensures err { OnErr result (sizes.new.items ≡ sizes.old.items) }
{
    let full = size / PART;
    sizes.reserve(full + 1)?;
    sizes.resize(sizes.len() + full, u8::MAX).unwrap();
    sizes.push((size % PART) as u8)?;
    Ok(())
}
