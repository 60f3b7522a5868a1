//! The words of a line, read one after the other.

ghost use Rattle.std.specs.Prelude.{◌≡◌};
ghost use Rattle.cdf_model.specs.declared.answer.LineError.TheVariants.{BadNumber, UnknownWord};
ghost use Rattle.cdf_script.specs.declared.fault.ParseError.TheVariants.{Bad};

use crate::argument::{
    read_choice, read_kind, read_majority, read_number, read_numbers, read_rule, read_scope,
    read_type, read_varys,
};
use crate::fault::ParseError;
use crate::raw_word::RawWord;
use crate::verb::Verb;
use crate::word::{count_words, first_word};
use crate::word_text::Argument;
use cdf_model::{
    Bytes, DataType, EntryKind, LineError, Majority, Nums, Scope, Sparse, Varys, Words,
    WordsBuilder,
};
use std::alloc::{AllocError, Global};
use std::marker::Model;

/// The words of a line that were not read yet. Its quotes have no fault.
#[derive(Drop)]
pub struct Arguments<'a> {
    alloc: Global,
    /// Where the rest of the line stands.
    place: usize,
    rest: &'a [u8],
    /// How many words are left.
    count: usize,
}

impl<'a> Model for Arguments<'a> {
    ghost use Rattle.std.specs.Prelude.{List, ◌≡◌, ◌<◌, ◌^◌, ◌+◌, length, Ok};
    ghost use Rattle.cdf_model.specs.Quoting.{Word};
    ghost use Rattle.cdf_script.specs.Left.{how_many, words_at, words_in};

    ghost Value = { List Word };

    ghost view = { λ a. words_in (words_at a.place a.rest.now) };

    ghost invariant = { λ a. (how_many (words_at a.place a.rest.now) ≡ Ok a.count) × (a.place + length a.rest.now < 2 ^ 63) };
}

impl<'a> Arguments<'a> {
    ghost use Rattle.std.specs.Prelude.{◌≡◌, ◌∷◌, [], ◌<◌, ◌≤◌, ◌+◌, length, map, drop, false, Ok, Err, MatchResult, IfOk, IfSome, IfNone, OnOk};
    ghost use Rattle.cdf_model.specs.Forms.{wanted, AText, ANumber, Numbers, Varies, AType, AScope, AKind, AMajority, ARule, AChoice, AValue};
    ghost use Rattle.cdf_model.specs.Quoting.{words};
    ghost use Rattle.cdf_script.specs.Counting.{Begins, BeginsAt, Counts};
    ghost use Rattle.cdf_script.specs.Reading.{Takes};
    ghost use Rattle.cdf_script.specs.Verbs.{row_of};
    ghost use Rattle.cdf_script.specs.Words.{word_of};

    /// All words of a line, or the leftmost fault of its quotes.
    pub fn of(alloc: Global, line: &'a [u8]) -> Result<Self, LineError>
        ensures { MatchResult result (λ all. words line.now ≡ Ok all) (λ fault. words line.now ≡ Err fault) }
    {
        let count = count_words(line)?;
        Ok(Arguments {
            alloc,
            place: 0,
            rest: line,
            count,
        })
    }

    /// The next word.
    fn next_word(&mut self) -> Option<RawWord<'a>>
        ensures none { IfNone result (self.old ≡ []) }
        ensures unchanged { IfNone result (self.new ≡ self.old) }
        ensures word { IfSome result (λ word. self.old ≡ word ∷ self.new) }
    {
        match first_word(self.place, self.rest) {
            Ok(Some(found)) => {
                self.place += found.used;
                self.rest = self.rest.split_at(found.used).1;
                self.count -= 1;
                Some(found.word)
            }
            Ok(None) => None,
            Err(_) => unreachable!(),
        }
    }

    /// The verb that the next word names; none where no word is left.
    pub fn verb(&mut self) -> Result<Option<Verb>, ParseError>
        ensures { Begins self.old self.new result }
    {
        if self.count == 0 {
            return Ok(None);
        }
        let word = self.argument()?;
        let Some(verb) = Verb::of_name(word.text.as_slice()) else {
            return Err(unknown_word(word.place));
        };
        Ok(Some(verb))
    }

    /// Whether there are as many words as a verb wants, on a line of so many bytes.
    pub fn check_count(&self, verb: Verb, line_length: usize) -> Result<(), LineError>
        ensures enough { OnOk result (wanted (row_of verb) ≤ length self.now) }
        ensures exact { OnOk result ((row_of verb).is_open ≡ false → length self.now ≡ wanted (row_of verb)) }
        ensures counts { Counts line_length (row_of verb) self.now result }
    {
        let wanted = verb.wanted();
        if self.count < wanted {
            return Err(LineError::MissingWord {
                at: line_length as u64,
            });
        }
        if self.count > wanted && !verb.is_open() {
            return Err(LineError::ExtraWord {
                at: self.place_of_word(wanted) as u64,
            });
        }
        Ok(())
    }

    fn skip_word(&mut self)
        ensures { self.new ≡ drop 1 self.old }
    {
        match self.next_word() {
            Some(_word) => (),
            None => (),
        }
    }

    /// Where a word stands in the line that is so many words on.
    fn place_of_word(&self, number: usize) -> usize
        requires { number < length self.now }
        ensures { BeginsAt (drop number self.now) result }
    {
        let mut left = Arguments {
            alloc: self.alloc,
            place: self.place,
            rest: self.rest,
            count: self.count,
        };
        let mut passed = 0;
        while passed < number {
            left.skip_word();
            passed += 1;
        }
        let Some(word) = left.next_word() else {
            unreachable!()
        };
        word.place()
    }

    /// The next word, read.
    fn argument(&mut self) -> Result<Argument<'a>, AllocError>
        requires { 0 < length self.old }
        ensures { IfOk result (λ word. self.old ≡ word_of word ∷ self.new) }
    {
        let Some(word) = self.next_word() else {
            unreachable!()
        };
        let text = word.read(self.alloc)?;
        Ok(Argument {
            place: word.place(),
            text,
        })
    }

    /// A text, which may be any word.
    pub fn text(&mut self) -> Result<Bytes, ParseError>
        requires { 0 < length self.old }
        ensures takes { Takes AText self.old self.new result }
        ensures left { OnOk result (length self.old ≡ length self.new + 1) }
    {
        let word = self.argument()?;
        let bytes = word.text.into_bytes(self.alloc)?;
        Ok(bytes)
    }

    /// A number.
    pub fn number(&mut self) -> Result<u32, ParseError>
        requires { 0 < length self.old }
        ensures takes { Takes ANumber self.old self.new result }
        ensures left { OnOk result (length self.old ≡ length self.new + 1) }
    {
        let word = self.argument()?;
        let Some(number) = read_number(word.text.as_slice()) else {
            return Err(bad_number(word.place));
        };
        Ok(number)
    }

    /// The name of a type.
    pub fn data_type(&mut self) -> Result<DataType, ParseError>
        requires { 0 < length self.old }
        ensures takes { Takes AType self.old self.new result }
        ensures left { OnOk result (length self.old ≡ length self.new + 1) }
    {
        let word = self.argument()?;
        let Some(t) = read_type(word.text.as_slice()) else {
            return Err(unknown_word(word.place));
        };
        Ok(t)
    }

    /// `global` or `variable`.
    pub fn scope(&mut self) -> Result<Scope, ParseError>
        requires { 0 < length self.old }
        ensures takes { Takes AScope self.old self.new result }
        ensures left { OnOk result (length self.old ≡ length self.new + 1) }
    {
        let word = self.argument()?;
        let Some(scope) = read_scope(word.text.as_slice()) else {
            return Err(unknown_word(word.place));
        };
        Ok(scope)
    }

    /// `g`, `r` or `z`.
    pub fn kind(&mut self) -> Result<EntryKind, ParseError>
        requires { 0 < length self.old }
        ensures takes { Takes AKind self.old self.new result }
        ensures left { OnOk result (length self.old ≡ length self.new + 1) }
    {
        let word = self.argument()?;
        let Some(kind) = read_kind(word.text.as_slice()) else {
            return Err(unknown_word(word.place));
        };
        Ok(kind)
    }

    /// `row` or `column`.
    pub fn majority(&mut self) -> Result<Majority, ParseError>
        requires { 0 < length self.old }
        ensures takes { Takes AMajority self.old self.new result }
        ensures left { OnOk result (length self.old ≡ length self.new + 1) }
    {
        let word = self.argument()?;
        let Some(majority) = read_majority(word.text.as_slice()) else {
            return Err(unknown_word(word.place));
        };
        Ok(majority)
    }

    /// `none`, `pad` or `previous`.
    pub fn rule(&mut self) -> Result<Sparse, ParseError>
        requires { 0 < length self.old }
        ensures takes { Takes ARule self.old self.new result }
        ensures left { OnOk result (length self.old ≡ length self.new + 1) }
    {
        let word = self.argument()?;
        let Some(rule) = read_rule(word.text.as_slice()) else {
            return Err(unknown_word(word.place));
        };
        Ok(rule)
    }

    /// DIMS or INDEX.
    pub fn numbers(&mut self) -> Result<Nums, ParseError>
        requires { 0 < length self.old }
        ensures takes { Takes Numbers self.old self.new result }
        ensures left { OnOk result (length self.old ≡ length self.new + 1) }
    {
        let word = self.argument()?;
        let Some(numbers) = read_numbers(self.alloc, word.text.as_slice())? else {
            return Err(bad_number(word.place));
        };
        Ok(numbers)
    }

    /// VARYS.
    pub fn varys(&mut self) -> Result<Varys, ParseError>
        requires { 0 < length self.old }
        ensures takes { Takes Varies self.old self.new result }
        ensures left { OnOk result (length self.old ≡ length self.new + 1) }
    {
        let word = self.argument()?;
        let Some(varys) = read_varys(self.alloc, word.text.as_slice())? else {
            return Err(unknown_word(word.place));
        };
        Ok(varys)
    }

    /// All words that are left, as the values of a command.
    pub fn values(&mut self) -> Result<Words, AllocError>
        ensures { IfOk result (λ values. values ≡ map (λ word. word.bytes) self.old) }
    {
        let mut values = WordsBuilder::new(self.alloc, self.rest.len())?;
        while self.count > 0 {
            let word = self.argument()?;
            values.append(word.text.as_slice())?;
            values.end_word()?;
        }
        Ok(values.finish())
    }

    /// The first of two words, or the second.
    pub fn choice(&mut self, first: &[u8], second: &[u8]) -> Result<bool, ParseError>
        requires { 0 < length self.old }
        ensures takes { Takes (AChoice first.now second.now) self.old self.new result }
        ensures left { OnOk result (length self.old ≡ length self.new + 1) }
    {
        let word = self.argument()?;
        let Some(chosen) = read_choice(first, second, word.text.as_slice()) else {
            return Err(unknown_word(word.place));
        };
        Ok(chosen)
    }
}

fn bad_number(place: usize) -> ParseError
    ensures { result ≡ Bad (BadNumber place) }
{
    ParseError::Bad {
        fault: LineError::BadNumber { at: place as u64 },
    }
}

fn unknown_word(place: usize) -> ParseError
    ensures { result ≡ Bad (UnknownWord place) }
{
    ParseError::Bad {
        fault: LineError::UnknownWord { at: place as u64 },
    }
}
