//! Lines that were refused, in words.

use cdf_model::{LineError, Reason};
use cdf_saving::{BrokenCondition, Condition, LineMark, Refusals, RefusedLine};
use std::fmt;

/// Writes the fault of a line that is no command. Bytes of the line are counted from 0.
fn write_fault<W: fmt::Write>(fault: LineError, f: &mut fmt::Formatter<W>) -> fmt::Result {
    match fault {
        LineError::TooLong { .. } => f.write_str("the line has more than 16777216 bytes"),
        LineError::BadQuote { at } => write!(
            f,
            "at byte {at} stands a quote that is not closed or has no blank beside it, or a backslash that begins no escape"
        ),
        LineError::BadHex { at } => {
            write!(
                f,
                "the backslash at byte {at} wants x and two hexadecimal digits"
            )
        }
        LineError::UnknownWord { at } => {
            write!(f, "the word at byte {at} is none that can stand there")
        }
        LineError::MissingWord { .. } => f.write_str("the line has too few words"),
        LineError::ExtraWord { at } => write!(f, "the word at byte {at} is one too many"),
        LineError::BadNumber { at } => write!(
            f,
            "the word at byte {at} is not the number that is wanted"
        ),
    }
}

/// The name of a reason, and what it means; empty where the words depend on numbers.
fn words_of_reason(reason: Reason) -> &'static str {
    match reason {
        Reason::BadLine { .. } => "BadLine: ",
        Reason::NoSuchAttr => "NoSuchAttr: no attribute has the name",
        Reason::NoSuchVar => "NoSuchVar: no variable has the name",
        Reason::NoSuchTap => "NoSuchTap: no tap has the name",
        Reason::BadName => "BadName: a new name has 1 to 256 bytes, none of them 0",
        Reason::NameTaken => "NameTaken: the new name is there already",
        Reason::WrongScope => {
            "WrongScope: entries of kind g are for attributes of the file, r and z for those of variables"
        }
        Reason::NoSuchEntry => "NoSuchEntry: the attribute has no entry of the kind and number",
        Reason::NumberOutOfRange => {
            "NumberOutOfRange: the number is too large, is no encoding, or is that of no variable"
        }
        Reason::BadShape => {
            "BadShape: a value has at least one element, and just one where its type is not CHAR or UCHAR; \
             there are at most 10 dimensions, each of a size from 1 on and with a letter of VARYS; \
             and a record has at most 67108864 bytes"
        }
        Reason::WrongCount { .. } => "WrongCount: ",
        Reason::BadValue { .. } => "BadValue: ",
        Reason::IndexOutOfRange => {
            "IndexOutOfRange: an index has one number for each dimension, each below the size"
        }
        Reason::RecordOutOfRange => {
            "RecordOutOfRange: the record is past 2147483646, or is not 0 where records do not vary; \
             for del-recs, FIRST is past LAST, or there is no record LAST"
        }
        Reason::InUse => "InUse: the variable has records, or the file has attributes or variables",
        Reason::TooLarge => "TooLarge: the file might come to have more than 1073741824 bytes",
    }
}

/// What marks a line, as it is told behind the reason.
fn words_of_mark(mark: LineMark) -> &'static str {
    match mark {
        LineMark::CarriageReturn => {
            " (the line ends with a carriage return, which is part of its last word: lines end with a newline alone)"
        }
        LineMark::ByteOrderMark => {
            " (the script begins with a byte order mark, which is part of its first word)"
        }
        LineMark::Utf16 => " (the script is UTF-16: a script is ASCII or UTF-8)",
        LineMark::NotYet => " (the command is not there yet)",
    }
}

/// A reason to be written in words.
#[derive(Clone, Copy, Debug)]
pub struct ReasonWords(pub Reason);

impl fmt::Display for ReasonWords {
    fn fmt<W: fmt::Write>(&self, f: &mut fmt::Formatter<W>) -> fmt::Result {
        f.write_str(words_of_reason(self.0))?;
        match self.0 {
            Reason::BadLine { fault } => write_fault(fault, f),
            Reason::WrongCount { found, wanted } => {
                write!(f, "the values are {found}, and {wanted} are wanted")
            }
            Reason::BadValue { at } => {
                write!(
                    f,
                    "value {at}, counted from 0, is not written as its type wants it"
                )
            }
            _ => Ok(()),
        }
    }
}

/// The name of a reason that has several conditions.
fn name_of_reason(reason: Reason) -> &'static str {
    match reason {
        Reason::NumberOutOfRange => "NumberOutOfRange",
        Reason::BadShape => "BadShape",
        Reason::InUse => "InUse",
        _ => "refused",
    }
}

/// Writes a condition that is not met.
fn write_condition<W: fmt::Write>(condition: Condition, f: &mut fmt::Formatter<W>) -> fmt::Result {
    match condition {
        Condition::SomeElements => f.write_str("a value has at least one element"),
        Condition::OneElement(elems) => write!(
            f,
            "a value whose type is not CHAR or UCHAR has 1 element, not {elems}"
        ),
        Condition::FewDimensions(count) => {
            write!(f, "there are at most 10 dimensions, not {count}")
        }
        Condition::DimensionSize { number, size } => write!(
            f,
            "a dimension has a size from 1 to 2147483647, and dimension {number}, counted from 0, has {size}"
        ),
        Condition::Letters {
            letters,
            dimensions,
        } => write!(
            f,
            "VARYS has a letter for each dimension: {dimensions} are wanted, not {letters}"
        ),
        Condition::RecordSize => f.write_str("a record has at most 67108864 bytes"),
        Condition::Encoding(code) => write!(f, "{code} is no encoding"),
        Condition::Signed(n) => write!(f, "{n} is past 2147483647"),
        Condition::EntryNumber(num) => write!(f, "{num} is past 2147483646"),
        Condition::RVariable(num) => write!(f, "no r variable has the number {num}"),
        Condition::ZVariable(num) => write!(f, "no z variable has the number {num}"),
        Condition::EmptyFile => f.write_str("the file has attributes or variables"),
    }
}

/// Writes why a line was refused: the condition that it does not meet, where that is known, else what the reason means.
fn write_reason<W: fmt::Write>(line: &RefusedLine, f: &mut fmt::Formatter<W>) -> fmt::Result {
    let Some(BrokenCondition { condition, word }) = line.broken else {
        return write!(f, "{}", ReasonWords(line.reason));
    };
    write!(f, "{}: ", name_of_reason(line.reason))?;
    if let Some(word) = word {
        write!(f, "word {word}: ")?;
    }
    write_condition(condition, f)
}

/// Writes a line that was refused: its number and the reason.
fn write_line<W: fmt::Write>(line: &RefusedLine, f: &mut fmt::Formatter<W>) -> fmt::Result {
    write!(f, "line {}, ", line.number)?;
    write_reason(line, f)?;
    match line.mark {
        Some(mark) => f.write_str(words_of_mark(mark)),
        None => Ok(()),
    }
}

/// Refusals to be written in words: how many lines were refused, and why the first of them was.
#[derive(Clone, Copy, Debug)]
pub struct RefusalsWords(pub Refusals);

impl fmt::Display for RefusalsWords {
    fn fmt<W: fmt::Write>(&self, f: &mut fmt::Formatter<W>) -> fmt::Result {
        let Refusals {
            answered,
            refused,
            first,
        } = self.0;
        let were = if refused == 1 { "was" } else { "were" };
        write!(f, "{refused} of {answered} lines {were} refused")?;
        match first {
            Some(line) => {
                f.write_str(if refused == 1 {
                    ": "
                } else {
                    ", the first of them "
                })?;
                write_line(&line, f)
            }
            None => Ok(()),
        }
    }
}
