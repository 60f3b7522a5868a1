//! A row: what a run is given, and what it has to write, to answer and to leave.

use crate::bytes::{bytes_in, number_in};
use anyhow::{Result, bail};
use std::alloc::Global;

/// Bytes that are written over a file from a place on, as far as it goes.
#[derive(Drop)]
pub struct Change {
    pub place: usize,
    pub bytes: Vec<u8>,
}

impl Change {
    /// A place and hexadecimal digits.
    pub fn read(alloc: Global, text: &str) -> Result<Change> {
        let (place, digits) = text.split_once(' ').unwrap_or((text, ""));
        Ok(Change {
            place: number_in(place)?,
            bytes: bytes_in(alloc, digits)?,
        })
    }

    /// Writes the bytes.
    pub fn write(&self, file: &mut [u8]) {
        for (target, byte) in file.iter_mut().skip(self.place).zip(&self.bytes) {
            *target = *byte;
        }
    }
}

/// One row of a table. A file is named as in the table; `none` is no file.
#[derive(Drop)]
pub struct Row {
    pub title: String,
    /// The words of the command line.
    pub words: Vec<String>,
    /// The name of the file that the row speaks of.
    pub name: String,
    /// This file before the run, but for the changes.
    pub before: String,
    pub changes: Vec<Change>,
    pub script: Vec<u8>,
    /// What has to be written.
    pub text: Vec<u8>,
    pub status: usize,
    /// What has to be told of the run on standard error, line by line, if that is asked.
    pub told: Option<String>,
    /// The calls of the store that fail, counted from 1.
    pub fails: Vec<u64>,
    /// How often the store has to be called, if that is asked.
    pub calls: Option<usize>,
    /// The file after the run; the one before it, if none is said.
    pub after: Option<String>,
    /// The file is saved though it stays as it was.
    pub is_saved: bool,
    /// How many bytes a new file may grow to, over which the script is run, and not the whole program.
    pub limit: Option<usize>,
}

/// Appends a line and its newline.
fn push_line(bytes: &mut Vec<u8>, line: &str) -> Result<()> {
    bytes.extend_from_slice(line.as_bytes())?;
    bytes.push(b'\n')?;
    Ok(())
}

/// Appends bytes so often one behind the other.
fn push_repeated(alloc: Global, bytes: &mut Vec<u8>, text: &str) -> Result<()> {
    let Some((count, digits)) = text.split_once(' ') else {
        bail!("what is repeated?");
    };
    let part = bytes_in(alloc, digits)?;
    for _ in 0..number_in(count)? {
        bytes.extend_from_slice(&part)?;
    }
    Ok(())
}

impl Row {
    /// A row that asks for `a.cdf`, which is the file `new` of the table, without a script.
    pub fn new(alloc: Global, title: &str) -> Result<Row> {
        let mut words = Vec::new(alloc);
        words.push(String::from_str(alloc, "a.cdf")?)?;
        Ok(Row {
            title: String::from_str(alloc, title)?,
            words,
            name: String::from_str(alloc, "a.cdf")?,
            before: String::from_str(alloc, "new")?,
            changes: Vec::new(alloc),
            script: Vec::new(alloc),
            text: Vec::new(alloc),
            status: 0,
            told: None,
            fails: Vec::new(alloc),
            calls: None,
            after: None,
            is_saved: false,
            limit: None,
        })
    }

    /// The words of the command line; `""` is the empty one.
    fn take_words(&mut self, alloc: Global, text: &str) -> Result<()> {
        self.words.clear();
        for word in text.split_whitespace() {
            let word = if word == "\"\"" { "" } else { word };
            self.words.push(String::from_str(alloc, word)?)?;
        }
        Ok(())
    }

    /// A further line that has to be told.
    fn take_told(&mut self, alloc: Global, text: &str) -> Result<()> {
        match &mut self.told {
            Some(told) => {
                told.push('\n')?;
                told.push_str(text)?;
            }
            None => self.told = Some(String::from_str(alloc, text)?),
        }
        Ok(())
    }

    /// The calls of the store that fail.
    fn take_fails(&mut self, text: &str) -> Result<()> {
        for word in text.split_whitespace() {
            self.fails.push(number_in(word)? as u64)?;
        }
        Ok(())
    }

    /// Takes a part of the row.
    pub fn take(&mut self, alloc: Global, key: &str, text: &str) -> Result<()> {
        match key {
            "words" => self.take_words(alloc, text)?,
            "under" => self.name = String::from_str(alloc, text)?,
            "before" => self.before = String::from_str(alloc, text)?,
            "with" => self.changes.push(Change::read(alloc, text)?)?,
            "script" => push_line(&mut self.script, text)?,
            "last" => self.script.extend_from_slice(text.as_bytes())?,
            "bytes" => self.script.extend_from_slice(&bytes_in(alloc, text)?)?,
            "repeat" => push_repeated(alloc, &mut self.script, text)?,
            "text" => push_line(&mut self.text, text)?,
            "text-bytes" => self.text.extend_from_slice(&bytes_in(alloc, text)?)?,
            "text-repeat" => push_repeated(alloc, &mut self.text, text)?,
            "status" => self.status = number_in(text)?,
            "told" => self.take_told(alloc, text)?,
            "fails" => self.take_fails(text)?,
            "calls" => self.calls = Some(number_in(text)?),
            "after" => self.after = Some(String::from_str(alloc, text)?),
            "saved" => self.is_saved = true,
            "limit" => self.limit = Some(number_in(text)?),
            _ => bail!("{key} is no part of a row"),
        }
        Ok(())
    }
}
