//! A file of rows: the files that they speak of, and the rows.

use crate::bytes::number_in;
use crate::row::{Change, Row};
use anyhow::{Context, Result, bail};
use std::alloc::Global;

/// A file with its name in the table.
#[derive(Drop)]
pub struct Named {
    pub name: String,
    pub bytes: Vec<u8>,
}

/// What a file of rows has.
#[derive(Drop)]
pub struct Table {
    alloc: Global,
    files: Vec<Named>,
    pub rows: Vec<Row>,
}

/// The first word of a line, and the rest of the line behind one blank.
fn key_of(line: &str) -> (&str, &str) {
    line.split_once(' ').unwrap_or((line, ""))
}

impl Table {
    pub fn new(alloc: Global) -> Table {
        Table {
            alloc,
            files: Vec::new(alloc),
            rows: Vec::new(alloc),
        }
    }

    /// Reads a file of rows in place of those read before. The files that were told before stay.
    pub fn read(&mut self, text: &str) -> Result<()> {
        self.rows.clear();
        for line in text.lines() {
            self.take_line(line)
                .context(format_args!("in the line {line}"))?;
        }
        Ok(())
    }

    /// The bytes of a file.
    pub fn file(&self, name: &str) -> Result<&[u8]> {
        for file in &self.files {
            if file.name.as_str() == name {
                return Ok(&file.bytes);
            }
        }
        bail!("no file {name} in the table")
    }

    /// Begins a file: its name, how many bytes it has, and the file, if any, whose bytes it begins with.
    fn begin_file(&mut self, text: &str) -> Result<()> {
        let mut words = text.split_whitespace();
        let (Some(name), Some(size)) = (words.next(), words.next()) else {
            bail!("a file wants a name and a size");
        };
        let mut bytes = match words.next() {
            Some(base) => Vec::from_slice(self.alloc, self.file(base)?)?,
            None => Vec::new(self.alloc),
        };
        bytes.resize(number_in(size)?, 0)?;
        let name = String::from_str(self.alloc, name)?;
        self.files.push(Named { name, bytes })?;
        Ok(())
    }

    /// Puts bytes into the file begun last.
    fn put_bytes(&mut self, text: &str) -> Result<()> {
        let change = Change::read(self.alloc, text)?;
        let Some(file) = self.files.last_mut() else {
            bail!("bytes before the first file");
        };
        change.write(&mut file.bytes);
        Ok(())
    }

    /// Takes a line: a comment, a part of a file, the beginning of a row or a part of it.
    fn take_line(&mut self, line: &str) -> Result<()> {
        let (key, text) = key_of(line.trim_start());
        match key {
            "" | "#" => Ok(()),
            "file" => self.begin_file(text),
            "at" => self.put_bytes(text),
            "row" => {
                let row = Row::new(self.alloc, text)?;
                self.rows.push(row)?;
                Ok(())
            }
            _ => match self.rows.last_mut() {
                Some(row) => row.take(self.alloc, key, text),
                None => bail!("{key} before the first row"),
            },
        }
    }
}
