//! A row is tried: in pieces of several sizes, with each device failing at each of its calls in turn, and, where it saves its file, through
//! a log over a disk that stops after each of its calls in turn; one with a limit once, over a session.

use crate::devices::{Devices, Ran, run_row};
use crate::limited::run_limited;
use crate::row::Row;
use crate::stopped::fault_of_stopped;
use crate::table::Table;
use anyhow::Result;
use std::alloc::Global;

/// The sizes of the pieces in which a script is given.
const PIECES: [usize; 5] = [1, 2, 3, 7, 65_536];

/// The most bytes of a script that is tried in all of them, each also over failing devices.
const SHORT: usize = 10_000;

/// The most bytes of one that is also tried through a log.
const SHORTER: usize = 2_000;

/// What a row is tried with.
#[derive(Drop)]
pub struct Trial<'a> {
    alloc: Global,
    row: &'a Row,
    before: Option<Vec<u8>>,
    /// The file that the row names for after the run.
    after: Option<&'a [u8]>,
}

/// The file of a name, or none.
fn file_named<'a>(table: &'a Table, name: &str) -> Result<Option<&'a [u8]>> {
    if name == "none" {
        return Ok(None);
    }
    Ok(Some(table.file(name)?))
}

/// The file of a row before its run, with the changes that the row makes of it.
fn file_before(alloc: Global, table: &Table, row: &Row) -> Result<Option<Vec<u8>>> {
    let Some(named) = file_named(table, row.before.as_str())? else {
        return Ok(None);
    };
    let mut bytes = Vec::from_slice(alloc, named)?;
    for change in &row.changes {
        change.write(&mut bytes);
    }
    Ok(Some(bytes))
}

/// What is wrong with a run, if anything is.
fn wrong_if(faults: &[(bool, &'static str)]) -> Option<&'static str> {
    for (is_wrong, fault) in faults {
        if *is_wrong {
            return Some(fault);
        }
    }
    None
}

impl<'a> Trial<'a> {
    /// A row of a table, with the files that it names.
    pub fn new(alloc: Global, table: &'a Table, row: &'a Row) -> Result<Trial<'a>> {
        Ok(Trial {
            alloc,
            row,
            before: file_before(alloc, table, row)?,
            after: match &row.after {
                Some(name) => file_named(table, name.as_str())?,
                None => None,
            },
        })
    }

    fn run(&self, devices: &Devices) -> Result<Ran> {
        run_row(self.alloc, self.row, self.before.as_deref(), devices)
    }

    /// The store was not called as often as the row says, if it says anything.
    fn is_called_wrong(&self, ran: &Ran) -> bool {
        match self.row.calls {
            Some(calls) => ran.calls[0] != calls as u64,
            None => false,
        }
    }

    /// The file that is to be left: the one before, if the row says of none.
    fn wanted(&self) -> Option<&[u8]> {
        match &self.row.after {
            Some(_) => self.after,
            None => self.before.as_deref(),
        }
    }

    /// What was told is not what the row says, if it says anything.
    fn is_told_wrong(&self, ran: &Ran) -> bool {
        match &self.row.told {
            Some(told) => told.as_str() != ran.told.as_str(),
            None => false,
        }
    }

    /// What is wrong with a run over sound devices, or over those that fail as the row says.
    fn fault_of_sound(&self, ran: &Ran) -> Option<&'static str> {
        wrong_if(&[
            (ran.status != self.row.status, "the status"),
            (ran.text.as_slice() != self.row.text.as_slice(), "the text"),
            (self.is_told_wrong(ran), "what is told"),
            (self.is_called_wrong(ran), "the calls of the store"),
            (ran.file.as_deref() != self.wanted(), "the file"),
            (!ran.is_other_kept, "another file"),
        ])
    }

    /// There was no file, and an empty one was made.
    fn is_made(&self, ran: &Ran) -> bool {
        let is_empty = matches!(&ran.file, Some(bytes) if bytes.is_empty());
        self.before.is_none() && is_empty
    }

    /// The file is written: it changes, or the row says that it is saved as it was.
    fn is_saved(&self) -> bool {
        self.row.is_saved || self.wanted() != self.before.as_deref()
    }

    /// What is wrong with a run over a device that fails.
    fn fault_of_failing(&self, device: usize, ran: &Ran) -> Option<&'static str> {
        let before = self.before.as_deref();
        let is_blamed = match device {
            // a file that is to stay as it is is not written, unless the row says so
            0 => ran.status == 5 || (ran.status == 6 && self.is_saved()),
            1 => ran.status == 9,
            _ => ran.status == 7,
        };
        let is_kept = ran.status == 6 || ran.file.as_deref() == before || self.is_made(ran);
        wrong_if(&[
            (!is_blamed, "the status after a failing call"),
            (ran.told.is_empty(), "what is told after a failing call"),
            (
                !self.row.text.starts_with(&ran.text),
                "the text after a failing call",
            ),
            (!is_kept, "the file after a failing call"),
            (!ran.is_other_kept, "another file after a failing call"),
        ])
    }

    /// Tries each call of each device, of which there are so many.
    fn try_failing(&self, most: usize, calls: &[u64; 3]) -> Result<Option<&'static str>> {
        for (device, count) in calls.iter().enumerate() {
            for call in 0..*count {
                let devices = Devices::failing(most, device, call.saturating_add(1));
                let fault = self.fault_of_failing(device, &self.run(&devices)?);
                if fault.is_some() {
                    return Ok(fault);
                }
            }
        }
        Ok(None)
    }

    /// What is wrong with a run of the whole program, if anything is.
    fn fault_of_program(&self) -> Result<Option<&'static str>> {
        let is_short = self.row.script.len() <= SHORT;
        for most in PIECES {
            if is_short || most > SHORT {
                let ran = self.run(&Devices::sound(most))?;
                let fault = self.fault_of_sound(&ran);
                if fault.is_some() {
                    return Ok(fault);
                }
                if is_short && self.row.fails.is_empty() {
                    let fault = self.try_failing(most, &ran.calls)?;
                    if fault.is_some() {
                        return Ok(fault);
                    }
                }
            }
        }
        Ok(None)
    }

    /// What is wrong with runs through a log, if anything is. Only a row that saves its file, and whose devices are sound, is run so.
    fn fault_of_logged(&self) -> Result<Option<&'static str>> {
        let is_tried = self.row.script.len() <= SHORTER && self.row.fails.is_empty();
        if !is_tried || self.row.status > 1 || !self.is_saved() {
            return Ok(None);
        }
        fault_of_stopped(self.alloc, self.row, self.before.as_deref(), self.wanted())
    }

    /// What is wrong with the row, if anything is.
    pub fn fault(&self) -> Result<Option<&'static str>> {
        let Some(limit) = self.row.limit else {
            let fault = self.fault_of_program()?;
            return if fault.is_some() {
                Ok(fault)
            } else {
                self.fault_of_logged()
            };
        };
        let ran = run_limited(self.alloc, self.row, limit as u64)?;
        Ok(self.fault_of_sound(&ran))
    }
}
