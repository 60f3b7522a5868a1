//! Runs the rows of files in its folder: each says what the program is given, and what it has to write, to answer and to leave.
#![tactic(auto)]

mod bytes;
mod devices;
mod limited;
mod logged;
mod report;
mod row;
mod stopped;
mod table;
mod trial;

use anyhow::{Context, Result, ensure};
use report::report_rows;
use std::rt::Files;
use std::{env, fs};
use table::Table;

/// Reads a file of rows, tries its rows, and answers how many of them are wrong. The files that it tells stay in the table.
fn try_rows(rt: &(impl Files + Print + AllocGlobal), name: &str, table: &mut Table) -> Result<u64> {
    let text = fs::read_to_string(rt, name).context(format_args!("reading {name}"))?;
    table.read(&text).context(format_args!("in {name}"))?;
    println!(rt; "{name}")?;
    report_rows(rt, table)
}

fn main(rt: HostRuntime) -> Result<()> {
    let mut table = Table::new(rt.alloc());
    let mut wrong = 0u64;
    for name in env::args(&rt)?.skip(1) {
        wrong = wrong.saturating_add(try_rows(&rt, name.as_str(), &mut table)?);
    }
    ensure!(wrong == 0, "{wrong} rows are wrong");
    Ok(())
}
