//! How long names take to be looked up.

use crate::data::Random;
use crate::failed::Failed;
use crate::say_lap;
use cdf_model::Bytes;
use cdf_names::NameTable;
use std::alloc::{AllocError, Global};
use std::rt::Runtime;
use std::time::Instant;

/// How often a name is looked up.
const LOOKUPS: usize = 1_000_000;

fn all_names(alloc: Global, count: usize) -> Result<Vec<Vec<u8>>, AllocError> {
    let mut names = Vec::new(alloc);
    for index in 0..count {
        let name = format!(in alloc; "variable {index}")?;
        names.push(name.as_bytes().to_vec(alloc)?)?;
    }
    Ok(names)
}

fn table_of(alloc: Global, names: &[Vec<u8>]) -> Result<NameTable, AllocError> {
    let mut table = NameTable::new(alloc)?;
    for name in names {
        if table.find(name).is_none() && table.len() < u32::MAX {
            table.add(Bytes::new(name.to_vec(alloc)?))?;
        }
    }
    Ok(table)
}

/// The sum of the numbers of the names that are looked up in no order: `asked` different ones, spread over all.
fn look_up(table: &NameTable, names: &[Vec<u8>], asked: usize) -> u64 {
    let mut random = Random::new(2);
    let mut sum = 0u64;
    if asked == 0 || names.len() < asked {
        return sum;
    }
    let step = names.len() / asked;
    for _ in 0..LOOKUPS {
        let place = random.next() as usize % asked * step;
        if let Some(name) = names.get(place)
            && let Some(number) = table.find(name)
        {
            sum = sum.wrapping_add(u64::from(number));
        }
    }
    sum
}

/// Puts the names into a table, and says how long that took.
fn timed_table(rt: &(impl Runtime + AllocGlobal), names: &[Vec<u8>]) -> Result<NameTable, Failed> {
    let start = Instant::now(rt)?;
    let table = table_of(rt.alloc(), names)?;
    say_lap(rt, "add", &start)?;
    Ok(table)
}

/// Looks names up, and says how long that took.
fn timed_look_up(
    rt: &impl Runtime,
    table: &NameTable,
    names: &[Vec<u8>],
    asked: usize,
) -> Result<u64, Failed> {
    let start = Instant::now(rt)?;
    let sum = look_up(table, names, asked);
    say_lap(rt, "find", &start)?;
    Ok(sum)
}

/// Looks up so many different ones among so many names.
pub fn run(rt: &(impl Runtime + AllocGlobal), count: usize, asked: usize) -> Result<(), Failed> {
    let names = all_names(rt.alloc(), count)?;
    let table = timed_table(rt, &names)?;
    let sum = timed_look_up(rt, &table, &names, asked)?;
    println!(rt; "{} {sum}", table.len())?;
    Ok(())
}
