//! How long reads of a few bytes take from an area in pages.

ghost use Rattle.std.specs.Prelude.{◌≡◌};

use crate::data::{Random, mixed};
use crate::failed::Failed;
use crate::say_lap;
use cdf_area::{Area, AreaError};
use cdf_pages::PagedArea;
use cdf_store::{MemStore, Store};
use std::alloc::Global;
use std::rt::Runtime;
use std::time::Instant;

/// The name of the file.
const NAME: &str = "file";

/// Reads 8 bytes at a place that the number tells.
fn read_once<A: Area>(area: &mut A, number: u64) -> Result<u64, AreaError> {
    let size = area.size();
    let mut word = [0; 8];
    if size >= 8 {
        area.get(number % (size - 7), &mut word)?;
    }
    Ok(u64::from_le_bytes(word))
}

/// The sum of words at places that look random.
fn sum_of_words<A: Area>(area: &mut A, count: usize) -> Result<u64, AreaError> {
    let mut random = Random::new(4);
    let mut sum = 0u64;
    for _ in 0..count {
        sum = sum.wrapping_add(read_once(area, random.next())?);
    }
    Ok(sum)
}

/// Reads so often, and says how long that took.
fn timed_reads<A: Area>(
    rt: &impl Runtime,
    part: &str,
    area: &mut A,
    count: usize,
) -> Result<u64, Failed> {
    let start = Instant::now(rt)?;
    let sum = sum_of_words(area, count)?;
    say_lap(rt, part, &start)?;
    Ok(sum)
}

/// An area over a file of so many bytes.
fn area_of(alloc: Global, size: usize) -> Result<PagedArea<MemStore>, Failed> {
    let mut store = MemStore::new(alloc);
    store.put_file(NAME, &mixed(alloc, size)?)?;
    let Ok(Some(length)) = store.attach(NAME, false) else {
        return Err(Failed::Outside);
    };
    match PagedArea::over(alloc, store, length, u64::MAX) {
        Ok(area) => Ok(area),
        Err(_) => Err(Failed::NoMemory),
    }
}

/// Reads so often from a file of so many bytes, and then as often again, when the pages that fit stand in memory.
pub fn run(rt: &(impl Runtime + AllocGlobal), count: usize, size: usize) -> Result<(), Failed> {
    let mut area = area_of(rt.alloc(), size)?;
    let first = timed_reads(rt, "first", &mut area, count)?;
    let again = timed_reads(rt, "again", &mut area, count)?;
    println!(rt; "{first:016x} {again:016x}")?;
    Ok(())
}
