//! How long writes take that are then taken back.

ghost use Rattle.std.specs.Prelude.{◌≡◌, IsSome};

use crate::data::{Random, mixed, sum_of};
use crate::failed::Failed;
use crate::say_lap;
use cdf_area::{Area, AreaError, MemArea};
use std::alloc::Global;
use std::rt::Runtime;
use std::time::Instant;

/// Writes 8 bytes at a place that the number tells.
fn write_once<A: Area>(area: &mut A, number: u64) -> Result<(), AreaError>
    ensures { A.frame area.new ≡ A.frame area.old }
{
    let size = area.size();
    if size < 8 {
        return Ok(());
    }
    area.set(number % (size - 7), &number.to_le_bytes())
}

fn write_often<A: Area>(area: &mut A, count: usize) -> Result<(), AreaError>
    ensures { A.frame area.new ≡ A.frame area.old }
{
    let mut random = Random::new(3);
    for _ in 0..count {
        write_once(area, random.next())?;
    }
    Ok(())
}

/// Writes so often, and says how long that took.
fn timed_writes<A: Area>(rt: &impl Runtime, area: &mut A, count: usize) -> Result<(), Failed>
    ensures { A.frame area.new ≡ A.frame area.old }
{
    let start = Instant::now(rt)?;
    write_often(area, count)?;
    say_lap(rt, "write", &start)
}

/// The sum of the first bytes.
fn sum_of_head<A: Area>(alloc: Global, area: &mut A) -> Result<u64, Failed>
    ensures { A.frame area.new ≡ A.frame area.old }
{
    let mut head = vec![in alloc; 0u8; area.size().min(4096) as usize]?;
    area.get(0, &mut head)?;
    Ok(sum_of(&head))
}

/// Goes back to the mark, and says how long that took.
fn timed_undo<A: Area>(rt: &impl Runtime, area: &mut A) -> Result<(), Failed>
    requires { IsSome (A.frame area.old).base }
{
    let start = Instant::now(rt)?;
    area.undo();
    say_lap(rt, "undo", &start)
}

/// Writes so often under one mark, and goes back.
pub fn run(rt: &(impl Runtime + AllocGlobal), count: usize, size: usize) -> Result<(), Failed> {
    let mut area = MemArea::new(rt.alloc(), mixed(rt.alloc(), size)?, u64::MAX);
    area.mark();
    timed_writes(rt, &mut area, count)?;
    let head = sum_of_head(rt.alloc(), &mut area)?;
    timed_undo(rt, &mut area)?;
    println!(rt; "{head:016x} {:016x}", sum_of(&area.into_bytes()))?;
    Ok(())
}
