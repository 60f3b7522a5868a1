//! How long the digest of a whole file takes.

use crate::failed::Failed;
use crate::say_lap;
use cdf_area::{Area, MemArea};
use cdf_seal::digest_of;
use std::rt::Runtime;
use std::time::Instant;
use std::{fs, io};

/// The digest of an area, with how long that took.
fn timed_digest<A: Area>(rt: &impl Runtime, area: &mut A) -> Result<[u8; 16], Failed> {
    let upto = area.size();
    let start = Instant::now(rt)?;
    let digest = digest_of(area, upto)?;
    say_lap(rt, "digest", &start)?;
    Ok(digest)
}

fn say_digest(rt: &impl Print, digest: [u8; 16]) -> io::Result<()> {
    for byte in digest {
        print!(rt; "{byte:02x}")?;
    }
    println!(rt; "")
}

/// The digest of a whole file.
pub fn run(rt: &(impl Runtime + AllocGlobal), path: &str) -> Result<(), Failed> {
    let mut area = MemArea::new(rt.alloc(), fs::read(rt, path)?, u64::MAX);
    let digest = timed_digest(rt, &mut area)?;
    say_digest(rt, digest)?;
    Ok(())
}
