//! How long the compact image of a file takes to be written.

ghost use Rattle.std.specs.Prelude.{IfOk};
ghost use Rattle.cdf_convert.specs.Laws.{IsOfBytes};
ghost use Rattle.cdf_format.specs.Content.{content};
ghost use Rattle.cdf_writer.specs.Fine.{Fine};

use crate::data::sum_of;
use crate::failed::Failed;
use crate::say_lap;
use cdf_area::{Area, MemArea};
use cdf_convert::write_compact;
use cdf_model::limits::IMAGE_LIMIT;
use cdf_seal::digest_of;
use cdf_session::Session;
use cdf_walk::Parts;
use std::alloc::Global;
use std::fs;
use std::rt::Runtime;
use std::time::Instant;

/// What a slice holds are bytes.
fn are_bytes(bytes: &[u8])
    ensures { IsOfBytes bytes.now }
{}

/// Takes up the file of these bytes.
fn open(alloc: Global, bytes: Vec<u8>) -> Result<Session<MemArea>, Failed>
    ensures { IfOk result (λ session. Fine (content (⟦<MemArea as Area>⟧.image session))) }
{
    are_bytes(&bytes);
    match Session::adopt(alloc, MemArea::new(alloc, bytes, IMAGE_LIMIT)) {
        Ok(session) => Ok(session),
        Err(refusal) => Err(Failed::from(refusal.why)),
    }
}

/// Takes up the file of these bytes, and says how long that took.
fn timed_open(rt: &(impl Runtime + AllocGlobal), bytes: Vec<u8>) -> Result<Session<MemArea>, Failed>
    ensures { IfOk result (λ session. Fine (content (⟦<MemArea as Area>⟧.image session))) }
{
    let start = Instant::now(rt)?;
    let session = open(rt.alloc(), bytes)?;
    say_lap(rt, "open", &start)?;
    Ok(session)
}

/// Writes the compact image of a file, and says how long that took.
fn timed_copy(
    rt: &(impl Runtime + AllocGlobal),
    session: &mut Session<MemArea>,
) -> Result<MemArea, Failed>
    requires { Fine (content (⟦<MemArea as Area>⟧.image session.old)) }
{
    let empty = MemArea::new(rt.alloc(), Vec::new(rt.alloc()), IMAGE_LIMIT);
    let start = Instant::now(rt)?;
    let copied = write_compact(rt.alloc(), session, empty);
    say_lap(rt, "copy", &start)?;
    copied.done?;
    Ok(copied.area)
}

/// The file of an image: with a checksum behind it, where it is to have one.
fn sealed(image: MemArea, has_checksum: bool) -> Result<Vec<u8>, Failed> {
    let mut image = image;
    if !has_checksum {
        return Ok(image.into_bytes());
    }
    let upto = image.size();
    let digest = digest_of(&mut image, upto)?;
    let mut bytes = image.into_bytes();
    bytes.extend_from_slice(&digest)?;
    Ok(bytes)
}

/// Copies a file, and writes the copy where a path is given.
pub fn run(
    rt: &(impl Runtime + AllocGlobal),
    path: &str,
    out: Option<&String>,
) -> Result<(), Failed> {
    let mut session = timed_open(rt, fs::read(rt, path)?)?;
    let copy = timed_copy(rt, &mut session)?;
    let file = sealed(copy, session.head()?.md5)?;
    println!(rt; "{} {:016x}", file.len(), sum_of(&file))?;
    if let Some(out) = out {
        fs::write(rt, out.as_str(), file.as_slice())?;
    }
    Ok(())
}
