//! Conversions into an area that is full before the image ends.

ghost use Rattle.std.specs.Prelude.{◌≤◌};
ghost use Rattle.cdf_model.specs.Limits.{image_limit};

use crate::made::{area_of, made, session_over};
use crate::scripts::SCRIPTS;
use cdf_area::MemArea;
use cdf_convert::{ConvertError, write_compact};
use cdf_model::limits::IMAGE_LIMIT;
use std::alloc::Global;
use std::test::Fail;

/// What came of a conversion.
#[derive(Drop)]
struct Ran {
    bytes: Vec<u8>,
    done: Result<(), ConvertError>,
}

/// Converts a file into an area of so many bytes.
fn run_within(alloc: Global, file: &[u8], limit: u64) -> Result<Ran, Fail>
    requires least { 404 ≤ limit }
    requires most { limit ≤ image_limit }
{
    let mut session = session_over(alloc, area_of(alloc, file)?)?;
    let target = MemArea::new(alloc, Vec::new(alloc), limit);
    let copied = write_compact(alloc, &mut session, target);
    Ok(Ran {
        bytes: copied.area.into_bytes(),
        done: copied.done,
    })
}

/// How many bytes are written of a file's image into an area of so many bytes, which is too small.
fn cut_at(alloc: Global, file: &[u8], limit: u64) -> Result<u64, Fail>
    requires least { 404 ≤ limit }
    requires most { limit ≤ image_limit }
{
    let ran = run_within(alloc, file, limit)?;
    let Err(ConvertError::TooLarge { eof, need }) = ran.done else {
        return Err(Fail::new("an image is not too large"));
    };
    if ran.bytes.len() as u64 != eof || eof > limit || need <= limit - eof {
        return Err(Fail::new("another record is named"));
    }
    Ok(eof)
}

/// Where the image of a file ends after a record is left out at its end, then the record before it, and so on.
fn last_cut(alloc: Global, file: &[u8], whole: u64) -> Result<u64, Fail> {
    let mut end = whole;
    while end > 404 && end <= IMAGE_LIMIT {
        let next = cut_at(alloc, file, end - 1)?;
        if next >= end {
            return Err(Fail::new("no record was left out"));
        }
        end = next;
    }
    Ok(end)
}

#[test]
fn an_area_is_full_at_each_record(rt: HostRuntime) -> Result<(), Fail> {
    let alloc = rt.alloc();
    for script in SCRIPTS {
        let file = made(alloc, script)?;
        let whole = run_within(alloc, &file, IMAGE_LIMIT)?;
        assert_eq!(rt; whole.done, Ok(()));
        let end = last_cut(alloc, &file, whole.bytes.len() as u64)?;
        // what is left are the first two records, or the first one where the second is longer than in a file without dimensions
        assert!(rt; end == 404 || end == 320);
    }
    Ok(())
}
