//! How long packing and unpacking take.

use crate::data::{mixed, sum_of};
use crate::failed::Failed;
use crate::say_lap;
use cdf_rle::{decode_into, encode};
use std::rt::Runtime;
use std::time::Instant;

/// Packs so many bytes, and reads them back.
pub fn run(rt: &(impl Runtime + AllocGlobal), size: usize) -> Result<(), Failed> {
    let plain = mixed(rt.alloc(), size)?;
    let start = Instant::now(rt)?;
    let packed = encode(rt.alloc(), &plain)?;
    say_lap(rt, "encode", &start)?;
    let mut out = vec![in rt.alloc(); 1u8; plain.len()]?;
    let start = Instant::now(rt)?;
    decode_into(&packed, &mut out)?;
    say_lap(rt, "decode", &start)?;
    println!(rt;
        "{} {:016x} {} {:016x}",
        packed.len(),
        sum_of(&packed),
        out.len(),
        sum_of(&out)
    )?;
    Ok(())
}
