//! Each record that no run reads is read once, in bytes that are written out.

ghost use Rattle.std.specs.Prelude.{◌≡◌, ◌+◌, ◌≤◌, length, IfOk};

use cdf_area::{Area, MemArea};
use cdf_records::{read_cpr, read_cvvr};
use std::alloc::{AllocError, Global};
use std::test::Fail;

/// Where the record stands.
const START: u64 = 5;

/// An area with the bytes of a record after 5 others.
fn area_of(alloc: Global, written: &[u8]) -> Result<MemArea, AllocError>
    requires { length written.now ≤ 400 }
    ensures { IfOk result (λ area. length (⟦<MemArea as Area>⟧.image area) ≡ 5 + length written.now) }
{
    let mut bytes = vec![in alloc; 0xee; 5]?;
    bytes.extend_from_slice(written)?;
    Ok(MemArea::new(alloc, bytes, 1024))
}

/// A record in which each word of 4 bytes is its own place.
fn places() -> [u8; 344] {
    let mut record = [0; 344];
    for word in 0..86usize {
        let place = 4 * word;
        record[place + 2] = (place / 256) as u8;
        record[place + 3] = (place % 256) as u8;
    }
    record
}

#[test]
fn each_other_record_is_read(rt: HostRuntime) -> Result<(), Fail> {
    let mut area = area_of(rt.alloc(), &places())?;
    let last = [
        read_cpr(&mut area, START)?.p_count,
        read_cvvr(&mut area, START)?.rfu_a,
    ];
    assert_eq!(rt; last, [20, 12]);
    Ok(())
}
