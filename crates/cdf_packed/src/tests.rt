//! Blocks packed, written and read, by run lengths that are written out from the CDF Internal Format Description.

ghost use Rattle.std.specs.Prelude.{◌≡◌, ◌+◌, ◌≤◌, length, IfOk};

use crate::{pack_block, read_packed, unpack, write_packed};
use cdf_area::{Area, MemArea};
use std::alloc::{AllocError, Global};
use std::test::Fail;

// How many zeros stand in a block, and what they are packed as.
const PACKED: [(usize, &[u8]); 8] = [
    (15, &[0, 14]),
    (256, &[0, 255]),
    (257, &[0, 255, 0, 0]),
    (511, &[0, 255, 0, 254]),
    (512, &[0, 255, 0, 255]),
    (513, &[0, 255, 0, 255, 0, 0]),
    (767, &[0, 255, 0, 255, 0, 254]),
    (768, &[0, 255, 0, 255, 0, 255]),
];

// Blocks that packing would not make shorter.
const KEPT: [&[u8]; 5] = [&[], &[0, 0, 0], &[1, 2, 3], &[0; 14], &[7; 300]];

// Packed bytes, and how many plain bytes they stand for; none where a last 0 has no count.
const STANDING: [(&[u8], Option<u64>); 8] = [
    (&[], Some(0)),
    (&[0, 2], Some(3)),
    (&[5, 0, 2, 6], Some(5)),
    (&[0, 255, 0, 0], Some(257)),
    (&[0, 0, 0, 0], Some(2)),
    (&[0], None),
    (&[5, 0], None),
    (&[0, 0, 0], None),
];

/// Where the block stands.
const START: u64 = 5;

#[test]
fn zeros_are_packed(rt: HostRuntime) -> Result<(), Fail> {
    let alloc = rt.alloc();
    for (count, wanted) in PACKED {
        let plain = vec![in alloc; 0u8; count]?;
        let Some(packed) = pack_block(alloc, &plain)? else {
            assert!(rt; false, "{count} zeros are not packed");
            return Ok(());
        };
        assert_eq!(rt; packed.as_slice(), wanted, "of {count} zeros");
    }
    Ok(())
}

#[test]
fn other_blocks_stay(rt: HostRuntime) -> Result<(), Fail> {
    for plain in KEPT {
        assert!(rt;
            pack_block(rt.alloc(), plain)?.is_none(),
            "of {} bytes",
            plain.len()
        );
    }
    Ok(())
}

#[test]
fn packed_bytes_stand_for_so_many(rt: HostRuntime) -> Result<(), Fail> {
    for (packed, wanted) in STANDING {
        for size in 0..300u64 {
            let found = unpack(rt.alloc(), packed, size)?.is_some();
            assert_eq!(rt;
                found,
                wanted == Some(size),
                "{size} of {} bytes",
                packed.len()
            );
        }
    }
    Ok(())
}

/// An area of bytes that are no record.
fn area_of(alloc: Global) -> Result<MemArea, AllocError>
    ensures { IfOk result (λ area. length (⟦<MemArea as Area>⟧.image area) ≡ 40) }
{
    let bytes = vec![in alloc; 0xee; 40]?;
    Ok(MemArea::new(alloc, bytes, 1024))
}

#[test]
fn a_block_is_written_and_read(rt: HostRuntime) -> Result<(), Fail> {
    let alloc = rt.alloc();
    let mut wanted = vec![in alloc; 0u8; 258]?;
    wanted[0] = 5;
    wanted[257] = 6;
    let mut area = area_of(alloc)?;
    write_packed(&mut area, START, &[5, 0, 255, 6])?;
    let Some(plain) = read_packed(alloc, &mut area, START, 258)? else {
        assert!(rt; false, "the block does not read");
        return Ok(());
    };
    assert_eq!(rt; plain.as_slice(), wanted.as_slice());
    assert!(rt; read_packed(alloc, &mut area, START, 257)?.is_none());
    let bytes = area.into_bytes();
    let record = [0xee, 0, 0, 0, 0, 0, 0, 0, 4, 5, 0, 255, 6, 0xee, 0xee];
    assert_eq!(rt; &bytes[20..35], record.as_slice());
    Ok(())
}
