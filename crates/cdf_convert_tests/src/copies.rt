//! Files that are converted whole.

use crate::made::{area_of, made, session_over};
use crate::scripts::{SCRIPTS, many_blocks};
use cdf_area::MemArea;
use cdf_convert::write_compact;
use cdf_model::limits::IMAGE_LIMIT;
use std::alloc::Global;
use std::test::Fail;

/// The compact image of what a file means.
fn copy_of(alloc: Global, file: &[u8]) -> Result<Vec<u8>, Fail> {
    let mut session = session_over(alloc, area_of(alloc, file)?)?;
    let target = MemArea::new(alloc, Vec::new(alloc), IMAGE_LIMIT);
    let copied = write_compact(alloc, &mut session, target);
    copied.done?;
    Ok(copied.area.into_bytes())
}

#[test]
fn a_copy_of_a_copy_has_the_same_bytes(rt: HostRuntime) -> Result<(), Fail> {
    let alloc = rt.alloc();
    for script in SCRIPTS {
        let file = made(alloc, script)?;
        let copy = copy_of(alloc, &file)?;
        assert_eq!(rt; copy_of(alloc, &copy)?, copy);
    }
    Ok(())
}

#[test]
fn blocks_that_fill_three_levels_of_nodes_are_copied(rt: HostRuntime) -> Result<(), Fail> {
    let alloc = rt.alloc();
    let script = many_blocks(alloc, 4200)?;
    let file = made(alloc, script.as_bytes())?;
    let copy = copy_of(alloc, &file)?;
    assert_eq!(rt; copy_of(alloc, &copy)?, copy);
    // 66 nodes name the 4,200 blocks, two name these nodes, and one names the two
    assert_eq!(rt; copy.len(), 188_568);
    Ok(())
}

#[test]
fn a_copy_has_no_unused_bytes(rt: HostRuntime) -> Result<(), Fail> {
    let alloc = rt.alloc();
    let [.., leftovers] = SCRIPTS;
    let file = made(alloc, leftovers)?;
    let copy = copy_of(alloc, &file)?;
    // two attributes, an entry of 10 bytes, a variable, its block, and an index of one entry
    assert_eq!(rt; copy.len(), 404 + 2 * 324 + 66 + 344 + 28 + 44);
    assert!(rt; file.len() > copy.len());
    Ok(())
}
