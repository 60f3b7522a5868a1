//! What is written for a new block, behind the size of its record.

ghost use Rattle.std.specs.Prelude.{◌≡◌, IfOk, OnOk, false, true};
ghost use Rattle.cdf_blocks.specs.Blocks.{block_body, spared};

use cdf_format::fields::{CVVR_TYPE, VVR_TYPE};
use std::alloc::{AllocError, Global};

/// The least bytes of a record behind its size.
const LEAST_BODY: usize = 20;

/// Appends bytes 0 up to the least body of a record.
fn fill_up(body: &mut Vec<u8>) -> Result<(), AllocError>
    ensures { OnOk result (body.new.items ≡ spared body.old.items) }
{
    if body.len() < LEAST_BODY {
        body.resize(LEAST_BODY, 0)?;
    }
    Ok(())
}

/// Of a block that is not packed.
fn plain_body(alloc: Global, plain: &[u8]) -> Result<Vec<u8>, AllocError>
    ensures { IfOk result (λ body. body.items ≡ block_body false plain.now) }
{
    let mut body = Vec::new(alloc);
    body.extend_from_slice(&VVR_TYPE.to_be_bytes())?;
    body.extend_from_slice(plain)?;
    fill_up(&mut body)?;
    Ok(body)
}

/// Of a packed block.
fn packed_body(alloc: Global, packed: &[u8]) -> Result<Vec<u8>, AllocError>
    ensures { IfOk result (λ body. body.items ≡ block_body true packed.now) }
{
    let mut body = Vec::new(alloc);
    body.extend_from_slice(&CVVR_TYPE.to_be_bytes())?;
    // rfuA and cSize
    body.extend_from_slice(&0u32.to_be_bytes())?;
    body.extend_from_slice(&(packed.len() as u64).to_be_bytes())?;
    body.extend_from_slice(packed)?;
    fill_up(&mut body)?;
    Ok(body)
}

/// Of a block that is packed or not, and holds these bytes.
pub fn block_body(alloc: Global, packed: bool, bytes: &[u8]) -> Result<Vec<u8>, AllocError>
    ensures { IfOk result (λ body. body.items ≡ block_body packed bytes.now) }
{
    if packed {
        packed_body(alloc, bytes)
    } else {
        plain_body(alloc, bytes)
    }
}
