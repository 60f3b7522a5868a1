//! The bytes of a block packed, where that is worth it.

ghost use Rattle.std.specs.Prelude.{◌≡◌, ◌≤◌, length, true, false, IfNone, IfOk, IfSome, is_some};
ghost use Rattle.cdf_edits.specs.Index.Written.{is_worth_packing};
ghost use Rattle.cdf_model.specs.Place.{record_limit};
ghost use Rattle.cdf_model.specs.RunLengths.{IsLongest, Packs};
ghost use Rattle.cdf_packed.specs.Choice.{IsChosen, NeverWorth};

use cdf_format::fields::{CVVR_SIZE, VVR_SIZE};
use cdf_model::limits::RECORD_LIMIT;
use cdf_rle::encode;
use std::alloc::{AllocError, Global};

/// Whether the record of a block that may be packed is shorter where it is packed as these bytes, in the longest runs.
fn is_worth_packing(plain: &[u8], packed: &[u8]) -> bool
    requires small { length plain.now ≤ record_limit }
    requires packs { Packs packed.now plain.now }
    requires longest { IsLongest packed.now }
    ensures worth { result ≡ is_worth_packing plain.now packed.now }
    ensures never { result ≡ false → NeverWorth plain.now }
    ensures chosen { IsChosen plain.now result }
{
    CVVR_SIZE + (packed.len() as u64) < VVR_SIZE + plain.len() as u64
}

/// The bytes of a block packed in the longest runs, where that is worth it.
pub fn pack_block(alloc: Global, plain: &[u8]) -> Result<Option<Vec<u8>>, AllocError>
    ensures packs { IfOk result (λ found. IfSome found (λ packed. Packs packed.items plain.now)) }
    ensures longest { IfOk result (λ found. IfSome found (λ packed. IsLongest packed.items)) }
    ensures worth { IfOk result (λ found. IfSome found (λ packed. is_worth_packing plain.now packed.items ≡ true)) }
    // However else the block is packed, that is not worth it either.
    ensures never { IfOk result (λ found. IfNone found (NeverWorth plain.now)) }
    ensures chosen { IfOk result (λ found. IsChosen plain.now (is_some found)) }
{
    if plain.len() as u64 > RECORD_LIMIT {
        return Ok(None);
    }
    let packed = encode(alloc, plain)?;
    if !is_worth_packing(plain, &packed) {
        return Ok(None);
    }
    Ok(Some(packed))
}
