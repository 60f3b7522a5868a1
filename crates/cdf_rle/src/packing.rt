//! Packs bytes.

ghost use Rattle.std.specs.Prelude.{IfOk};
ghost use Rattle.cdf_model.specs.RunLengths.{IsLongest, Packs};

use crate::stretches::{data_end, run_end};
use std::alloc::{AllocError, Global};

/// Packs bytes, the longest runs from the left, with at most 256 zeros to a pair.
pub fn encode(alloc: Global, bytes: &[u8]) -> Result<Vec<u8>, AllocError>
    ensures packs { IfOk result (λ packed. Packs packed.items bytes.now) }
    ensures longest { IfOk result (λ packed. IsLongest packed.items) }
{
    let mut packed = Vec::new(alloc);
    let mut place = 0;
    while place < bytes.len() {
        let end = if bytes[place] == 0 {
            let end = run_end(bytes, place);
            packed.extend_from_slice(&[0, (end - place - 1) as u8])?;
            end
        } else {
            let end = data_end(bytes, place);
            packed.extend_from_slice(&bytes[place..end])?;
            end
        };
        place = end;
    }
    Ok(packed)
}
