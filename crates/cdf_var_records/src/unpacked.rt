//! The plain bytes of packed blocks, of which the last one is kept.

ghost use Rattle.std.specs.Prelude.{◌≡◌, ◌≤◌, ◌+◌, ℕ, List, length, take, drop, true, IfOk};
ghost use Rattle.cdf_area.specs.Calls.{Reads};
ghost use Rattle.cdf_format.specs.Fields.{LiesIn, number};
ghost use Rattle.cdf_format.specs.IndexRules.{unpacks_to};
ghost use Rattle.cdf_format.specs.Records.{cvvr_c_size, cvvr_packed};
ghost use Rattle.cdf_format.specs.Stored.{packed_bytes};
ghost use Rattle.cdf_model.specs.Place.{record_limit};
ghost use Rattle.cdf_model.specs.RunLengths.{plain_of};
ghost use Rattle.cdf_var_records.specs.Unpacked.{IsUnpacked};

use cdf_area::{Area, AreaError};
use cdf_packed::read_unpacked;
use std::alloc::{AllocError, Global};

/// A packed block and its plain bytes.
#[derive(Drop)]
struct Block {
    at: u64,
    plain: Vec<u8>,
}

/// The packed block that was read last, with its plain bytes, so that its other records are read without unpacking it again.
#[derive(Drop)]
pub struct Unpacked {
    block: Option<Block>,
}

/// So many bytes of some from a place on.
fn piece(alloc: Global, bytes: &[u8], from: u64, count: u64) -> Result<Vec<u8>, AllocError>
    requires { from + count ≤ length bytes.now }
    ensures { IfOk result (λ piece. piece.items ≡ take count (drop from bytes.now)) }
{
    let end = from + count;
    bytes[from as usize..end as usize].to_vec(alloc)
}

impl Unpacked {
    /// Nothing is kept.
    pub fn new() -> Unpacked
        ensures { (b : List ℕ) → IsUnpacked b result }
    {
        Unpacked { block: None }
    }

    /// Lets go what is kept.
    pub fn forget(&mut self)
        ensures { (b : List ℕ) → IsUnpacked b self.new }
    {
        self.block = None;
    }

    /// So many plain bytes, from one of a number on, of the packed block at a place, which has `size` of them. From now on this block is kept.
    pub(crate) fn read_part<A: Area>(
        &mut self,
        alloc: Global,
        area: &mut A,
        at: u64,
        size: u64,
        from: u64,
        count: u64,
    ) -> Result<Vec<u8>, AreaError>
        requires inside { LiesIn (A.image area.old) at (cvvr_packed (number (A.image area.old) at cvvr_c_size)) }
        requires fits { unpacks_to (packed_bytes (A.image area.old) at) size ≡ true }
        requires small { size ≤ record_limit }
        requires within { from + count ≤ size }
        requires kept { IsUnpacked (A.image area.old) self.old }
        ensures bytes { IfOk result (λ bytes. bytes.items ≡ take count (drop from (plain_of (packed_bytes (A.image area.old) at)))) }
        ensures kept { IsUnpacked (A.image area.old) self.new }
        ensures area { Reads A.image A.frame A.faults A.edited area.old area.new result }
    {
        if let Some(block) = &self.block {
            if block.at == at {
                return Ok(piece(alloc, &block.plain, from, count)?);
            }
        }
        self.forget();
        let plain = read_unpacked(alloc, area, at, size)?;
        let bytes = piece(alloc, &plain, from, count)?;
        self.block = Some(Block { at, plain });
        Ok(bytes)
    }
}
