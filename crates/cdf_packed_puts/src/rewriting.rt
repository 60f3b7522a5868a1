//! Records put into the block that has them: its plain bytes are read, the records are written over, and it is given these bytes.

ghost use Rattle.std.specs.Prelude.{◌≡◌, ◌≤◌, ◌<◌, ◌+◌, ◌-◌, ◌*◌, ℕ, List, length, max, true, Some, IfOk};
ghost use Rattle.cdf_area.specs.Calls.{Edits, Reads};
ghost use Rattle.cdf_base.specs.Bytes.{put};
ghost use Rattle.cdf_blocks.specs.Reading.{block_size};
ghost use Rattle.cdf_blocks.specs.Sites.{IsFound};
ghost use Rattle.cdf_edits.specs.Commands.PutSteps.{Put};
ghost use Rattle.cdf_format.specs.Content.{plain_bytes};
ghost use Rattle.cdf_format.specs.Fields.{number};
ghost use Rattle.cdf_format.specs.Records.{linked_size, vdr_vxr_head, vvr_bytes};
ghost use Rattle.cdf_format.specs.Shape.{VariableShape};
ghost use Rattle.cdf_index.specs.Finding.{index_at};
ghost use Rattle.cdf_index.specs.Sight.{seen};
ghost use Rattle.cdf_model.specs.Limits.{image_limit, record_number_limit};
ghost use Rattle.cdf_model.specs.declared.kinds.Kind.{Kind};
ghost use Rattle.cdf_puts.specs.Putting.{record_put};
ghost use Rattle.cdf_packed_puts.specs.Rewriting.{PutsInto, LeafPut, SomePutInto, written_over};

use cdf_area::{Area, AreaError};
use cdf_blocks::{SitedLeaf, block_size, read_plain, write_block};
use cdf_index::Leaf;
use cdf_puts::NewRecord;
use std::alloc::Global;

/// The bytes of the record of a number.
pub fn bytes_of(put: &NewRecord, k: u32) -> &[u8]
    ensures { result.now ≡ record_put put.now.raw.items put.now.pad.items put.now.rec k }
{
    if k == put.rec { &put.raw } else { &put.pad }
}

/// Writes bytes over those from a place on.
#[tactic(auto, unfolding(cdf_base::specs::Bytes::put))]
fn overwrite(plain: &mut Vec<u8>, from: usize, bytes: &[u8])
    requires { from + length bytes.now ≤ length plain.old.items }
    ensures items { plain.new.items ≡ put plain.old.items from bytes.now }
    ensures size { length plain.new.items ≡ length plain.old.items }
{
    let end = from + bytes.len();
    plain[from..end].copy_from_slice(bytes);
}

/// The plain bytes of a block with the records from one on written over, up to the one that is put or to the last one.
fn with_records(put: &NewRecord, leaf: &Leaf, k: u32, mut plain: Vec<u8>) -> Vec<u8>
    requires from { leaf.now.first ≤ k }
    requires upto { k ≤ leaf.now.last }
    requires more { k ≤ put.now.rec }
    requires small { leaf.now.last ≤ record_number_limit }
    requires pads { length put.now.pad.items ≡ length put.now.raw.items }
    requires whole { length plain.items ≡ block_size (seen leaf.now) (length put.now.raw.items) }
    requires fits { length plain.items ≤ image_limit }
    ensures { result.items ≡ written_over put.now k (seen leaf.now) plain.items }
{
    let size = put.raw.len();
    let first = (k - leaf.first) as usize * size;
    let last = put.rec.min(leaf.last);
    for i in 0..last + 1 - k {
        overwrite(&mut plain, first + i as usize * size, bytes_of(put, k + i));
    }
    plain
}

/// The plain bytes of the block of a leaf with the records from one on written over, up to the one that is put or to the last one of the leaf.
fn read_rewritten<A: Area>(
    alloc: Global,
    area: &mut A,
    put: &NewRecord,
    found: &SitedLeaf,
    k: u32,
) -> Result<Vec<u8>, AreaError>
    requires some { SomePutInto (A.image area.old) put.now }
    requires more { k ≤ put.now.rec }
    requires found { IsFound (A.image area.old) (index_at (A.image area.old) (number (A.image area.old) put.now.vdr vdr_vxr_head)) k (Some found.now) }
    requires short { length (A.image area.old) ≤ image_limit }
    ensures plain { IfOk result (λ plain. (p : Put) (kind : Kind) (before : List VariableShape) (own : VariableShape) (after : List VariableShape) → PutsInto p put.now (A.image area.old) kind before own after → plain.items ≡ written_over put.now k (seen found.now.leaf) (plain_bytes (A.image area.old) own.vdr (seen found.now.leaf))) }
    ensures area { Reads A.image A.frame A.faults A.edited area.old area.new result }
{
    let leaf = &found.leaf;
    let rec_bytes = put.raw.len() as u64;
    let size = block_size(leaf, rec_bytes);
    let plain = read_plain(alloc, area, leaf, size)?;
    Ok(with_records(put, leaf, k, plain))
}

/// Puts the records from one on that a leaf has, up to the one that is put or to the last one of the leaf, into its block. Gives the next one to be
/// put. After an error a part of this may have been done.
pub fn rewrite_leaf<A: Area>(
    alloc: Global,
    area: &mut A,
    put: &NewRecord,
    found: &SitedLeaf,
    k: u32,
) -> Result<u32, AreaError>
    requires some { SomePutInto (A.image area.old) put.now }
    requires more { k ≤ put.now.rec }
    requires found { IsFound (A.image area.old) (index_at (A.image area.old) (number (A.image area.old) put.now.vdr vdr_vxr_head)) k (Some found.now) }
    requires room { length (A.image area.old) + max linked_size (vvr_bytes (block_size (seen found.now.leaf) (length put.now.raw.items))) ≤ (A.frame area.old).limit }
    requires limit { (A.frame area.old).limit ≤ image_limit }
    ensures put { IfOk result (λ next. (p : Put) (kind : Kind) (before : List VariableShape) (own : VariableShape) (after : List VariableShape) → PutsInto p put.now (A.image area.old) kind before own after → LeafPut (A.image area.old) (A.image area.new) p put.now kind before own after k next) }
    ensures next { IfOk result (λ next. next ≡ found.now.leaf.last + 1) }
    ensures further { IfOk result (λ next. k < next) }
    ensures area { Edits A.frame A.faults area.old area.new result }
{
    let plain = read_rewritten(alloc, area, put, found, k)?;
    write_block(alloc, area, found.site, &found.leaf, &plain)?;
    Ok(found.leaf.last + 1)
}
