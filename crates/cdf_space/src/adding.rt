//! A record that is taken, written and linked into a chain: behind the others and counted, or in the place of another one.

ghost use Rattle.std.specs.Prelude.{◌≡◌, ◌<◌, ◌≤◌, ◌+◌, ◌^◌, length, true, None, IfOk};
ghost use Rattle.std.specs.List.{last_or};
ghost use Rattle.cdf_area.specs.Calls.{Edits};
ghost use Rattle.cdf_format.specs.Chains.{is_in};
ghost use Rattle.cdf_format.specs.Fields.{eof, gdr_offset};
ghost use Rattle.cdf_format.specs.Shape.{shape};
ghost use Rattle.cdf_format.specs.Sound.{IsSound};
ghost use Rattle.cdf_format.specs.Records.{record_size};
ghost use Rattle.cdf_model.specs.Limits.{image_limit};
ghost use Rattle.cdf_edits.specs.Space.Adding.{Added, Exchanged};
ghost use Rattle.cdf_edits.specs.Space.Chains.{HasChain, HolderStands, before, counted_in, members_of, type_in};
ghost use Rattle.cdf_edits.specs.Space.Placing.{IsBody, type_of_body};

use crate::Chain;
use crate::chains::{chain_append, chain_replace, count_up};
use crate::placing::place_record;
use cdf_area::{Area, AreaError};

/// Takes a record and writes it, its size and these bytes, which begin with its type; makes it the last one of a chain of such records,
/// behind the one that was the last, none where the chain was empty; and counts it there. Gives its place, that of `alloc_record`.
/// After an error a part of this may have been done.
pub fn append_record<A: Area>(
    area: &mut A,
    chain: Chain,
    last: Option<u64>,
    bytes: &[u8],
) -> Result<u64, AreaError>
    requires sound { IsSound (A.image area.old) (shape (A.image area.old)) }
    requires eof { eof (A.image area.old) (gdr_offset (A.image area.old)) ≡ length (A.image area.old) }
    requires holder { HolderStands (A.image area.old) chain }
    requires chain { HasChain (A.image area.old) chain }
    requires last { last ≡ last_or None (members_of (A.image area.old) chain) }
    requires body { IsBody bytes.now }
    requires kind { type_of_body bytes.now ≡ type_in chain }
    requires few { counted_in (A.image area.old) chain + 1 < 2 ^ 32 }
    requires room { length (A.image area.old) + (record_size.width + length bytes.now) ≤ (A.frame area.old).limit }
    requires limit { (A.frame area.old).limit ≤ image_limit }
    ensures added { IfOk result (λ place. Added (A.image area.old) (A.image area.new) chain bytes.now place) }
    ensures area { Edits A.frame A.faults area.old area.new result }
{
    let place = place_record(area, bytes)?;
    chain_append(area, chain, last, place)?;
    count_up(area, chain)?;
    Ok(place)
}

/// Takes a record and writes it, its size and these bytes, which begin with its type; and puts it into the place of a member of a chain of
/// such records, which stands behind another one, or is the first where none is given. Gives its place, that of `alloc_record`; the one
/// whose place it took stays where it is. After an error a part of this may have been done.
pub fn exchange_record<A: Area>(
    area: &mut A,
    chain: Chain,
    behind: Option<u64>,
    member: u64,
    bytes: &[u8],
) -> Result<u64, AreaError>
    requires sound { IsSound (A.image area.old) (shape (A.image area.old)) }
    requires eof { eof (A.image area.old) (gdr_offset (A.image area.old)) ≡ length (A.image area.old) }
    requires holder { HolderStands (A.image area.old) chain }
    requires chain { HasChain (A.image area.old) chain }
    requires member { is_in member (members_of (A.image area.old) chain) ≡ true }
    requires behind { behind ≡ last_or None (before member (members_of (A.image area.old) chain)) }
    requires body { IsBody bytes.now }
    requires kind { type_of_body bytes.now ≡ type_in chain }
    requires room { length (A.image area.old) + (record_size.width + length bytes.now) ≤ (A.frame area.old).limit }
    requires limit { (A.frame area.old).limit ≤ image_limit }
    ensures exchanged { IfOk result (λ place. Exchanged (A.image area.old) (A.image area.new) chain bytes.now member place) }
    ensures area { Edits A.frame A.faults area.old area.new result }
{
    let place = place_record(area, bytes)?;
    chain_replace(area, chain, behind, member, place)?;
    Ok(place)
}
