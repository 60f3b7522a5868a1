//! Chains of records: read, and members added, taken out and replaced.

ghost use Rattle.std.specs.Prelude.{◌≡◌, ◌+◌, ◌-◌, ◌^◌, ◌<◌, ◌≤◌, true, length, get_or, None, IfOk, OnOk};
ghost use Rattle.std.specs.List.{last_or};
ghost use Rattle.cdf_area.specs.Calls.{Edits, Reads};
ghost use Rattle.cdf_format.specs.Sound.{IsSound};
ghost use Rattle.cdf_format.specs.Chains.{is_in};
ghost use Rattle.cdf_format.specs.Fields.{with_field, LiesIn};
ghost use Rattle.cdf_format.specs.Shape.{shape};
ghost use Rattle.cdf_format.specs.Records.{cdr_place, cdr_gdr_offset, link_size};
ghost use Rattle.cdf_model.specs.Limits.{image_limit};
ghost use Rattle.cdf_edits.specs.Space.Chains.{Appended, HasChain, HolderStands, MayJoin, Removed, Replaced, before, count_of, counted_in, head_of, holder_of, members_of};
ghost use Rattle.cdf_edits.specs.Space.TakingOut.{Lists, TakenOut};
ghost use Rattle.cdf_space.specs.Steps.{link_place};

use crate::Chain;
use cdf_area::{Area, AreaError};
use cdf_format::fields::{
    ADR_ADR_NEXT, ADR_AGR_EDR_HEAD, ADR_AZ_EDR_HEAD, ADR_NGR_ENTRIES, ADR_NZ_ENTRIES,
    CDR_GDR_OFFSET, CDR_PLACE, GDR_ADR_HEAD, GDR_NR_VARS, GDR_NUM_ATTR, GDR_NZ_VARS,
    GDR_R_VDR_HEAD, GDR_Z_VDR_HEAD,
};
use cdf_records::{read_unsigned4, read_unsigned8, set_uir_next_uir, set_unsigned4, set_unsigned8};
use std::alloc::Global;

/// Where the link to a chain stands in the record that has it.
fn head_place(chain: Chain) -> u64
    ensures { result ≡ (head_of chain).place }
{
    match chain {
        Chain::Attrs => GDR_ADR_HEAD,
        Chain::RVars => GDR_R_VDR_HEAD,
        Chain::ZVars => GDR_Z_VDR_HEAD,
        Chain::GrEntries { adr: _ } => ADR_AGR_EDR_HEAD,
        Chain::ZEntries { adr: _ } => ADR_AZ_EDR_HEAD,
    }
}

/// Where the count of a chain stands beside it.
fn count_place(chain: Chain) -> u64
    ensures { result ≡ (count_of chain).place }
{
    match chain {
        Chain::Attrs => GDR_NUM_ATTR,
        Chain::RVars => GDR_NR_VARS,
        Chain::ZVars => GDR_NZ_VARS,
        Chain::GrEntries { adr: _ } => ADR_NGR_ENTRIES,
        Chain::ZEntries { adr: _ } => ADR_NZ_ENTRIES,
    }
}

/// The record that has the link to a chain.
fn holder<A: Area>(area: &mut A, chain: Chain) -> Result<u64, AreaError>
    requires cdr { LiesIn (A.image area.old) cdr_place cdr_gdr_offset }
    ensures holder { IfOk result (λ holder. holder ≡ holder_of (A.image area.old) chain) }
    ensures area { Reads A.image A.frame A.faults A.edited area.old area.new result }
{
    match chain {
        Chain::Attrs | Chain::RVars | Chain::ZVars => read_unsigned8(
            area,
            CDR_PLACE + CDR_GDR_OFFSET,
        ),
        Chain::GrEntries { adr } | Chain::ZEntries { adr } => Ok(adr),
    }
}

/// Where the link stands behind a member of a chain, or the link to its first one where none is given.
fn link_behind<A: Area>(area: &mut A, chain: Chain, member: Option<u64>) -> Result<u64, AreaError>
    requires cdr { LiesIn (A.image area.old) cdr_place cdr_gdr_offset }
    requires inside { link_place (A.image area.old) chain member + link_size ≤ length (A.image area.old) }
    ensures place { IfOk result (λ place. place ≡ link_place (A.image area.old) chain member) }
    ensures area { Reads A.image A.frame A.faults A.edited area.old area.new result }
{
    // An image has fewer than 2^64 bytes, so no place in it overflows.
    let _size = area.size();
    match member {
        Some(place) => Ok(place + ADR_ADR_NEXT),
        None => Ok(holder(area, chain)? + head_place(chain)),
    }
}

/// The records of a chain in its order, of which there are as many as the field beside its head says.
pub fn read_chain<A: Area>(alloc: Global, area: &mut A, chain: Chain) -> Result<Vec<u64>, AreaError>
    requires sound { IsSound (A.image area.old) (shape (A.image area.old)) }
    requires holder { HolderStands (A.image area.old) chain }
    requires chain { HasChain (A.image area.old) chain }
    requires counted { counted_in (A.image area.old) chain ≡ length (members_of (A.image area.old) chain) }
    ensures members { IfOk result (λ places. places.items ≡ members_of (A.image area.old) chain) }
    ensures area { Reads A.image A.frame A.faults A.edited area.old area.new result }
{
    // An image has fewer than 2^64 bytes, so no place in it overflows.
    let _size = area.size();
    let at = holder(area, chain)?;
    let count = read_unsigned4(area, at + count_place(chain))?;
    let mut places = Vec::new(alloc);
    let mut link = at + head_place(chain);
    for _ in 0..count {
        let place = read_unsigned8(area, link)?;
        places.push(place)?;
        link = place + ADR_ADR_NEXT;
    }
    Ok(places)
}

/// Makes a record the last one of a chain, behind the one that was the last, none where the chain was empty.
/// After an error a part of this may have been done.
pub fn chain_append<A: Area>(
    area: &mut A,
    chain: Chain,
    last: Option<u64>,
    place: u64,
) -> Result<(), AreaError>
    requires sound { IsSound (A.image area.old) (shape (A.image area.old)) }
    requires holder { HolderStands (A.image area.old) chain }
    requires chain { HasChain (A.image area.old) chain }
    requires last { last ≡ last_or None (members_of (A.image area.old) chain) }
    requires joins { MayJoin (A.image area.old) chain place }
    requires short { length (A.image area.old) ≤ image_limit }
    ensures appended { OnOk result (Appended (A.image area.old) (A.image area.new) chain place) }
    ensures area { Edits A.frame A.faults area.old area.new result }
{
    let link = link_behind(area, chain, last)?;
    set_uir_next_uir(area, place, 0)?;
    set_unsigned8(area, link, 0, place)
}

/// Takes a member out of a chain, which stands behind another one, or is the first where none is given.
pub fn chain_remove<A: Area>(
    area: &mut A,
    chain: Chain,
    behind: Option<u64>,
    place: u64,
) -> Result<(), AreaError>
    requires sound { IsSound (A.image area.old) (shape (A.image area.old)) }
    requires holder { HolderStands (A.image area.old) chain }
    requires chain { HasChain (A.image area.old) chain }
    requires member { is_in place (members_of (A.image area.old) chain) ≡ true }
    requires behind { behind ≡ last_or None (before place (members_of (A.image area.old) chain)) }
    requires short { length (A.image area.old) ≤ image_limit }
    ensures removed { OnOk result (Removed (A.image area.old) (A.image area.new) chain place) }
    ensures area { Edits A.frame A.faults area.old area.new result }
{
    let link = link_behind(area, chain, behind)?;
    let next = read_unsigned8(area, place + ADR_ADR_NEXT)?;
    set_unsigned8(area, link, 0, next)
}

/// Puts another record into the place of a member of a chain, which stands behind another one, or is the first where none is given.
/// After an error a part of this may have been done.
pub fn chain_replace<A: Area>(
    area: &mut A,
    chain: Chain,
    behind: Option<u64>,
    place: u64,
    by: u64,
) -> Result<(), AreaError>
    requires sound { IsSound (A.image area.old) (shape (A.image area.old)) }
    requires holder { HolderStands (A.image area.old) chain }
    requires chain { HasChain (A.image area.old) chain }
    requires member { is_in place (members_of (A.image area.old) chain) ≡ true }
    requires behind { behind ≡ last_or None (before place (members_of (A.image area.old) chain)) }
    requires joins { MayJoin (A.image area.old) chain by }
    requires short { length (A.image area.old) ≤ image_limit }
    ensures replaced { OnOk result (Replaced (A.image area.old) (A.image area.new) chain place by) }
    ensures area { Edits A.frame A.faults area.old area.new result }
{
    let link = link_behind(area, chain, behind)?;
    let next = read_unsigned8(area, place + ADR_ADR_NEXT)?;
    set_uir_next_uir(area, by, next)?;
    set_unsigned8(area, link, 0, by)
}

/// Counts one record more in a chain.
pub fn count_up<A: Area>(area: &mut A, chain: Chain) -> Result<(), AreaError>
    requires cdr { LiesIn (A.image area.old) cdr_place cdr_gdr_offset }
    requires inside { holder_of (A.image area.old) chain + (count_of chain).place + 4 ≤ length (A.image area.old) }
    requires few { counted_in (A.image area.old) chain + 1 < 2 ^ 32 }
    ensures counted { OnOk result (A.image area.new ≡ with_field (A.image area.old) (holder_of (A.image area.old) chain) (count_of chain) (counted_in (A.image area.old) chain + 1)) }
    ensures area { Edits A.frame A.faults area.old area.new result }
{
    // An image has fewer than 2^64 bytes, so no place in it overflows.
    let _size = area.size();
    let at = holder(area, chain)?;
    let place = count_place(chain);
    let count = read_unsigned4(area, at + place)?;
    set_unsigned4(area, at, place, count + 1)
}

/// Counts one record less in a chain.
pub fn count_down<A: Area>(area: &mut A, chain: Chain) -> Result<(), AreaError>
    requires cdr { LiesIn (A.image area.old) cdr_place cdr_gdr_offset }
    requires inside { holder_of (A.image area.old) chain + (count_of chain).place + 4 ≤ length (A.image area.old) }
    requires some { 0 < counted_in (A.image area.old) chain }
    ensures counted { OnOk result (A.image area.new ≡ with_field (A.image area.old) (holder_of (A.image area.old) chain) (count_of chain) (counted_in (A.image area.old) chain - 1)) }
    ensures area { Edits A.frame A.faults area.old area.new result }
{
    // An image has fewer than 2^64 bytes, so no place in it overflows.
    let _size = area.size();
    let at = holder(area, chain)?;
    let place = count_place(chain);
    let count = read_unsigned4(area, at + place)?;
    set_unsigned4(area, at, place, count - 1)
}

/// Takes the member of a number out of a chain whose members stand at these places, and counts one record less there.
/// After an error a part of this may have been done.
pub fn take_out<A: Area>(
    area: &mut A,
    chain: Chain,
    members: &[u64],
    number: usize,
) -> Result<(), AreaError>
    requires sound { IsSound (A.image area.old) (shape (A.image area.old)) }
    requires lists { Lists (A.image area.old) chain members.now }
    requires within { number < length members.now }
    requires short { length (A.image area.old) ≤ image_limit }
    ensures taken { OnOk result (TakenOut (A.image area.old) (A.image area.new) chain (get_or members.now number 0)) }
    ensures area { Edits A.frame A.faults area.old area.new result }
{
    let behind = members[..number].last().copied();
    chain_remove(area, chain, behind, members[number])?;
    count_down(area, chain)
}
