//! Attributes and their entries as events, one at a time.

ghost use Rattle.std.specs.Prelude.{◌≡◌, ◌+◌, ◌≤◌, ◌<◌, length, IfOk, IsSome, slice_get};
ghost use Rattle.std.specs.Option.{option_and_then, option_map};
ghost use Rattle.cdf_area.specs.Calls.{Reads};
ghost use Rattle.cdf_attrs.specs.Finding.{IsOfAttribute};
ghost use Rattle.cdf_attrs.specs.Known.{Knows};
ghost use Rattle.cdf_edits.specs.Space.Chains.{members_of};
ghost use Rattle.cdf_format.specs.AttributeRules.{entry_bytes};
ghost use Rattle.cdf_format.specs.Content.{content, entries_of, entry_of};
ghost use Rattle.cdf_format.specs.Fields.{LiesIn};
ghost use Rattle.cdf_format.specs.Records.{past, cdr_place, cdr_copyright, aedr_value};
ghost use Rattle.cdf_format.specs.WellFormed.{Good};
ghost use Rattle.cdf_model.specs.Events.{attribute_event, entry_event, kind_in};
ghost use Rattle.cdf_model.specs.declared.kinds.EntryKind.TheVariants.{Z};

use crate::attrs::Attrs;
use crate::finding::is_global;
use crate::getting::read_entry_value;
use crate::reading::read_scope;
use cdf_area::{Area, AreaError};
use cdf_model::{EntryKind, Event, Scope};
use cdf_records::read_name;
use cdf_space::Chain;
use std::alloc::Global;

/// The kind of the entries of an attribute with a scope that belong to the file or to an r variable.
fn kind_in(scope: Scope) -> EntryKind
    ensures { result ≡ kind_in scope }
{
    if is_global(scope) {
        EntryKind::G
    } else {
        EntryKind::R
    }
}

/// The entry of a kind and a number whose descriptor stands at a place.
fn read_event<A: Area>(
    alloc: Global,
    area: &mut A,
    kind: EntryKind,
    num: u32,
    place: u64,
) -> Result<Event, AreaError>
    requires cdr { LiesIn (A.image area.old) cdr_place cdr_copyright }
    requires entry { place + past (aedr_value (entry_bytes (A.image area.old) place)) ≤ length (A.image area.old) }
    ensures event { IfOk result (λ event. event ≡ entry_event kind (num, entry_of (A.image area.old) place)) }
    ensures area { Reads A.image A.frame A.faults A.edited area.old area.new result }
{
    let value = read_entry_value(alloc, area, place)?;
    Ok(Event::Entry {
        kind,
        num,
        t: value.t,
        elems: value.elems,
        bytes: value.bytes,
    })
}

impl Attrs {
    /// Where the descriptor of the attribute of a number stands.
    fn place_of(&self, n: u32) -> Option<u64>
        ensures { result ≡ slice_get self.now.places n }
    {
        self.places.get(n as usize).copied()
    }

    /// The attribute of a number, as an event.
    pub fn attribute_event<A: Area>(&self, area: &mut A, n: u32) -> Result<Option<Event>, AreaError>
        requires good { Good (A.image area.old) }
        requires known { Knows (A.image area.old) self.now }
        ensures event { IfOk result (λ o. o ≡ option_map (attribute_event n) (slice_get (content (A.image area.old)).attributes n)) }
        ensures few { IfOk result (λ o. IsSome o → n < 0xffffffff) }
        ensures area { Reads A.image A.frame A.faults A.edited area.old area.new result }
    {
        let Some(place) = self.place_of(n) else {
            return Ok(None);
        };
        let name = read_name(self.alloc, area, place)?;
        let scope = read_scope(area, place)?;
        Ok(Some(Event::Attr {
            num: n,
            name,
            scope,
        }))
    }

    /// The entry of a chain of an attribute before which so many stand in the order of their numbers, as an event.
    fn entry_event<A: Area>(
        &mut self,
        area: &mut A,
        kind: EntryKind,
        chain: Chain,
        i: u32,
    ) -> Result<Option<Event>, AreaError>
        requires good { Good (A.image area.old) }
        requires known { Knows (A.image area.old) self.old }
        requires attribute { IsOfAttribute (A.image area.old) chain }
        ensures event { IfOk result (λ o. o ≡ option_map (entry_event kind) (slice_get (entries_of (A.image area.old) (members_of (A.image area.old) chain)) i)) }
        ensures few { IfOk result (λ o. IsSome o → i < 0xffffffff) }
        ensures known { Knows (A.image area.new) self.new }
        ensures area { Reads A.image A.frame A.faults A.edited area.old area.new result }
    {
        let Some((num, place)) = self.find_in_order(area, chain, i)? else {
            return Ok(None);
        };
        let event = read_event(self.alloc, area, kind, num, place)?;
        Ok(Some(event))
    }

    /// The entry of the attribute of a number before which so many of the file or of r variables stand in the order of their numbers,
    /// as an event.
    pub fn own_entry<A: Area>(
        &mut self,
        area: &mut A,
        n: u32,
        i: u32,
    ) -> Result<Option<Event>, AreaError>
        requires good { Good (A.image area.old) }
        requires known { Knows (A.image area.old) self.old }
        ensures event { IfOk result (λ o. o ≡ option_and_then (λ a. option_map (entry_event (kind_in a.scope)) (slice_get a.g i)) (slice_get (content (A.image area.old)).attributes n)) }
        ensures few { IfOk result (λ o. IsSome o → i < 0xffffffff) }
        ensures known { Knows (A.image area.new) self.new }
        ensures area { Reads A.image A.frame A.faults A.edited area.old area.new result }
    {
        let Some(adr) = self.place_of(n) else {
            return Ok(None);
        };
        let scope = read_scope(area, adr)?;
        self.entry_event(area, kind_in(scope), Chain::GrEntries { adr }, i)
    }

    /// The entry of the attribute of a number before which so many of z variables stand in the order of their numbers, as an event.
    pub fn z_entry<A: Area>(
        &mut self,
        area: &mut A,
        n: u32,
        i: u32,
    ) -> Result<Option<Event>, AreaError>
        requires good { Good (A.image area.old) }
        requires known { Knows (A.image area.old) self.old }
        ensures event { IfOk result (λ o. o ≡ option_and_then (λ a. option_map (entry_event Z) (slice_get a.z i)) (slice_get (content (A.image area.old)).attributes n)) }
        ensures few { IfOk result (λ o. IsSome o → i < 0xffffffff) }
        ensures known { Knows (A.image area.new) self.new }
        ensures area { Reads A.image A.frame A.faults A.edited area.old area.new result }
    {
        let Some(adr) = self.place_of(n) else {
            return Ok(None);
        };
        self.entry_event(area, EntryKind::Z, Chain::ZEntries { adr }, i)
    }
}
