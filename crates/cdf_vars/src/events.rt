//! The variables and their stored records as events, one at a time by their numbers.

ghost use Rattle.std.specs.Prelude.{◌≡◌, ◌≤◌, length, IfOk};
ghost use Rattle.std.specs.List.{slice_get};
ghost use Rattle.std.specs.Option.{option_map};
ghost use Rattle.cdf_area.specs.Calls.{Reads};
ghost use Rattle.cdf_format.specs.Content.{content};
ghost use Rattle.cdf_format.specs.WellFormed.{Good};
ghost use Rattle.cdf_model.specs.Events.{variable_event};
ghost use Rattle.cdf_model.specs.Limits.{image_limit};
ghost use Rattle.cdf_model.specs.Names.{variables_of};
ghost use Rattle.cdf_puts.specs.Starts.{KnowsStarts};
ghost use Rattle.cdf_vars.specs.Events.{FindsReader, IsNextOf, KnowsView};
ghost use Rattle.cdf_vars.specs.Known.{Knows, known_of};
ghost use Rattle.cdf_model.specs.declared.event.Event.TheVariants as events;

use crate::record_view::RecordView;
use crate::vars::{VarId, Vars};
use cdf_area::{Area, AreaError};
use cdf_model::{Bytes, DataType, Event, Kind};
use cdf_puts::Starts;
use cdf_var_records::{RecordReader, Stored, read_variable};

/// A stored record, with so many elements of a type in each value, as an event.
fn record_event(t: DataType, elems: u32, stored: Stored) -> Event
    ensures { result ≡ events.Rec stored.num t elems stored.bytes.items }
{
    Event::Rec {
        num: stored.num,
        t,
        elems,
        bytes: Bytes::new(stored.bytes),
    }
}

impl Vars {
    /// Where the descriptor of a variable stands, if there is one of the number.
    fn find_place(&self, id: VarId) -> Option<u64>
        ensures { result ≡ slice_get (known_of self.now id.kind).places id.num }
    {
        match id.kind {
            Kind::R => self.r.places.get(id.num as usize).copied(),
            Kind::Z => self.z.places.get(id.num as usize).copied(),
        }
    }

    /// The variable of a number among those of a kind, as an event; none where there is no such variable.
    pub fn variable_event<A: Area>(
        &self,
        area: &mut A,
        kind: Kind,
        n: u32,
    ) -> Result<Option<Event>, AreaError>
        requires good { Good (A.image area.old) }
        requires known { Knows (A.image area.old) self.now }
        ensures event { IfOk result (λ event. event ≡ option_map (variable_event kind n) (slice_get (variables_of (content (A.image area.old)) kind) n)) }
        ensures area { Reads A.image A.frame A.faults A.edited area.old area.new result }
    {
        let Some(vdr) = self.find_place(VarId { kind, num: n }) else {
            return Ok(None);
        };
        let event = read_variable(self.alloc, area, kind, n, vdr)?;
        Ok(Some(event))
    }

    /// A reader of the records of a variable, the one that is kept if it is of this variable.
    fn reader_of<A: Area>(
        &self,
        area: &mut A,
        view: &mut RecordView,
        id: VarId,
    ) -> Result<Option<RecordReader>, AreaError>
        requires good { Good (A.image area.old) }
        requires known { Knows (A.image area.old) self.now }
        requires view { KnowsView (A.image area.old) view.old }
        ensures reader { IfOk result (FindsReader (A.image area.old) id) }
        ensures view { KnowsView (A.image area.old) view.new }
        ensures area { Reads A.image A.frame A.faults A.edited area.old area.new result }
    {
        if let Some(reader) = view.take(id) {
            return Ok(Some(reader));
        }
        let Some(vdr) = self.find_place(id) else {
            return Ok(None);
        };
        let reader = RecordReader::new(self.alloc, area, id.kind, vdr)?;
        Ok(Some(reader))
    }

    /// The first record from a number on that is stored of the variable of a number among those of a kind, as an event; none where there
    /// is no such record, or no such variable.
    #[tactic(auto, using(cdf_area::proofs::Calls::read_done, cdf_area::proofs::Calls::read_failed, cdf_area::proofs::Calls::read_more, cdf_area::proofs::Calls::read_once))]
    pub fn next_record<A: Area>(
        &self,
        area: &mut A,
        starts: &mut Starts,
        view: &mut RecordView,
        kind: Kind,
        n: u32,
        from: u32,
    ) -> Result<Option<Event>, AreaError>
        requires good { Good (A.image area.old) }
        requires known { Knows (A.image area.old) self.now }
        requires starts { KnowsStarts (A.image area.old) starts.old }
        requires view { KnowsView (A.image area.old) view.old }
        requires short { length (A.image area.old) ≤ image_limit }
        ensures event { IfOk result (IsNextOf (slice_get (variables_of (content (A.image area.old)) kind) n) from) }
        ensures starts { KnowsStarts (A.image area.old) starts.new }
        ensures view { KnowsView (A.image area.old) view.new }
        ensures area { Reads A.image A.frame A.faults A.edited area.old area.new result }
    {
        let id = VarId { kind, num: n };
        let Some(mut reader) = self.reader_of(area, view, id)? else {
            return Ok(None);
        };
        let next = reader.read_next(self.alloc, area, starts, from)?;
        let (t, elems) = (reader.form.shape.t, reader.form.shape.elems);
        view.keep(id, reader);
        let Some(stored) = next else {
            return Ok(None);
        };
        Ok(Some(record_event(t, elems, stored)))
    }
}
