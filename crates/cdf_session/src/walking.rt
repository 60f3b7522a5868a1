//! The events of a file under edit: one at a time, all of them written, or shown to taps.

ghost use Rattle.std.specs.Prelude.{◌≡◌, ℕ, true, map, IfNone, IfOk, OnOk, OnErr};
ghost use Rattle.std.specs.Io.KnownBytes.{Appends};
ghost use Rattle.std.specs.List.{slice_get};
ghost use Rattle.cdf_area.specs.Calls.{Reads};
ghost use Rattle.cdf_format.specs.Content.{content};
ghost use Rattle.cdf_model.specs.Events.{events_of};
ghost use Rattle.cdf_model.specs.EventTexts.{dump_text};
ghost use Rattle.cdf_model.specs.Taps.{has_tap, left_after, told};
ghost use Rattle.cdf_model.specs.Walks.{Gives};
ghost use Rattle.cdf_session.specs.Walking.{GaveBy, GaveSome, Walks, counted_with};
ghost use Rattle.cdf_store.specs.Written.{AppendsFront};
ghost use Rattle.cdf_tap.specs.Meanings.{kinds_of, others_of};

use crate::session::Session;
use cdf_area::{Area, AreaError};
use cdf_model::Event;
use cdf_store::Sink;
use cdf_tap::Tap;
use cdf_walk::{Walk, WalkError, dump, next_event, report};

impl<A: Area> Session<A> {
    /// A walk that has given no event.
    pub fn walk(&self) -> Walk
        ensures { GaveBy (A.image self.now) result 0 }
    {
        Walk::new()
    }

    /// Gives the event of the data set that comes next in a walk, if there is one. Where there is none, and after an error, the walk stays.
    pub fn next_event(&mut self, walk: &mut Walk) -> Result<Option<Event>, AreaError>
        requires { GaveSome (A.image self.old) walk.old }
        ensures gives { IfOk result (λ o. Gives (content (A.image self.old)) walk.old.spot o walk.new.spot) }
        ensures event { (k : ℕ) → GaveBy (A.image self.old) walk.old k → IfOk result (λ o. o ≡ slice_get (events_of (content (A.image self.old))) k) }
        ensures gave { (k : ℕ) → GaveBy (A.image self.old) walk.old k → IfOk result (λ o. GaveBy (A.image self.new) walk.new (counted_with k o)) }
        ensures none { IfOk result (λ o. IfNone o (walk.new ≡ walk.old)) }
        ensures err { OnErr result (walk.new ≡ walk.old) }
        ensures area { Reads A.image A.frame A.faults A.edited self.old self.new result }
    {
        // A good image has few records, so their number does not overflow.
        let _alloc = self.alloc;
        next_event(self, walk)
    }

    /// Writes all events of the data set, each on a line of its own. After an error a part was written, from the front.
    pub fn dump<O: Sink>(&mut self, out: &mut O) -> Result<(), WalkError>
        ensures all { OnOk result (Appends (O.written out.old) (O.written out.new) (dump_text (content (A.image self.old)))) }
        ensures part { OnErr result (AppendsFront (O.written out.old) (O.written out.new) (dump_text (content (A.image self.old)))) }
        ensures area { Walks A.image A.frame A.faults A.edited self.old self.new (O.faults out.old) (O.faults out.new) result }
    {
        dump(self.alloc, self, out)
    }

    /// Shows the events of the data set to the taps of a name, each from its start on and until it comes to its end, writes their
    /// texts, and drops those that came to their end. After an error a part of the texts was written, from the front, and no tap
    /// is dropped.
    pub fn report<O: Sink>(
        &mut self,
        name: &[u8],
        taps: &mut Vec<Box<dyn Tap>>,
        out: &mut O,
    ) -> Result<(), WalkError>
        requires known { has_tap (kinds_of (map (λ tap. meaning tap) taps.old.items)) name.now ≡ true }
        ensures all { OnOk result (Appends (O.written out.old) (O.written out.new) (told (kinds_of (map (λ tap. meaning tap) taps.old.items)) name.now (content (A.image self.old)))) }
        ensures left { OnOk result (kinds_of (map (λ tap. meaning tap) taps.new.items) ≡ left_after (kinds_of (map (λ tap. meaning tap) taps.old.items)) name.now (content (A.image self.old))) }
        ensures part { OnErr result (AppendsFront (O.written out.old) (O.written out.new) (told (kinds_of (map (λ tap. meaning tap) taps.old.items)) name.now (content (A.image self.old)))) }
        ensures kept { OnErr result (kinds_of (map (λ tap. meaning tap) taps.new.items) ≡ kinds_of (map (λ tap. meaning tap) taps.old.items)) }
        ensures others { others_of name.now (map (λ tap. meaning tap) taps.new.items) ≡ others_of name.now (map (λ tap. meaning tap) taps.old.items) }
        ensures area { Walks A.image A.frame A.faults A.edited self.old self.new (O.faults out.old) (O.faults out.new) result }
    {
        report(self.alloc, self, name, taps, out)
    }
}
