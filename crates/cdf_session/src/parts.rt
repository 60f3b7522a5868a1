//! The parts of the data set of a file under edit, one at a time by their numbers.

ghost use Rattle.std.specs.Prelude.{◌≡◌, ℕ, Bool, List};
ghost use Rattle.cdf_area.specs.Frame.{Frame};
ghost use Rattle.cdf_format.specs.Content.{content};
ghost use Rattle.cdf_session.specs.Walking.{found_in};

use crate::reading::read_head;
use crate::session::Session;
use cdf_area::{Area, AreaError};
use cdf_model::{Event, Head, Kind};
use cdf_walk::{Found, Parts};

/// A record with its number.
fn found(event: Event) -> Option<Found>
    ensures { result ≡ found_in event }
{
    let num = match &event {
        Event::Rec { num, .. } => *num,
        _ => return None,
    };
    Some(Found { num, event })
}

impl<A: Area> Parts for Session<A> {
    ghost told = { λ session. content (A.image session) };

    ghost Under = { List ℕ × Bool × Frame A.Under };

    ghost under = { λ session. (A.image session, A.edited session, A.frame session) };

    ghost faults = { A.faults };

    fn head(&mut self) -> Result<Head, AreaError> {
        read_head(self.alloc, &mut self.area)
    }

    fn attribute(&mut self, num: u32) -> Result<Option<Event>, AreaError> {
        self.attrs.attribute_event(&mut self.area, num)
    }

    fn own_entry(&mut self, num: u32, at: u32) -> Result<Option<Event>, AreaError> {
        self.attrs.own_entry(&mut self.area, num, at)
    }

    fn z_entry(&mut self, num: u32, at: u32) -> Result<Option<Event>, AreaError> {
        self.attrs.z_entry(&mut self.area, num, at)
    }

    fn variable(&mut self, kind: Kind, num: u32) -> Result<Option<Event>, AreaError> {
        self.vars.variable_event(&mut self.area, kind, num)
    }

    fn record(&mut self, kind: Kind, num: u32, from: u32) -> Result<Option<Found>, AreaError> {
        let kept = &mut self.kept;
        let next = self.vars.next_record(
            &mut self.area,
            &mut kept.starts,
            &mut kept.view,
            kind,
            num,
            from,
        )?;
        match next {
            Some(event) => Ok(found(event)),
            None => Ok(None),
        }
    }

    fn end(&mut self, recs: u64) -> Result<Event, AreaError> {
        let head = read_head(self.alloc, &mut self.area)?;
        Ok(Event::End {
            attrs: head.attrs,
            vars: head.rvars + head.zvars,
            recs,
        })
    }
}
