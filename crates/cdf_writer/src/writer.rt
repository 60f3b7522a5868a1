//! A file made anew, event by event.

ghost use Rattle.std.specs.Prelude.{[], ◌≡◌, ◌+◌, ◌<◌, ◌^◌, ◌≤◌, ◌++◌, ◌∷◌, List, length, IfErr, OnOk};
ghost use Rattle.cdf_base.specs.Causes.{HasCauseOf};
ghost use Rattle.cdf_model.specs.DataSet.{DataSet};
ghost use Rattle.cdf_model.specs.Events.{events_of};
ghost use Rattle.cdf_model.specs.Limits.{image_limit};
ghost use Rattle.cdf_model.specs.declared.event.Event.{Event as EventValue};
ghost use Rattle.cdf_writer.specs.Compact.{bodies, compact};
ghost use Rattle.cdf_writer.specs.Fine.{Fine};
ghost use Rattle.cdf_writer.specs.Progress.{State, begins};
ghost use Rattle.cdf_writer.specs.Stops.{CutAt, EndsAt, Writes};
ghost use Rattle.cdf_writer.specs.Shown.{IsHead, IsWhole, Shows, begin_bodies};
ghost use Rattle.cdf_writer.specs.Taken.{BeginsFine, Took, area_of};
ghost use Rattle.cdf_writer.specs.declared.appending.WriteStop.TheVariants.{Fault};

use crate::appending::WriteStop;
use crate::opening::begin_file;
use crate::progress::{FileState, Part};
use crate::taking::take_event;
use cdf_area::Area;
use cdf_model::Event;
use std::alloc::Global;

/// Writes the compact image of a data set into an area, as its events come.
///
/// It keeps of the file one attribute or one variable: 16 bytes for each block, the records of one block, and one entry.
#[derive(Drop)]
pub struct Writer<A: Area> {
    alloc: Global,
    area: A,
    file: FileState,
    part: Part,
}

/// Takes the first event, which is the head.
fn take_first<A: Area>(
    alloc: Global,
    area: &mut A,
    file: &mut FileState,
    part: &mut Part,
    e: &Event,
) -> Result<(), WriteStop>
    requires limit { (A.frame area.old).limit ≤ 2 ^ 62 }
    requires room { 404 ≤ (A.frame area.old).limit }
    requires empty { A.image area.old ≡ [] }
    requires head { IsHead e.now }
    requires whole { IsWhole e.now }
    ensures shows { (s : State) → Shows (A.image area.old) file.old part.old s → OnOk result (Shows (A.image area.new) file.new part.new (begins s e.now)) }
    ensures area { Writes A.image A.frame A.faults 8 area.old area.new (begin_bodies e.now) result }
{
    match e {
        Event::Head { head } => {
            *file = begin_file(alloc, area, head)?;
            *part = Part::Between;
            Ok(())
        }
        // No other event comes first.
        _ => Ok(()),
    }
}

impl<A: Area> Writer<A> {
    /// A writer into an empty area, to which no event came yet.
    pub fn new(alloc: Global, area: A) -> Self
        requires empty { A.image area ≡ [] }
        requires least { 404 ≤ (A.frame area).limit }
        requires most { (A.frame area).limit ≤ image_limit }
        ensures took { Took A.image A.frame result [] }
        ensures area { area_of result ≡ area }
    {
        Writer {
            alloc,
            area,
            file: FileState::new(alloc),
            part: Part::Start,
        }
    }

    /// Takes the next event of a data set. After an error no other one may be taken.
    pub fn put(&mut self, e: &Event) -> Result<(), WriteStop>
        requires { (taken : List EventValue) × Took A.image A.frame self.old taken × BeginsFine (taken ++ e.now ∷ []) }
        ensures took { (taken : List EventValue) → Took A.image A.frame self.old taken → OnOk result (Took A.image A.frame self.new (taken ++ e.now ∷ [])) }
        ensures too_large { (taken : List EventValue) (d : DataSet) (rest : List EventValue) → Took A.image A.frame self.old taken → Fine d → events_of d ≡ taken ++ e.now ∷ rest → IfErr result (CutAt (A.frame (area_of self.old)).limit 8 (bodies d)) }
        ensures ends { IfErr result (EndsAt (length (A.image (area_of self.new)))) }
        ensures frame { A.frame (area_of self.new) ≡ A.frame (area_of self.old) }
        ensures cause { HasCauseOf Fault (A.faults (area_of self.old)) (A.faults (area_of self.new)) result }
    {
        if let Part::Start = self.part {
            return take_first(
                self.alloc,
                &mut self.area,
                &mut self.file,
                &mut self.part,
                e,
            );
        }
        take_event(
            self.alloc,
            &mut self.area,
            &mut self.file,
            &mut self.part,
            e,
        )
    }

    /// Gives the area back. Once all events of a data set were taken, its image is the compact one of this data set.
    pub fn into_area(self) -> A
        ensures area { result ≡ area_of self }
        ensures whole { (d : DataSet) → Fine d → Took A.image A.frame self (events_of d) → A.image result ≡ compact d }
    {
        self.area
    }
}
