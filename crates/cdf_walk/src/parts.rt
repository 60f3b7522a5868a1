//! What tells the parts of a data set by their numbers.

ghost use Rattle.std.specs.Prelude.{◌≡◌, ◌<◌, ℕ, IfOk, IfSome, OnSome};
ghost use Rattle.std.specs.List.{slice_get};
ghost use Rattle.cdf_model.specs.DataSet.{DataSet, head_of};
ghost use Rattle.cdf_model.specs.Events.{end_event};
ghost use Rattle.cdf_model.specs.Names.{variables_of};
ghost use Rattle.cdf_model.specs.Walks.{all_records};
ghost use Rattle.cdf_walk.specs.Parts.{IsFirstOf, Tells, attribute_part, number_limit, own_part, variable_part, z_part};

use cdf_area::AreaError;
use cdf_model::{Event, Head, Kind};

/// A stored record as an event, and its number.
#[derive(Drop)]
pub struct Found {
    pub num: u32,
    pub event: Event,
}

/// What tells the parts of a data set by their numbers, each as its event. No part is there whose number, and one more, does not fit
/// 32 bits.
pub trait Parts {
    /// The data set.
    ghost told: { Self → DataSet };

    /// The kind of what else stays.
    ghost Under: { Type 0 };

    /// What else no call changes.
    ghost under: { Self → Under };

    /// How often what stands beneath has failed.
    ghost faults: { Self → ℕ };

    /// The head.
    fn head(&mut self) -> Result<Head, AreaError>
        ensures value { IfOk result (λ head. head ≡ head_of (told self.old)) }
        ensures parts { Tells told under faults self.old self.new result };

    /// The attribute of a number.
    fn attribute(&mut self, num: u32) -> Result<Option<Event>, AreaError>
        ensures value { IfOk result (λ o. o ≡ attribute_part (told self.old) num) }
        ensures few { IfOk result (λ o. OnSome o (num < number_limit)) }
        ensures parts { Tells told under faults self.old self.new result };

    /// Of an attribute, the entry of the file or of an r variable that stands behind so many.
    fn own_entry(&mut self, num: u32, at: u32) -> Result<Option<Event>, AreaError>
        ensures value { IfOk result (λ o. o ≡ own_part (told self.old) num at) }
        ensures few { IfOk result (λ o. OnSome o (at < number_limit)) }
        ensures parts { Tells told under faults self.old self.new result };

    /// Of an attribute, the entry of a z variable that stands behind so many.
    fn z_entry(&mut self, num: u32, at: u32) -> Result<Option<Event>, AreaError>
        ensures value { IfOk result (λ o. o ≡ z_part (told self.old) num at) }
        ensures few { IfOk result (λ o. OnSome o (at < number_limit)) }
        ensures parts { Tells told under faults self.old self.new result };

    /// The variable of a number.
    fn variable(&mut self, kind: Kind, num: u32) -> Result<Option<Event>, AreaError>
        ensures value { IfOk result (λ o. o ≡ variable_part (told self.old) kind num) }
        ensures few { IfOk result (λ o. OnSome o (num < number_limit)) }
        ensures parts { Tells told under faults self.old self.new result };

    /// Of a variable, the first stored record from a number on.
    fn record(&mut self, kind: Kind, num: u32, from: u32) -> Result<Option<Found>, AreaError>
        ensures value { IfOk result (IsFirstOf (slice_get (variables_of (told self.old) kind) num) from) }
        ensures few { IfOk result (λ o. IfSome o (λ found. found.num < number_limit)) }
        ensures parts { Tells told under faults self.old self.new result };

    /// The counts of what was shown, of which this is that of records.
    fn end(&mut self, recs: u64) -> Result<Event, AreaError>
        ensures value { recs ≡ all_records (told self.old) → IfOk result (λ event. event ≡ end_event (told self.old)) }
        ensures parts { Tells told under faults self.old self.new result };
}
