//! A walk over the events of a data set, one at a time.

ghost use Rattle.std.specs.Prelude.{◌≡◌, ◌≤◌, ◌<◌, ◌^◌, IfOk, IfNone, OnErr};
ghost use Rattle.cdf_model.specs.DataSet.{DataSet};
ghost use Rattle.cdf_model.specs.Walks.{Counts, Gives, all_records, records_of};
ghost use Rattle.cdf_model.specs.declared.spot.Spot.TheVariants as spots;
ghost use Rattle.cdf_walk.specs.Parts.{Tells, number_limit};
ghost use Rattle.cdf_walk.specs.Walks.{IsStep, Stands, Within, behind};

use crate::parts::Parts;
use cdf_area::AreaError;
use cdf_model::{Event, Kind, Spot};

/// Where a walk stands: the spot, and how many records it has given.
#[derive(Clone, Copy, Debug, PartialEq, Eq)]
pub struct Walk {
    pub spot: Spot,
    pub counted: u64,
}

/// What is at a spot.
#[derive(Drop)]
pub enum Step {
    /// An event, behind which the walk stands here.
    Gives { event: Event, after: Spot },
    /// No more of that part: what comes next is what comes from here on.
    Passes { next: Spot },
    /// No event.
    Ends,
}

impl Walk {
    /// A walk that has given no event.
    pub fn new() -> Self
        ensures spot { result.spot ≡ spots.Head }
        ensures stands { (d : DataSet) → Stands d result }
    {
        Walk {
            spot: Spot::Head,
            counted: 0,
        }
    }
}

fn at_head<P: Parts>(parts: &mut P) -> Result<Step, AreaError>
    ensures step { IfOk result (IsStep (P.told parts.old) spots.Head) }
    ensures parts { Tells P.told P.under P.faults parts.old parts.new result }
{
    let head = parts.head()?;
    Ok(Step::Gives {
        event: Event::Head { head },
        after: Spot::Attr { num: 0 },
    })
}

fn at_attribute<P: Parts>(parts: &mut P, num: u32) -> Result<Step, AreaError>
    ensures step { IfOk result (IsStep (P.told parts.old) (spots.Attr num)) }
    ensures parts { Tells P.told P.under P.faults parts.old parts.new result }
{
    let Some(event) = parts.attribute(num)? else {
        let next = Spot::Var {
            kind: Kind::R,
            num: 0,
        };
        return Ok(Step::Passes { next });
    };
    let after = Spot::OwnEntry { num, at: 0 };
    Ok(Step::Gives { event, after })
}

fn at_own_entry<P: Parts>(parts: &mut P, num: u32, at: u32) -> Result<Step, AreaError>
    requires { num < number_limit }
    ensures step { IfOk result (IsStep (P.told parts.old) (spots.OwnEntry num at)) }
    ensures parts { Tells P.told P.under P.faults parts.old parts.new result }
{
    let Some(event) = parts.own_entry(num, at)? else {
        let next = Spot::ZEntry { num, at: 0 };
        return Ok(Step::Passes { next });
    };
    let after = Spot::OwnEntry { num, at: at + 1 };
    Ok(Step::Gives { event, after })
}

fn at_z_entry<P: Parts>(parts: &mut P, num: u32, at: u32) -> Result<Step, AreaError>
    requires { num < number_limit }
    ensures step { IfOk result (IsStep (P.told parts.old) (spots.ZEntry num at)) }
    ensures parts { Tells P.told P.under P.faults parts.old parts.new result }
{
    let Some(event) = parts.z_entry(num, at)? else {
        let next = Spot::Attr { num: num + 1 };
        return Ok(Step::Passes { next });
    };
    let after = Spot::ZEntry { num, at: at + 1 };
    Ok(Step::Gives { event, after })
}

/// The spot behind the variables of a kind.
fn behind_variables(kind: Kind) -> Spot
    ensures { result ≡ behind kind }
{
    match kind {
        Kind::R => Spot::Var {
            kind: Kind::Z,
            num: 0,
        },
        Kind::Z => Spot::End,
    }
}

fn at_variable<P: Parts>(parts: &mut P, kind: Kind, num: u32) -> Result<Step, AreaError>
    ensures step { IfOk result (IsStep (P.told parts.old) (spots.Var kind num)) }
    ensures parts { Tells P.told P.under P.faults parts.old parts.new result }
{
    let Some(event) = parts.variable(kind, num)? else {
        let next = behind_variables(kind);
        return Ok(Step::Passes { next });
    };
    let after = Spot::Rec { kind, num, from: 0 };
    Ok(Step::Gives { event, after })
}

fn at_record<P: Parts>(parts: &mut P, kind: Kind, num: u32, from: u32) -> Result<Step, AreaError>
    requires { num < number_limit }
    ensures step { IfOk result (IsStep (P.told parts.old) (spots.Rec kind num from)) }
    ensures parts { Tells P.told P.under P.faults parts.old parts.new result }
{
    let Some(found) = parts.record(kind, num, from)? else {
        let next = Spot::Var { kind, num: num + 1 };
        return Ok(Step::Passes { next });
    };
    let after = Spot::Rec {
        kind,
        num,
        from: found.num + 1,
    };
    Ok(Step::Gives {
        event: found.event,
        after,
    })
}

fn at_end<P: Parts>(parts: &mut P, counted: u64) -> Result<Step, AreaError>
    requires { Counts (P.told parts.old) spots.End counted }
    ensures step { IfOk result (IsStep (P.told parts.old) spots.End) }
    ensures parts { Tells P.told P.under P.faults parts.old parts.new result }
{
    let event = parts.end(counted)?;
    Ok(Step::Gives {
        event,
        after: Spot::Behind,
    })
}

/// What is at a spot.
fn step_at<P: Parts>(parts: &mut P, spot: Spot, counted: u64) -> Result<Step, AreaError>
    requires within { Within spot }
    requires counts { Counts (P.told parts.old) spot counted }
    ensures step { IfOk result (IsStep (P.told parts.old) spot) }
    ensures parts { Tells P.told P.under P.faults parts.old parts.new result }
{
    match spot {
        Spot::Head => at_head(parts),
        Spot::Attr { num } => at_attribute(parts, num),
        Spot::OwnEntry { num, at } => at_own_entry(parts, num, at),
        Spot::ZEntry { num, at } => at_z_entry(parts, num, at),
        Spot::Var { kind, num } => at_variable(parts, kind, num),
        Spot::Rec { kind, num, from } => at_record(parts, kind, num, from),
        Spot::End => at_end(parts, counted),
        Spot::Behind => Ok(Step::Ends),
    }
}

/// How many records an event shows.
fn records_in(event: &Event) -> u64
    ensures value { result ≡ records_of event.now }
    ensures few { result ≤ 1 }
{
    match event {
        Event::Rec { .. } => 1,
        _ => 0,
    }
}

/// Gives the event that comes next, if there is one. Where there is none, and after an error, the walk stays.
pub fn next_event<P: Parts>(parts: &mut P, walk: &mut Walk) -> Result<Option<Event>, AreaError>
    requires stands { Stands (P.told parts.old) walk.old }
    requires few { all_records (P.told parts.old) < 2 ^ 64 }
    ensures gives { IfOk result (λ o. Gives (P.told parts.old) walk.old.spot o walk.new.spot) }
    ensures none { IfOk result (λ o. IfNone o (walk.new ≡ walk.old)) }
    ensures err { OnErr result (walk.new ≡ walk.old) }
    ensures stands { Stands (P.told parts.new) walk.new }
    ensures parts { Tells P.told P.under P.faults parts.old parts.new result }
{
    let mut spot = walk.spot;
    loop {
        match step_at(parts, spot, walk.counted)? {
            Step::Gives { event, after } => {
                walk.counted += records_in(&event);
                walk.spot = after;
                return Ok(Some(event));
            }
            Step::Passes { next } => spot = next,
            Step::Ends => return Ok(None),
        }
    }
}
