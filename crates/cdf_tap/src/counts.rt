//! How many parts of a data set were seen.

ghost use Rattle.std.specs.Prelude.{◌≡◌, IfSome};
ghost use Rattle.cdf_model.specs.ShippedTaps.{counts_after};
ghost use Rattle.cdf_tap.specs.Counted.{listed};

use cdf_model::Event;

/// How many attributes, entries, variables and records were seen.
#[derive(Clone, Copy, Debug, PartialEq, Eq)]
pub struct Counts {
    pub attrs: u64,
    pub entries: u64,
    pub vars: u64,
    pub recs: u64,
}

/// The counts with what an event adds; none where a count would pass 64 bits.
pub fn counts_with(counts: Counts, event: &Event) -> Option<Counts>
    ensures { IfSome result (λ after. listed after ≡ counts_after (listed counts) event.now) }
{
    let mut after = counts;
    match event {
        Event::Attr { .. } => after.attrs = counts.attrs.checked_add(1)?,
        Event::Entry { .. } => after.entries = counts.entries.checked_add(1)?,
        Event::Var { .. } => after.vars = counts.vars.checked_add(1)?,
        Event::Rec { .. } => after.recs = counts.recs.checked_add(1)?,
        Event::Head { .. } | Event::End { .. } => {}
    }
    Some(after)
}
