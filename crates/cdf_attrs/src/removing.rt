//! The command `del-entry`: an entry goes.

ghost use Rattle.std.specs.Prelude.{◌≡◌, ◌<◌, ◌≤◌, ◌↔◌, [], length, slice_index, All, Contains, IfOk, IfSome, IsNone, None, OnErr, OnOk, IsTrue};
ghost use Rattle.std.specs.List.{last_or};
ghost use Rattle.cdf_area.specs.Calls.{Edits};
ghost use Rattle.cdf_attrs.specs.Known.{Knows, KnowsEntries};
ghost use Rattle.cdf_attrs.specs.Putting.{IsEntryOf, RemovedAs};
ghost use Rattle.cdf_attrs.specs.Removing.{IsGreatest, TakenAt, without_at};
ghost use Rattle.cdf_edits.specs.Answers.{Answers};
ghost use Rattle.cdf_edits.specs.Edits.EntryMarks.{entries_chain};
ghost use Rattle.cdf_edits.specs.Space.Chains.{before, members_of};
ghost use Rattle.cdf_format.specs.Shape.{shape};
ghost use Rattle.cdf_format.specs.Sound.{IsSound};
ghost use Rattle.cdf_format.specs.WellFormed.{Good};
ghost use Rattle.cdf_model.specs.Limits.{image_limit, signed_limit};
ghost use Rattle.cdf_model.specs.Turns.{is_refused};
ghost use Rattle.cdf_model.specs.declared.command.Command.TheVariants.{DelEntry};

use crate::attrs::Attrs;
use crate::chain_fields::{entries_chain, set_count, set_greatest};
use crate::entry_chain::EntryChain;
use crate::finding::Target;
use crate::greatest::greatest;
use crate::kept_chains::keep_chain;
use cdf_area::{Area, AreaError};
use cdf_model::{EntryKind, Outcome, Reason, Reply};
use cdf_space::{chain_remove, free_record};

/// The greatest of the numbers of entries, -1 where there are none.
fn greatest_number(numbers: &[u32]) -> i32
    requires { All (λ n. n ≤ signed_limit) numbers.now }
    ensures { IsGreatest numbers.now result }
{
    match greatest(numbers) {
        Some(greatest) => greatest as i32,
        None => -1,
    }
}

/// Takes an entry out of the chain of a kind, in which it stands behind another one, or is the first where none is given;
/// writes how many are left and their greatest number; and frees it. After an error a part of this may have been done.
fn remove_entry<A: Area>(
    area: &mut A,
    kind: EntryKind,
    adr: u64,
    behind: Option<u64>,
    place: u64,
    count: i32,
    greatest: i32,
) -> Result<(), AreaError>
    requires sound { IsSound (A.image area.old) (shape (A.image area.old)) }
    requires entry { IsEntryOf (A.image area.old) kind adr place }
    requires behind { behind ≡ last_or None (before place (members_of (A.image area.old) (entries_chain kind adr))) }
    requires short { length (A.image area.old) ≤ image_limit }
    ensures removed { OnOk result (RemovedAs (A.image area.old) (A.image area.new) kind adr place count greatest) }
    ensures area { Edits A.frame A.faults area.old area.new result }
{
    chain_remove(area, entries_chain(kind, adr), behind, place)?;
    set_count(area, kind, adr, count)?;
    set_greatest(area, kind, adr, greatest)?;
    free_record(area, place)
}

/// Takes the entry at an index of its chain out of an area, and gives the entries that are left.
/// After an error a part of this may have been done.
pub(crate) fn remove_at<A: Area>(
    area: &mut A,
    kind: EntryKind,
    adr: u64,
    entries: EntryChain,
    i: usize,
) -> Result<EntryChain, AreaError>
    requires good { Good (A.image area.old) }
    requires chain { entries.chain ≡ entries_chain kind adr }
    requires known { KnowsEntries (A.image area.old) entries }
    requires within { i < length entries.places }
    requires entry { IsEntryOf (A.image area.old) kind adr (slice_index entries.places i) }
    requires short { length (A.image area.old) ≤ image_limit }
    ensures left { IfOk result (λ left. left ≡ without_at entries i) }
    ensures removed { OnOk result (TakenAt (A.image area.old) (A.image area.new) kind adr entries i) }
    ensures area { Edits A.frame A.faults area.old area.new result }
{
    let mut left = entries;
    let behind = left.places[..i].last().copied();
    let place = left.places.remove(i);
    left.numbers.remove(i);
    let greatest = greatest_number(&left.numbers);
    let count = left.numbers.len() as i32;
    remove_entry(area, kind, adr, behind, place, count, greatest)?;
    Ok(left)
}

impl Attrs {
    /// Deletes an entry of an attribute: the command `del-entry`. After an error a part of this may have been done in the area.
    pub fn del_entry<A: Area>(
        &mut self,
        area: &mut A,
        attr: &[u8],
        kind: EntryKind,
        num: u32,
    ) -> Result<Outcome, AreaError>
        requires good { Good (A.image area.old) }
        requires known { Knows (A.image area.old) self.old }
        requires fits { length (A.image area.old) ≤ (A.frame area.old).limit }
        requires limit { (A.frame area.old).limit ≤ image_limit }
        ensures answers { IfOk result (λ o. Answers (A.frame area.old).limit (A.image area.old) (DelEntry attr.now kind num) o (A.image area.new)) }
        ensures known { OnOk result (Knows (A.image area.new) self.new) }
        ensures stays { OnErr result (Knows (A.image area.old) self.new) }
        ensures refused { IfOk result (λ o. IsTrue (is_refused o) → A.edited area.new ≡ A.edited area.old) }
        ensures area { Edits A.frame A.faults area.old area.new result }
    {
        let (number, chain) = match self.find_chain(area, attr, kind)? {
            Target::Found { number, chain } => (number, chain),
            Target::Refused { reason } => return Ok(Outcome::Refused { reason }),
        };
        let entries = self.take_entries(area, chain)?;
        let Some(i) = entries.find(num) else {
            keep_chain(&mut self.entries, entries);
            return Ok(Outcome::Refused {
                reason: Reason::NoSuchEntry,
            });
        };
        let places = self.places.as_slice();
        let adr = places[number as usize];
        let left = remove_at(area, kind, adr, entries, i)?;
        keep_chain(&mut self.entries, left);
        Ok(Outcome::Done {
            reply: Reply::Plain,
        })
    }
}
