//! The entries of a variable that goes: each leaves its attribute, and later entries for variables of its kind get numbers less by one.

ghost use Rattle.std.specs.Prelude.{◌≡◌, ◌<◌, ◌≤◌, length, map, All, Contains, IfOk, IfSome, IsNone, OnErr, OnOk, false, true};
ghost use Rattle.cdf_area.specs.Calls.{Edits};
ghost use Rattle.cdf_attrs.specs.Numbering.{AllLie, write_of};
ghost use Rattle.cdf_attrs.specs.Dropping.{DropsFrom, DropsNumber, IsScoped, KeepsAttributes, Lowers, lower_writes};
ghost use Rattle.cdf_attrs.specs.Known.{Knows, KnowsEntries};
ghost use Rattle.cdf_edits.specs.Commands.EntryChains.{kind_of_entries, max_field};
ghost use Rattle.cdf_edits.specs.Edits.DropsEntries.{DropsEntries};
ghost use Rattle.cdf_edits.specs.Edits.EntryMarks.{entries_chain};
ghost use Rattle.cdf_format.specs.Content.{scope_of};
ghost use Rattle.cdf_format.specs.Fields.{LiesIn, number};
ghost use Rattle.cdf_format.specs.Records.{adr_scope};
ghost use Rattle.cdf_format.specs.Shape.{adrs, shape};
ghost use Rattle.cdf_format.specs.Tiles.{In};
ghost use Rattle.cdf_model.specs.AttributeSteps.{is_global};
ghost use Rattle.cdf_model.specs.Names.{Found};
ghost use Rattle.cdf_format.specs.WellFormed.{Good};
ghost use Rattle.cdf_model.specs.Limits.{image_limit, signed_limit};

use crate::attrs::Attrs;
use crate::chain_fields::{entries_chain, set_greatest};
use crate::entry_chain::EntryChain;
use crate::finding::is_global;
use crate::greatest::greatest;
use crate::numbering::{Numbered, set_numbers};
use crate::reading::read_scope;
use crate::removing::remove_at;
use cdf_area::{Area, AreaError};
use cdf_format::fields::AEDR_NUM;
use cdf_model::{EntryKind, Kind};
use std::alloc::{AllocError, Global};

/// The kind of the entries for variables of a kind.
fn entries_of(kind: Kind) -> EntryKind
    ensures { result ≡ kind_of_entries kind }
{
    match kind {
        Kind::R => EntryKind::R,
        Kind::Z => EntryKind::Z,
    }
}

/// Takes the entry of a number out of a chain, where there is one, and gives the entries that are left.
/// After an error a part of this may have been done.
fn drop_number<A: Area>(
    area: &mut A,
    kind: EntryKind,
    adr: u64,
    entries: EntryChain,
    num: u32,
) -> Result<EntryChain, AreaError>
    requires good { Good (A.image area.old) }
    requires attribute { IsScoped (A.image area.old) kind adr }
    requires chain { entries.chain ≡ entries_chain kind adr }
    requires known { KnowsEntries (A.image area.old) entries }
    requires short { length (A.image area.old) ≤ image_limit }
    ensures drops { IfOk result (DropsNumber (A.image area.old) (A.image area.new) kind adr entries num) }
    ensures good { OnOk result (Good (A.image area.new)) }
    ensures left { IfOk result (KnowsEntries (A.image area.new)) }
    ensures area { Edits A.frame A.faults area.old area.new result }
{
    let Some(i) = entries.find(num) else {
        return Ok(entries);
    };
    remove_at(area, kind, adr, entries, i)
}

/// What the entries of a chain have to say whose numbers are greater than one: numbers less by one.
fn lower_numbers(alloc: Global, entries: &EntryChain, num: u32) -> Result<Vec<Numbered>, AllocError>
    requires { length entries.now.numbers ≡ length entries.now.places }
    ensures { IfOk result (λ lower. map write_of lower.items ≡ lower_writes num entries.now.numbers entries.now.places) }
{
    let mut lower = Vec::new(alloc);
    let places = entries.places.as_slice();
    for (i, number) in entries.numbers.iter().enumerate() {
        if *number > num {
            lower.push(Numbered {
                at: places[i],
                field: AEDR_NUM,
                number: *number - 1,
            })?;
        }
    }
    Ok(lower)
}

/// The greatest of some numbers, if it is greater than one.
fn greatest_above(numbers: &[u32], num: u32) -> Option<u32>
    ensures none { IsNone result → All (λ n. n ≤ num) numbers.now }
    ensures above { IfSome result (λ most. num < most) }
    ensures member { IfSome result (Contains numbers.now) }
    ensures greatest { IfSome result (λ most. All (λ n. n ≤ most) numbers.now) }
{
    let most = greatest(numbers)?;
    if most > num { Some(most) } else { None }
}

/// Gives the entries of a chain whose numbers are greater than one numbers less by one, and writes the greatest number of the chain
/// where there are such. After an error a part of this may have been done.
fn lower_entries<A: Area>(
    alloc: Global,
    area: &mut A,
    kind: EntryKind,
    adr: u64,
    entries: &EntryChain,
    num: u32,
) -> Result<(), AreaError>
    requires long { length entries.now.numbers ≡ length entries.now.places }
    requires small { All (λ n. n ≤ signed_limit) entries.now.numbers }
    requires lie { AllLie (A.image area.old) (lower_writes num entries.now.numbers entries.now.places) }
    requires field { LiesIn (A.image area.old) adr (max_field kind) }
    ensures lowers { OnOk result (Lowers (A.image area.old) (A.image area.new) kind adr entries.now num) }
    ensures area { Edits A.frame A.faults area.old area.new result }
{
    let Some(greatest) = greatest_above(&entries.numbers, num) else {
        return Ok(());
    };
    let lower = lower_numbers(alloc, entries, num)?;
    set_numbers(area, &lower)?;
    set_greatest(area, kind, adr, (greatest - 1) as i32)
}

/// Takes the entry for a variable out of one attribute, if that is of variables, and gives later entries for variables of its kind
/// numbers less by one. After an error a part of this may have been done.
#[tactic(auto, using(crate::proofs::DroppedChains::keeps_same))]
fn drop_from<A: Area>(
    alloc: Global,
    area: &mut A,
    adr: u64,
    kind: Kind,
    num: u32,
) -> Result<(), AreaError>
    requires good { Good (A.image area.old) }
    requires adr { In adr (adrs (shape (A.image area.old))) }
    requires short { length (A.image area.old) ≤ image_limit }
    ensures global { OnOk result (is_global (scope_of (number (A.image area.old) adr adr_scope)) ≡ true → A.image area.new ≡ A.image area.old) }
    ensures dropped { OnOk result (is_global (scope_of (number (A.image area.old) adr adr_scope)) ≡ false → DropsFrom (A.image area.old) (A.image area.new) (kind_of_entries kind) adr num) }
    ensures good { OnOk result (Good (A.image area.new)) }
    ensures keeps { OnOk result (KeepsAttributes (A.image area.old) (A.image area.new)) }
    ensures area { Edits A.frame A.faults area.old area.new result }
{
    let scope = read_scope(area, adr)?;
    if is_global(scope) {
        return Ok(());
    }
    let kind = entries_of(kind);
    let entries = EntryChain::load(alloc, area, entries_chain(kind, adr))?;
    let left = drop_number(area, kind, adr, entries, num)?;
    lower_entries(alloc, area, kind, adr, &left, num)
}

impl Attrs {
    /// Takes the entries for a variable out of all attributes of variables; later entries for variables of its kind get numbers less
    /// by one. After an error a part of this may have been done in the area.
    pub fn drop_var<A: Area>(&mut self, area: &mut A, kind: Kind, num: u32) -> Result<(), AreaError>
        requires good { Good (A.image area.old) }
        requires known { Knows (A.image area.old) self.old }
        requires short { length (A.image area.old) ≤ image_limit }
        ensures dropped { OnOk result ((found : Found) → found.kind ≡ kind → found.number ≡ num → DropsEntries (A.image area.old) found (A.image area.new)) }
        ensures known { OnOk result (Knows (A.image area.new) self.new) }
        ensures stays { Knows (A.image area.old) self.new }
        ensures area { Edits A.frame A.faults area.old area.new result }
    {
        self.entries.clear();
        self.order = None;
        for adr in &self.places {
            drop_from(self.alloc, area, *adr, kind, num)?;
        }
        Ok(())
    }
}
