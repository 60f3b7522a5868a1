//! A tap that looks for a z variable without a VAR_TYPE.

ghost use Rattle.std.specs.Prelude.{◌≡◌, ◌↔◌, ◌∷◌, ◌++◌, [], ◌==◌, ℕ, List, true, false, codes, bytes_eq, if◌then◌else◌, IfOk, OnOk, OnErr};
ghost use Rattle.std.specs.List.{list_any};
ghost use Rattle.cdf_model.specs.ShippedTaps.{inside, is_lacking, lacking, looked, outside};
ghost use Rattle.cdf_tap.specs.Lacking.{is_inside, state_of};

use crate::lacking::{Found, Lacking};
use crate::{Go, Tap};
use cdf_model::{EntryKind, Event, Kind};
use cdf_values::quoted_text;
use std::alloc::{AllocError, Global};

/// Looks for the first z variable for which the attribute VAR_TYPE has no z entry, and comes to its end there.
#[derive(Drop)]
pub struct NeedsVarType {
    alloc: Global,
    /// The numbers of the z entries of VAR_TYPE so far.
    known: Vec<u32>,
    found: Found,
}

impl NeedsVarType {
    ghost use Rattle.std.specs.Prelude.{◌≡◌, IfOk};
    ghost use Rattle.cdf_model.specs.ShippedTaps.{needs_var_type};
    ghost use Rattle.cdf_tap.specs.Meanings.{fresh};

    /// A tap that has seen nothing.
    pub fn new(alloc: Global) -> Result<Self, AllocError>
        ensures { IfOk result (λ tap. ⟦<NeedsVarType as Tap>⟧.meaning tap ≡ fresh needs_var_type) }
    {
        Ok(NeedsVarType {
            alloc,
            known: Vec::new(alloc),
            found: Found::Outside,
        })
    }
}

impl Tap for NeedsVarType {
    ghost use Rattle.cdf_model.specs.ShippedTaps.{needs_var_type};
    ghost use Rattle.cdf_tap.specs.Lacking.{state_of};

    ghost meaning = { λ it. record { own = needs_var_type; state = state_of it.found it.known.items } };

    fn name(&self) -> &[u8] {
        b"vartype"
    }

    fn clear(&mut self) {
        self.known.clear();
        self.found = Found::Outside;
    }

    fn on(&mut self, event: &Event) -> Result<Go, AllocError> {
        if let Found::Lacking(_) = &self.found {
            return Ok(Go::Done);
        }
        look(self.alloc, &mut self.known, &mut self.found, event)
    }

    fn text(&self) -> &[u8] {
        match &self.found {
            Found::Inside | Found::Outside => b"all zvars have VAR_TYPE\n",
            Found::Lacking(variable) => &variable.text,
        }
    }
}

/// The attribute of this name is shown.
fn found_at(name: &[u8]) -> Found
    ensures { (known : List ℕ) → state_of result known ≡ (if bytes_eq name.now (codes "VAR_TYPE") then inside else outside) ∷ known }
{
    if name == b"VAR_TYPE".as_slice() {
        Found::Inside
    } else {
        Found::Outside
    }
}

/// The variable of this name has no VAR_TYPE.
fn lacking_at(alloc: Global, name: &[u8]) -> Result<Lacking, AllocError>
    ensures { IfOk result (λ variable. variable.name.items ≡ name.now) }
{
    let mut text = Vec::from_slice(alloc, b"missing VAR_TYPE ")?;
    text.extend_from_slice(&quoted_text(alloc, name)?)?;
    text.push(b'\n')?;
    Ok(Lacking {
        name: Vec::from_slice(alloc, name)?,
        text,
    })
}

/// A z entry of the attribute shown last is shown.
fn see_entry(known: &mut Vec<u32>, found: &Found, num: u32) -> Result<(), AllocError>
    ensures known { OnOk result (known.new.items ≡ (if is_inside found.now then known.old.items ++ num ∷ [] else known.old.items)) }
    ensures stays { OnErr result (known.new.items ≡ known.old.items) }
{
    if matches!(found, Found::Inside) {
        known.push(num)?;
    }
    Ok(())
}

/// A z variable is shown.
fn see_variable(
    alloc: Global,
    known: &[u32],
    found: &mut Found,
    num: u32,
    name: &[u8],
) -> Result<Go, AllocError>
    requires { is_lacking (state_of found.old known.now) ≡ false }
    ensures state { OnOk result (state_of found.new known.now ≡ (if list_any (λ k. k == num) known.now then state_of found.old known.now else lacking ∷ name.now)) }
    ensures done { IfOk result (λ go. (go ≡ Go.Done) ↔ (is_lacking (state_of found.new known.now) ≡ true)) }
    ensures stays { OnErr result (found.new ≡ found.old) }
{
    if known.contains(&num) {
        return Ok(Go::More);
    }
    *found = Found::Lacking(lacking_at(alloc, name)?);
    Ok(Go::Done)
}

/// Looks at an event, where no variable was found so far.
#[tactic(auto, using(crate::proofs::Looked::looked_variable, crate::proofs::Looked::looked_entry))]
fn look(
    alloc: Global,
    known: &mut Vec<u32>,
    found: &mut Found,
    event: &Event,
) -> Result<Go, AllocError>
    requires { is_lacking (state_of found.old known.old.items) ≡ false }
    ensures state { OnOk result (state_of found.new known.new.items ≡ looked (state_of found.old known.old.items) event.now) }
    ensures done { IfOk result (λ go. (go ≡ Go.Done) ↔ (is_lacking (state_of found.new known.new.items) ≡ true)) }
    ensures stays { OnErr result (state_of found.new known.new.items ≡ state_of found.old known.old.items) }
{
    match event {
        Event::Attr { name, .. } => {
            *found = found_at(name.as_slice());
            Ok(Go::More)
        }
        Event::Entry {
            kind: EntryKind::Z,
            num,
            ..
        } => {
            see_entry(known, found, *num)?;
            Ok(Go::More)
        }
        Event::Var {
            kind: Kind::Z,
            num,
            name,
            ..
        } => see_variable(alloc, known, found, *num, name.as_slice()),
        _ => Ok(Go::More),
    }
}
