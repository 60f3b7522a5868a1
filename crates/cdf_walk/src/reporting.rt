//! A report: the taps of a name are shown all events, and say what they make of them.

ghost use Rattle.std.specs.Prelude.{◌≡◌, ◌<◌, ◌^◌, [], ◌∷◌, true, false, map, length, replicate, IfOk, OnOk, OnErr};
ghost use Rattle.std.specs.Io.KnownBytes.{Appends};
ghost use Rattle.std.specs.List.{zip};
ghost use Rattle.cdf_base.specs.Causes.{HasCause, HasCauseOf};
ghost use Rattle.cdf_model.specs.Events.{events_of};
ghost use Rattle.cdf_model.specs.Spots.{rest};
ghost use Rattle.cdf_model.specs.Taps.{left_after, told};
ghost use Rattle.cdf_model.specs.Walks.{all_records};
ghost use Rattle.cdf_store.specs.Written.{AppendsFront};
ghost use Rattle.cdf_tap.specs.Meanings.{kinds_of, others_of, texts_of};
ghost use Rattle.cdf_tap.specs.Reports.{after_all, begun};
ghost use Rattle.cdf_walk.specs.Parts.{Tells};
ghost use Rattle.cdf_walk.specs.Walks.{Stands};

use crate::error::WalkError;
use crate::parts::Parts;
use crate::walk::{Walk, next_event};
use cdf_area::AreaError;
use cdf_store::{Failed, Sink, write_all};
use cdf_tap::{Tap, clear_named, drop_ended, is_named, show};
use std::alloc::{AllocError, Global};

/// So many flags, none of them set.
fn no_flags(alloc: Global, count: usize) -> Result<Vec<bool>, AllocError>
    ensures { IfOk result (λ flags. flags.items ≡ replicate count false) }
{
    let mut flags = Vec::new(alloc);
    flags.resize(count, false)?;
    Ok(flags)
}

/// Shows the next event to the taps of a name, and says whether there was one.
fn show_next<P: Parts>(
    parts: &mut P,
    walk: &mut Walk,
    taps: &mut Vec<Box<dyn Tap>>,
    name: &[u8],
    ended: &mut [bool],
) -> Result<bool, AreaError>
    requires stands { Stands (P.told parts.old) walk.old }
    requires few { all_records (P.told parts.old) < 2 ^ 64 }
    requires flags { length ended.old ≡ length taps.old.items }
    ensures same { OnOk result (after_all name.now (rest (P.told parts.old) walk.new.spot) (zip (map (λ tap. meaning tap) taps.new.items) ended.new)
        ≡ after_all name.now (rest (P.told parts.old) walk.old.spot) (zip (map (λ tap. meaning tap) taps.old.items) ended.old)) }
    ensures goes { IfOk result (λ more. more ≡ true → length (rest (P.told parts.old) walk.new.spot) < length (rest (P.told parts.old) walk.old.spot)) }
    ensures over { IfOk result (λ more. more ≡ false → rest (P.told parts.old) walk.new.spot ≡ []) }
    ensures stands { Stands (P.told parts.new) walk.new }
    ensures count { length taps.new.items ≡ length taps.old.items }
    ensures flags { length ended.new ≡ length ended.old }
    ensures kinds { kinds_of (map (λ tap. meaning tap) taps.new.items) ≡ kinds_of (map (λ tap. meaning tap) taps.old.items) }
    ensures others { others_of name.now (map (λ tap. meaning tap) taps.new.items) ≡ others_of name.now (map (λ tap. meaning tap) taps.old.items) }
    ensures parts { Tells P.told P.under P.faults parts.old parts.new result }
{
    let Some(event) = next_event(parts, walk)? else {
        return Ok(false);
    };
    show(taps, name, ended, &event)?;
    Ok(true)
}

/// Shows all events to the taps of a name, in one walk, and says which taps came to their end.
fn show_all<P: Parts>(
    alloc: Global,
    parts: &mut P,
    name: &[u8],
    taps: &mut Vec<Box<dyn Tap>>,
) -> Result<Vec<bool>, AreaError>
    requires few { all_records (P.told parts.old) < 2 ^ 64 }
    ensures all { IfOk result (λ ended. zip (map (λ tap. meaning tap) taps.new.items) ended.items
        ≡ after_all name.now (events_of (P.told parts.old)) (begun name.now (map (λ tap. meaning tap) taps.old.items))) }
    ensures count { IfOk result (λ ended. length ended.items ≡ length taps.new.items) }
    ensures kinds { kinds_of (map (λ tap. meaning tap) taps.new.items) ≡ kinds_of (map (λ tap. meaning tap) taps.old.items) }
    ensures others { others_of name.now (map (λ tap. meaning tap) taps.new.items) ≡ others_of name.now (map (λ tap. meaning tap) taps.old.items) }
    ensures parts { Tells P.told P.under P.faults parts.old parts.new result }
{
    let mut ended = no_flags(alloc, taps.len())?;
    clear_named(taps, name);
    let mut walk = Walk::new();
    let mut going = true;
    while going {
        going = show_next(parts, &mut walk, taps, name, &mut ended)?;
    }
    Ok(ended)
}

/// Writes the text of a tap if it has a name.
fn write_text<O: Sink>(tap: &Box<dyn Tap>, name: &[u8], out: &mut O) -> Result<(), Failed>
    ensures all { OnOk result (Appends (O.written out.old) (O.written out.new) (texts_of name.now (meaning tap.now ∷ []))) }
    ensures part { OnErr result (AppendsFront (O.written out.old) (O.written out.new) (texts_of name.now (meaning tap.now ∷ []))) }
    ensures cause { HasCause (O.faults out.old) (O.faults out.new) result }
{
    if !is_named(tap, name) {
        return Ok(());
    }
    write_all(out, tap.text())
}

/// Writes the texts of the taps of a name, one behind the other.
fn write_texts<O: Sink>(taps: &[Box<dyn Tap>], name: &[u8], out: &mut O) -> Result<(), Failed>
    ensures all { OnOk result (Appends (O.written out.old) (O.written out.new) (texts_of name.now (map (λ tap. meaning tap) taps.now))) }
    ensures part { OnErr result (AppendsFront (O.written out.old) (O.written out.new) (texts_of name.now (map (λ tap. meaning tap) taps.now))) }
    ensures cause { HasCause (O.faults out.old) (O.faults out.new) result }
{
    for tap in taps {
        write_text(tap, name, out)?;
    }
    Ok(())
}

/// Shows the events of a data set to the taps of a name, in one walk and each until it comes to its end, writes their texts, and drops
/// those that came to their end. After an error a part of the texts was written, from the front, and no tap is dropped.
pub fn report<P: Parts, O: Sink>(
    alloc: Global,
    parts: &mut P,
    name: &[u8],
    taps: &mut Vec<Box<dyn Tap>>,
    out: &mut O,
) -> Result<(), WalkError>
    requires few { all_records (P.told parts.old) < 2 ^ 64 }
    ensures all { OnOk result (Appends (O.written out.old) (O.written out.new) (told (kinds_of (map (λ tap. meaning tap) taps.old.items)) name.now (P.told parts.old))) }
    ensures left { OnOk result (kinds_of (map (λ tap. meaning tap) taps.new.items) ≡ left_after (kinds_of (map (λ tap. meaning tap) taps.old.items)) name.now (P.told parts.old)) }
    ensures part { OnErr result (AppendsFront (O.written out.old) (O.written out.new) (told (kinds_of (map (λ tap. meaning tap) taps.old.items)) name.now (P.told parts.old))) }
    ensures kept { OnErr result (kinds_of (map (λ tap. meaning tap) taps.new.items) ≡ kinds_of (map (λ tap. meaning tap) taps.old.items)) }
    ensures others { others_of name.now (map (λ tap. meaning tap) taps.new.items) ≡ others_of name.now (map (λ tap. meaning tap) taps.old.items) }
    ensures stays { P.told parts.new ≡ P.told parts.old }
    ensures under { P.under parts.new ≡ P.under parts.old }
    ensures cause { HasCauseOf WalkError.Fault (P.faults parts.old) (P.faults parts.new) result }
    ensures sink { HasCauseOf WalkError.SinkFault (O.faults out.old) (O.faults out.new) result }
{
    let ended = match show_all(alloc, parts, name, taps) {
        Ok(ended) => ended,
        Err(AreaError::Fault) => return Err(WalkError::Fault),
        Err(AreaError::NoMemory) => return Err(WalkError::NoMemory),
    };
    match write_texts(taps, name, out) {
        Ok(()) => {
            drop_ended(taps, &ended);
            Ok(())
        }
        Err(Failed) => Err(WalkError::SinkFault),
    }
}
