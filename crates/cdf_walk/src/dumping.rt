//! All events, written as they come.

ghost use Rattle.std.specs.Prelude.{◌≡◌, ◌++◌, ◌<◌, ◌^◌, ℕ, OnOk, OnErr};
ghost use Rattle.std.specs.Io.KnownBytes.{Appends};
ghost use Rattle.std.specs.List.{All};
ghost use Rattle.cdf_base.specs.Causes.{HasCauseOf};
ghost use Rattle.cdf_model.specs.Events.{events_of};
ghost use Rattle.cdf_model.specs.EventTexts.{dump_text, event_line};
ghost use Rattle.cdf_model.specs.Walks.{all_records};
ghost use Rattle.cdf_model.specs.Whole.{CanBeShown};
ghost use Rattle.cdf_store.specs.Written.{AppendsFront};
ghost use Rattle.cdf_walk.specs.Gathering.{Gathers};

use crate::error::WalkError;
use crate::gathered::Gathered;
use crate::parts::Parts;
use crate::walk::{Walk, next_event};
use cdf_dump::append_event;
use cdf_model::Event;
use cdf_store::Sink;
use std::alloc::{AllocError, Global};

/// The line of an event, in place of the one before.
fn write_line(alloc: Global, event: &Event, line: &mut Vec<u8>) -> Result<(), AllocError>
    requires { CanBeShown event.now }
    ensures { OnOk result (line.new.items ≡ event_line event.now) }
{
    line.clear();
    append_event(alloc, event, line)?;
    line.push(b'\n')?;
    Ok(())
}

/// Gathers the line of an event.
fn gather_line<O: Sink>(
    alloc: Global,
    event: Event,
    line: &mut Vec<u8>,
    gathered: &mut Gathered,
    out: &mut O,
) -> Result<(), WalkError>
    requires { CanBeShown event }
    ensures all { OnOk result (Gathers (O.written out.old) (gathered.old ++ event_line event) (O.written out.new) gathered.new) }
    ensures part { OnErr result (AppendsFront (O.written out.old) (O.written out.new) (gathered.old ++ event_line event)) }
    ensures cause { (parts : ℕ) → HasCauseOf WalkError.Fault parts parts result }
    ensures sink { HasCauseOf WalkError.SinkFault (O.faults out.old) (O.faults out.new) result }
{
    write_line(alloc, &event, line)?;
    gathered.add(line, out)?;
    Ok(())
}

/// Writes all events of a data set, each on a line of its own. After an error a part was written, from the front.
pub fn dump<P: Parts, O: Sink>(alloc: Global, parts: &mut P, out: &mut O) -> Result<(), WalkError>
    requires few { all_records (P.told parts.old) < 2 ^ 64 }
    requires shown { All CanBeShown (events_of (P.told parts.old)) }
    ensures all { OnOk result (Appends (O.written out.old) (O.written out.new) (dump_text (P.told parts.old))) }
    ensures part { OnErr result (AppendsFront (O.written out.old) (O.written out.new) (dump_text (P.told parts.old))) }
    ensures stays { P.told parts.new ≡ P.told parts.old }
    ensures under { P.under parts.new ≡ P.under parts.old }
    ensures cause { HasCauseOf WalkError.Fault (P.faults parts.old) (P.faults parts.new) result }
    ensures sink { HasCauseOf WalkError.SinkFault (O.faults out.old) (O.faults out.new) result }
{
    let mut walk = Walk::new();
    let mut line = Vec::new(alloc);
    let mut gathered = Gathered::new(alloc);
    while let Some(event) = next_event(parts, &mut walk)? {
        gather_line(alloc, event, &mut line, &mut gathered, out)?;
    }
    gathered.write(out)?;
    Ok(())
}
