//! Writing a whole text to a sink.

ghost use Rattle.std.specs.Prelude.{OnOk, OnErr};
ghost use Rattle.std.specs.Io.KnownBytes.{Appends};
ghost use Rattle.cdf_base.specs.Causes.{HasCause};
ghost use Rattle.cdf_store.specs.Written.{AppendsFront};

use crate::{Failed, Sink};

/// Writes a text whole. After a fault a part of it, from the front, was written.
pub fn write_all<O: Sink>(out: &mut O, text: &[u8]) -> Result<(), Failed>
    ensures all { OnOk result (Appends (O.written out.old) (O.written out.new) text.now) }
    ensures part { OnErr result (AppendsFront (O.written out.old) (O.written out.new) text.now) }
    ensures cause { HasCause (O.faults out.old) (O.faults out.new) result }
{
    let mut done = 0;
    while done < text.len() {
        let count = out.write(&text[done..])?;
        done += count;
    }
    Ok(())
}
