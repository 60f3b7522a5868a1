//! Texts are gathered, and written some at a time.

use cdf_store::{Failed, Sink, write_all};
use std::alloc::Global;
use std::marker::Model;

/// The most bytes that are gathered.
const MOST: usize = 65_536;

/// Texts that are gathered and not yet written, 65,536 bytes of them at most.
#[derive(Drop)]
pub struct Gathered {
    text: Vec<u8>,
}

impl Model for Gathered {
    ghost use Rattle.std.specs.Prelude.{◌≤◌, ℕ, List, length};

    ghost Value = { List ℕ };

    ghost view = { λ gathered. gathered.text.items };

    ghost invariant = { λ gathered. length gathered.text.items ≤ 65536 };
}

impl Gathered {
    ghost use Rattle.std.specs.Prelude.{◌≡◌, ◌++◌, [], true, false, OnOk, OnErr};
    ghost use Rattle.std.specs.Io.KnownBytes.{Appends};
    ghost use Rattle.cdf_base.specs.Causes.{HasCause};
    ghost use Rattle.cdf_store.specs.Written.{AppendsFront};
    ghost use Rattle.cdf_walk.specs.Gathering.{Gathers};

    pub fn new(alloc: Global) -> Self
        ensures { result ≡ [] }
    {
        Gathered {
            text: Vec::new(alloc),
        }
    }

    /// Writes what was gathered.
    pub fn write<O: Sink>(&mut self, out: &mut O) -> Result<(), Failed>
        ensures all { OnOk result (Appends (O.written out.old) (O.written out.new) self.old) }
        ensures none_left { OnOk result (self.new ≡ []) }
        ensures part { OnErr result (AppendsFront (O.written out.old) (O.written out.new) self.old) }
        ensures cause { HasCause (O.faults out.old) (O.faults out.new) result }
    {
        write_all(out, &self.text)?;
        self.text.clear();
        Ok(())
    }

    /// Gathers a text where there is room and memory for it, and says whether it was gathered.
    fn gather(&mut self, text: &[u8]) -> bool
        ensures gathered { result ≡ true → self.new ≡ self.old ++ text.now }
        ensures stays { result ≡ false → self.new ≡ self.old }
    {
        if text.len() > MOST - self.text.len() {
            return false;
        }
        self.text.extend_from_slice(text).is_ok()
    }

    /// Takes a text. What was gathered is written before it passes 65,536 bytes; a text that is longer by itself, or for which there is
    /// no memory, is written and not gathered.
    pub fn add<O: Sink>(&mut self, text: &[u8], out: &mut O) -> Result<(), Failed>
        ensures all { OnOk result (Gathers (O.written out.old) (self.old ++ text.now) (O.written out.new) self.new) }
        ensures part { OnErr result (AppendsFront (O.written out.old) (O.written out.new) (self.old ++ text.now)) }
        ensures cause { HasCause (O.faults out.old) (O.faults out.new) result }
    {
        if self.gather(text) {
            return Ok(());
        }
        self.write(out)?;
        if self.gather(text) {
            return Ok(());
        }
        write_all(out, text)
    }
}
