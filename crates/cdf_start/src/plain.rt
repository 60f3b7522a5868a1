//! A run over the store alone.

ghost use Rattle.std.specs.Prelude.{◌≡◌, map, string_bytes, IfSome, None, false, true};
ghost use Rattle.std.specs.Option.{ForSome};
ghost use Rattle.cdf_store.specs.Named.{Allows};
ghost use Rattle.cdf_words.specs.Asking.{ask};
ghost use Rattle.cdf_tool.specs.Due.{calls_store};
ghost use Rattle.cdf_tool.specs.Outlets.{with_taps};
ghost use Rattle.cdf_start.specs.Running.{Ran, device, streams};

use cdf_saving::{Ended, Notes, Status};
use cdf_store::{Sink, Source, Store};
use cdf_tap::Tap;
use cdf_tool::run;
use std::alloc::Global;

/// How a run ended, and the devices that were lent to it.
#[derive(Drop)]
pub struct Started<S, D> {
    pub status: Status,
    pub notes: Notes,
    pub store: S,
    pub disk: D,
}

/// Runs over a store.
pub fn run_over<S: Store, I: Source, O: Sink>(
    alloc: Global,
    words: &[String],
    store: S,
    script: &mut I,
    out: &mut O,
    taps: &mut Vec<Box<dyn Tap>>,
) -> Ended<S>
    requires free { (S.disk store).held ≡ None }
    requires allowed { ForSome (ask (map string_bytes words.now)) (λ asked. Allows (S.disk store).only asked.name) }
    ensures ran { Ran (ask (map string_bytes words.now)) (device (S.disk store) (S.read_faults store) (S.write_faults store) (S.synced store) (S.unstored store)) (device (S.disk result.store) (S.read_faults result.store) (S.write_faults result.store) (S.synced result.store) (S.unstored result.store)) (streams (O.faults out.old) (I.faults script.old)) (streams (O.faults out.new) (I.faults script.new)) (I.left script.old) (I.left script.new) (with_taps (O.written out.old) (map (λ tap. meaning tap) taps.old.items)) (with_taps (O.written out.new) (map (λ tap. meaning tap) taps.new.items)) result.notes result.status }
    ensures unread { IfSome (ask (map string_bytes words.now)) (λ asked. asked.check ≡ true → script.new ≡ script.old) }
    ensures unshown { IfSome (ask (map string_bytes words.now)) (λ asked. asked.check ≡ true → taps.new ≡ taps.old) }
    ensures not_called { calls_store (ask (map string_bytes words.now)) ≡ false → result.store ≡ store }
{
    run(alloc, words, store, script, out, taps)
}
