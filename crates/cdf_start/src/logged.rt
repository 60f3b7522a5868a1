//! A run over a file and its log.

ghost use Rattle.std.specs.Prelude.{◌≡◌, ◌⊎◌, map, string_bytes, Some, true};
ghost use Rattle.cdf_words.specs.Asking.{ask, asked_for};
ghost use Rattle.cdf_tool.specs.Outlets.{with_taps};
ghost use Rattle.cdf_start.specs.Running.{streams};
ghost use Rattle.cdf_start.specs.Starting.{Journalled, Unopened};

use crate::plain::{Started, run_over};
use crate::refused::say_refused;
use crate::saved::save_ended;
use cdf_journal::{Disk, JournalStore};
use cdf_saving::{Ended, Notes};
use cdf_store::{Sink, Source};
use cdf_tap::Tap;
use cdf_words::Asked;
use std::alloc::Global;

/// Runs over a file and its log, and saves through it. The store is not called.
pub fn run_logged<S, D: Disk, I: Source, O: Sink>(
    alloc: Global,
    asked: &Asked<'_>,
    words: &[String],
    store: S,
    disk: D,
    script: &mut I,
    out: &mut O,
    taps: &mut Vec<Box<dyn Tap>>,
) -> Started<S, D>
    requires { ask (map string_bytes words.now) ≡ Some (asked_for asked.now) }
    ensures ends { Unopened D.seen D.there D.may_leave D.moment D.left_since D.faults (asked_for asked.now) disk result.disk (I.left script.old) (I.left script.new) (with_taps (O.written out.old) (map (λ tap. meaning tap) taps.old.items)) (with_taps (O.written out.new) (map (λ tap. meaning tap) taps.new.items)) result.status
        ⊎ Journalled D.seen D.there D.may_leave D.moment D.left_since D.faults (asked_for asked.now) disk result.disk (streams (O.faults out.old) (I.faults script.old)) (streams (O.faults out.new) (I.faults script.new)) (I.left script.old) (I.left script.new) (with_taps (O.written out.old) (map (λ tap. meaning tap) taps.old.items)) (with_taps (O.written out.new) (map (λ tap. meaning tap) taps.new.items)) result.notes result.status }
    ensures unread { asked.now.check ≡ true → script.new ≡ script.old }
    ensures unshown { asked.now.check ≡ true → taps.new ≡ taps.old }
    ensures store { result.store ≡ store }
{
    match JournalStore::open(alloc, disk, asked.name, asked.new) {
        Ok(journal) => {
            let Ended {
                status: ran,
                notes,
                store: mut journal,
            } = run_over(alloc, words, journal, script, out, taps);
            let status = save_ended(ran, &mut journal);
            Started {
                status,
                notes,
                store,
                disk: journal.into_disk(),
            }
        }
        Err(refusal) => Started {
            status: say_refused(refusal.why, out),
            notes: Notes::none(),
            store,
            disk: refusal.disk,
        },
    }
}
