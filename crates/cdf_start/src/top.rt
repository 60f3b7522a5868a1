//! The top call: `start`.

ghost use Rattle.std.specs.Prelude.{◌≡◌, ◌⊎◌, map, string_bytes, None, Some, IfSome, IsSome, false, true};
ghost use Rattle.cdf_words.specs.Asking.{ask};
ghost use Rattle.cdf_tool.specs.Due.{calls_store};
ghost use Rattle.cdf_tool.specs.Outlets.{with_taps};
ghost use Rattle.cdf_start.specs.Running.{Ran, device, streams};
ghost use Rattle.cdf_start.specs.Starting.{Journalled, Unopened};
ghost use Rattle.cdf_start.specs.Words.{behind_journal, journal_asked, needing, run_words};

use crate::logged::run_logged;
use crate::plain::{Started, run_over};
use crate::words::{behind_journal, is_in_memory};
use cdf_journal::Disk;
use cdf_saving::{Ended, Notes, Status};
use cdf_store::{Sink, Source, Store};
use cdf_tap::Tap;
use cdf_words::{WordsError, read_words};
use std::alloc::Global;

/// Runs over the store, which is not asked for where the words name no file, or one that is not needed.
fn run_plain<S: Store, D: Disk, I: Source, O: Sink>(
    alloc: Global,
    words: &[String],
    store: S,
    disk: D,
    script: &mut I,
    out: &mut O,
    taps: &mut Vec<Box<dyn Tap>>,
) -> Started<S, D>
    requires free { (S.disk store).held ≡ None }
    requires only { (S.disk store).only ≡ None }
    ensures ran { Ran (ask (map string_bytes words.now)) (device (S.disk store) (S.read_faults store) (S.write_faults store) (S.synced store) (S.unstored store)) (device (S.disk result.store) (S.read_faults result.store) (S.write_faults result.store) (S.synced result.store) (S.unstored result.store)) (streams (O.faults out.old) (I.faults script.old)) (streams (O.faults out.new) (I.faults script.new)) (I.left script.old) (I.left script.new) (with_taps (O.written out.old) (map (λ tap. meaning tap) taps.old.items)) (with_taps (O.written out.new) (map (λ tap. meaning tap) taps.new.items)) result.notes result.status }
    ensures disk { result.disk ≡ disk }
    ensures unread { IfSome (ask (map string_bytes words.now)) (λ asked. asked.check ≡ true → script.new ≡ script.old) }
    ensures unshown { IfSome (ask (map string_bytes words.now)) (λ asked. asked.check ≡ true → taps.new ≡ taps.old) }
    ensures not_called { calls_store (ask (map string_bytes words.now)) ≡ false → result.store ≡ store }
{
    let Ended {
        status,
        notes,
        store,
    } = run_over(alloc, words, store, script, out, taps);
    Started {
        status,
        notes,
        store,
        disk,
    }
}

/// Runs the words behind the one that asks for a log: over the file and its log, where the run needs a file, and else over the store,
/// which is not called.
fn start_journalled<S: Store, D: Disk, I: Source, O: Sink>(
    alloc: Global,
    words: &[String],
    store: S,
    disk: D,
    script: &mut I,
    out: &mut O,
    taps: &mut Vec<Box<dyn Tap>>,
) -> Started<S, D>
    requires free { (S.disk store).held ≡ None }
    requires only { (S.disk store).only ≡ None }
    ensures plain { needing (ask (map string_bytes words.now)) ≡ None → Ran (ask (map string_bytes words.now)) (device (S.disk store) (S.read_faults store) (S.write_faults store) (S.synced store) (S.unstored store)) (device (S.disk result.store) (S.read_faults result.store) (S.write_faults result.store) (S.synced result.store) (S.unstored result.store)) (streams (O.faults out.old) (I.faults script.old)) (streams (O.faults out.new) (I.faults script.new)) (I.left script.old) (I.left script.new) (with_taps (O.written out.old) (map (λ tap. meaning tap) taps.old.items)) (with_taps (O.written out.new) (map (λ tap. meaning tap) taps.new.items)) result.notes result.status }
    ensures disk { needing (ask (map string_bytes words.now)) ≡ None → result.disk ≡ disk }
    ensures journalled { IfSome (needing (ask (map string_bytes words.now))) (λ asked.
        Unopened D.seen D.there D.may_leave D.moment D.left_since D.faults asked disk result.disk (I.left script.old) (I.left script.new) (with_taps (O.written out.old) (map (λ tap. meaning tap) taps.old.items)) (with_taps (O.written out.new) (map (λ tap. meaning tap) taps.new.items)) result.status
        ⊎ Journalled D.seen D.there D.may_leave D.moment D.left_since D.faults asked disk result.disk (streams (O.faults out.old) (I.faults script.old)) (streams (O.faults out.new) (I.faults script.new)) (I.left script.old) (I.left script.new) (with_taps (O.written out.old) (map (λ tap. meaning tap) taps.old.items)) (with_taps (O.written out.new) (map (λ tap. meaning tap) taps.new.items)) result.notes result.status) }
    ensures unread { IfSome (ask (map string_bytes words.now)) (λ asked. asked.check ≡ true → script.new ≡ script.old) }
    ensures unshown { IfSome (ask (map string_bytes words.now)) (λ asked. asked.check ≡ true → taps.new ≡ taps.old) }
    ensures store { result.store ≡ store }
{
    match read_words(alloc, words) {
        Ok(asked) => {
            if is_in_memory(&asked) {
                run_plain(alloc, words, store, disk, script, out, taps)
            } else {
                run_logged(alloc, &asked, words, store, disk, script, out, taps)
            }
        }
        Err(WordsError::Usage) => run_plain(alloc, words, store, disk, script, out, taps),
        Err(WordsError::NoMemory) => Started {
            status: Status::NoMemory,
            notes: Notes::none(),
            store,
            disk,
        },
    }
}

/// Runs the program over the words of its command line, without the program's own name. Where the first word asks for a log, the run goes
/// over the file on the disk and its log, and saves through it; else it goes over the store. The store and the disk come back.
pub fn start<S: Store, D: Disk, I: Source, O: Sink>(
    alloc: Global,
    words: &[String],
    store: S,
    disk: D,
    script: &mut I,
    out: &mut O,
    taps: &mut Vec<Box<dyn Tap>>,
) -> Started<S, D>
    requires free { (S.disk store).held ≡ None }
    requires only { (S.disk store).only ≡ None }

    // Without a log, and where the run needs no file, it is the run over the store, and the disk is not called.
    ensures plain { journal_asked (map string_bytes words.now) ≡ None → Ran (ask (run_words (map string_bytes words.now))) (device (S.disk store) (S.read_faults store) (S.write_faults store) (S.synced store) (S.unstored store)) (device (S.disk result.store) (S.read_faults result.store) (S.write_faults result.store) (S.synced result.store) (S.unstored result.store)) (streams (O.faults out.old) (I.faults script.old)) (streams (O.faults out.new) (I.faults script.new)) (I.left script.old) (I.left script.new) (with_taps (O.written out.old) (map (λ tap. meaning tap) taps.old.items)) (with_taps (O.written out.new) (map (λ tap. meaning tap) taps.new.items)) result.notes result.status }
    ensures not_called { calls_store (ask (run_words (map string_bytes words.now))) ≡ false → result.store ≡ store }
    ensures disk { journal_asked (map string_bytes words.now) ≡ None → result.disk ≡ disk }

    // With a log: no file was opened, or the run went over it, and was saved through the log. At every moment since the call each state
    // that a crash may leave is recovered to the old file or to the new one, and behind status 0 or 1 to the new one alone. With the
    // word the store is not called.
    ensures journalled { IfSome (journal_asked (map string_bytes words.now)) (λ asked.
        Unopened D.seen D.there D.may_leave D.moment D.left_since D.faults asked disk result.disk (I.left script.old) (I.left script.new) (with_taps (O.written out.old) (map (λ tap. meaning tap) taps.old.items)) (with_taps (O.written out.new) (map (λ tap. meaning tap) taps.new.items)) result.status
        ⊎ Journalled D.seen D.there D.may_leave D.moment D.left_since D.faults asked disk result.disk (streams (O.faults out.old) (I.faults script.old)) (streams (O.faults out.new) (I.faults script.new)) (I.left script.old) (I.left script.new) (with_taps (O.written out.old) (map (λ tap. meaning tap) taps.old.items)) (with_taps (O.written out.new) (map (λ tap. meaning tap) taps.new.items)) result.notes result.status) }
    ensures store { IsSome (behind_journal (map string_bytes words.now)) → result.store ≡ store }

    // With `--check` the script is not read, and the taps are as they were.
    ensures unread { IfSome (ask (run_words (map string_bytes words.now))) (λ asked. asked.check ≡ true → script.new ≡ script.old) }
    ensures unshown { IfSome (ask (run_words (map string_bytes words.now))) (λ asked. asked.check ≡ true → taps.new ≡ taps.old) }
{
    match behind_journal(words) {
        Some(rest) => start_journalled(alloc, rest, store, disk, script, out, taps),
        None => run_plain(alloc, words, store, disk, script, out, taps),
    }
}
