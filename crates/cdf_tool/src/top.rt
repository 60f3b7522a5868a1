//! The top call: `run`.

ghost use Rattle.std.specs.Prelude.{◌≡◌, ◌≢◌, ◌-◌, ◌<◌, ◌≤◌, ◌↔◌, length, map, string_bytes, true, false, Some, None, IfSome, IsTrue, not, ◌&&◌, ◌⊎◌};
ghost use Rattle.std.specs.Option.{ForSome, option_map};
ghost use Rattle.cdf_store.specs.Disk.{file_in};
ghost use Rattle.cdf_store.specs.Named.{Allows, lookup};
ghost use Rattle.cdf_store.specs.Unstored.{nothing};
ghost use Rattle.cdf_pages.specs.Saving.{Touches};
ghost use Rattle.cdf_format.specs.Sealed.{image_of};
ghost use Rattle.cdf_format.specs.WellFormed.{WellFormed};
ghost use Rattle.cdf_model.specs.Limits.{image_limit, script_limit};
ghost use Rattle.cdf_saving.specs.Counts.{Counted, counts};
ghost use Rattle.cdf_saving.specs.Saved.{LeavesApart};
ghost use Rattle.cdf_saving.specs.Statuses.{Exactly, IsDone, IsFailure, IsUnsaved, replaced_by};
ghost use Rattle.cdf_words.specs.Asking.{ask, saves_nothing};
ghost use Rattle.cdf_tool.specs.Accepts.{Accepts};
ghost use Rattle.cdf_tool.specs.Checking.{Checks};
ghost use Rattle.cdf_tool.specs.Due.{CanBegin, Looked, Untouched, calls_store};
ghost use Rattle.cdf_tool.specs.Endings.{Ends};
ghost use Rattle.cdf_tool.specs.Ends.{SpoilsTo};
ghost use Rattle.cdf_tool.specs.Idle.{IfIdle};
ghost use Rattle.cdf_tool.specs.Outlets.{with_taps};
ghost use Rattle.cdf_tool.specs.Reading.{IfReads, WritesNothing};
ghost use Rattle.cdf_tool.specs.Says.{Names};
ghost use Rattle.cdf_tool.specs.Stored.{IsChanged};

use crate::checked::check_file;
use crate::file::run_file;
use crate::say::say_usage;
use cdf_saving::{Ended, Notes, Status};
use cdf_store::{Sink, Source, Store};
use cdf_tap::Tap;
use cdf_words::{WordsError, read_words};
use std::alloc::Global;

/// Runs the program: over the words of its command line without the program's own name, a store that has no file attached, the taps that
/// a report may name, the script and the output. The store comes back on every status.
pub fn run<S: Store, I: Source, O: Sink>(
    alloc: Global,
    words: &[String],
    store: S,
    script: &mut I,
    out: &mut O,
    taps: &mut Vec<Box<dyn Tap>>,
) -> Ended<S>
    requires free { (S.disk store).held ≡ None }
    requires allowed { ForSome (ask (map string_bytes words.now)) (λ asked. Allows (S.disk store).only asked.name) }

    // Over devices that tell their bytes: with status 0 or 1, and without `--check`, the file is well formed, or a new one was made, and there are a last image
    // and a flag for each line, so that the script leads from the first image to the last one, what was written is the text of the run
    // over the data set of the first and the taps, and nothing else, the last image is stored, the script was read to its end, and the status
    // is 1 exactly where that run refuses a line. The last image is well formed once it is sealed, and means the data set that the run
    // ends with, and those taps are left that the run leaves. Where no line changed anything, nothing was written to the store.
    ensures accepted { Accepts (ask (map string_bytes words.now)) (S.disk store) (S.disk result.store) (I.left script.old) (I.left script.new) (with_taps (O.written out.old) (map (λ tap. meaning tap) taps.old.items)) (with_taps (O.written out.new) (map (λ tap. meaning tap) taps.new.items)) result.status }

    // With `--check` status 0 comes exactly where the file that was read is well formed; then `yes` is written, and the line on space
    // where it is asked for, and nothing else. The script is not read, and the taps are as they were.
    ensures checked { IfSome (ask (map string_bytes words.now)) (λ asked. asked.check ≡ true → Checks asked.space (S.disk result.store).held (O.written out.old) (O.written out.new) result.status) }
    ensures unread { IfSome (ask (map string_bytes words.now)) (λ asked. asked.check ≡ true → script.new ≡ script.old) }
    ensures unshown { IfSome (ask (map string_bytes words.now)) (λ asked. asked.check ≡ true → taps.new ≡ taps.old) }

    // Over any devices: what was written, what was read and what became of the store and of the taps, status by status. Where the run
    // stopped in its script, the taps are left that the lines left which were answered.
    ensures ends { Ends (ask (map string_bytes words.now)) (S.disk store) (S.disk result.store) (I.left script.old) (I.left script.new) (with_taps (O.written out.old) (map (λ tap. meaning tap) taps.old.items)) (with_taps (O.written out.new) (map (λ tap. meaning tap) taps.new.items)) result.status }

    // The file that is attached has the name that was asked for. Unless it is new or was saved, it is the one of that name over a store that tells its files.
    ensures named { IfSome (ask (map string_bytes words.now)) (λ asked. (S.disk result.store).name ≡ option_map (λ _. asked.name) (S.disk result.store).held) }
    ensures looked { IfSome (ask (map string_bytes words.now)) (λ asked. asked.new ≡ false → IsUnsaved (saves_nothing asked) result.status →
        IfSome (S.disk store).files (λ files. Looked (S.disk result.store).held (lookup asked.name files) result.status)) }

    // Statuses 2, 3, 4 and 10 come exactly where they are due.
    ensures usage { Exactly Status.Usage result.status (ask (map string_bytes words.now) ≡ None) }
    ensures no_file { IfSome (ask (map string_bytes words.now)) (λ asked. IfSome (S.disk store).files (λ files. Exactly Status.NoFile result.status ((asked.new ≡ false) × (lookup asked.name files ≡ None)))) }
    ensures no_file_read { result.status ≡ Status.NoFile → (S.disk result.store).held ≡ None }
    ensures rejected { IfSome (ask (map string_bytes words.now)) (λ asked. IfSome (S.disk result.store).held (λ file. Exactly Status.Rejected result.status ((asked.new ≡ false) × (WellFormed file → ⊥)))) }
    ensures too_long { IfSome (I.left script.old) (λ before. IfSome (I.left script.new) (λ left. Exactly Status.ScriptTooLong result.status (script_limit < length before - length left))) }

    // A rule is handed back with status 4, and with no other: it is one that the file breaks, and nothing else was written.
    ensures verdict { result.status ≡ Status.Rejected → Names result.notes.broken (S.disk result.store).held (O.written out.old) (O.written out.new) }
    ensures told { IfSome result.notes.broken (λ _. result.status ≡ Status.Rejected) }

    // A well-formed file or a new one, and a script that is not too long, end with status 0 or 1, unless a device failed or memory was refused.
    ensures complete { IfSome (ask (map string_bytes words.now)) (λ asked. CanBegin asked.new asked.name (S.disk store).files →
        IfSome (I.left script.old) (λ before. length before ≤ script_limit → IsDone result.status ⊎ IsFailure result.status)) }

    // By the status: a device is blamed only where its count of faults rose, and where a count rose a device is blamed.
    ensures counted { Counted (counts (S.read_faults store) (S.write_faults store) (O.faults out.old) (I.faults script.old)) (counts (S.read_faults result.store) (S.write_faults result.store) (O.faults out.new) (I.faults script.new)) result.status }

    // Where nothing is saved the store's files stay as they were, but that an empty one may have been made for a new file. Where no file
    // is named, and for a new one that is not saved, the store is not called.
    ensures not_called { calls_store (ask (map string_bytes words.now)) ≡ false → result.store ≡ store }
    ensures untouched { IfSome (ask (map string_bytes words.now)) (λ asked. IsUnsaved (saves_nothing asked) result.status → Untouched asked (S.disk store) (S.disk result.store)) }
    ensures unwritten { IfSome (ask (map string_bytes words.now)) (λ asked. IsUnsaved (saves_nothing asked) result.status → S.write_faults result.store ≡ S.write_faults store) }

    // Only pages that differ are written: over a store that tells its files, each range that was written lies in a page in which the
    // file that is left has a byte that the old one had not there, or behind the image, in its checksum.
    ensures touched { IfSome (ask (map string_bytes words.now)) (λ asked. IfSome (S.disk store).files (λ files. IfSome (S.disk result.store).held (λ now. IsDone result.status →
        Touches (IsChanged (file_in (lookup asked.name files)) now) (S.disk store).touched (S.disk result.store).touched))) }

    // A script that only reads leaves the file as it was. Where each line is blank, no command, or a command that only reads, and no new
    // file is begun, nothing is written to the store, and no saving fails, also over a file that may not be written.
    ensures reads { IfSome (ask (map string_bytes words.now)) (λ asked. asked.new ≡ false → IfReads (I.left script.old)
        (WritesNothing (S.disk store) (S.disk result.store) (S.write_faults store) (S.write_faults result.store) result.status)) }

    // Where no new file is begun, and each line is blank, no command, a command that only reads, or is refused over the file of the
    // name, nothing is written to the store, and no saving fails. A refused command is no edit.
    ensures idle { IfSome (ask (map string_bytes words.now)) (λ asked. asked.new ≡ false → IfSome (S.disk store).files (λ files. IfSome (lookup asked.name files) (λ file.
        IfIdle image_limit (image_of file) (I.left script.old) (WritesNothing (S.disk store) (S.disk result.store) (S.write_faults store) (S.write_faults result.store) result.status)))) }

    // With status 0 or 1 nothing was written to the store, or the store has the file stored as it stands.
    ensures synced { IfSome (ask (map string_bytes words.now)) (λ asked. IsDone result.status → Untouched asked (S.disk store) (S.disk result.store) ⊎ IsTrue (S.synced result.store)) }

    // So it is of a new file that was saved, also where it is the one that was there.
    ensures new_synced { IfSome (ask (map string_bytes words.now)) (λ asked. IsDone result.status → asked.new ≡ true → asked.no_save ≡ false → IsTrue (S.synced result.store)) }

    // Over real files too: where all was stored before, it is with status 0 or 1, and bytes of the file are written over only once
    // what it grew by is stored, so that never are both left to be stored, unless a saving failed and left the old bytes.
    ensures stored { IsDone result.status → S.unstored store ≡ nothing → S.unstored result.store ≡ nothing }
    ensures apart { LeavesApart result.notes.left (S.unstored store) (S.unstored result.store) }

    // With status 6 it is told what the saving left: the file has its old bytes, old ones and new ones, or all new ones, which the
    // store may not have stored. With any other status nothing is told.
    ensures left { IfSome (ask (map string_bytes words.now)) (λ asked. result.status ≡ Status.StoreWriteFault →
        SpoilsTo asked (S.disk store) (S.disk result.store) (I.left script.old) (I.left script.new) (with_taps (O.written out.old) (map (λ tap. meaning tap) taps.old.items)) (with_taps (O.written out.new) (map (λ tap. meaning tap) taps.new.items)) result.notes.left) }
    ensures none_left { result.status ≢ Status.StoreWriteFault → result.notes.left ≡ None }

    // With `--new`, where the file was saved, it is told how many bytes there were under the name, and else 0.
    ensures replaced { IfSome (ask (map string_bytes words.now)) (λ asked. IfSome (S.disk store).files (λ files.
        result.notes.replaced ≡ replaced_by (asked.new && not asked.no_save) (length (file_in (lookup asked.name files))) result.status)) }

    // Status 1 comes exactly where a line is counted as refused.
    ensures refusals { IsDone result.status → (1 ≤ result.notes.refusals.refused) ↔ (result.status ≡ Status.SomeRefused) }

    // What stands beneath the store stays.
    ensures only { (S.disk result.store).only ≡ (S.disk store).only }
    ensures under { (S.disk result.store).under ≡ (S.disk store).under }
{
    match read_words(alloc, words) {
        Ok(asked) => {
            if asked.check {
                check_file(alloc, &asked, store, out)
            } else {
                run_file(alloc, &asked, store, script, out, taps)
            }
        }
        Err(WordsError::Usage) => {
            let status = say_usage(out);
            Ended {
                status,
                notes: Notes::none(),
                store,
            }
        }
        Err(WordsError::NoMemory) => Ended {
            status: Status::NoMemory,
            notes: Notes::none(),
            store,
        },
    }
}
