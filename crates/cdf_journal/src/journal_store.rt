//! A store over a file and its log.

ghost use Rattle.std.specs.Prelude.{◌≡◌, ◌≤◌, ◌+◌, ◌++◌, ◌∷◌, ℕ, List, [], length, true, false, refl, string_bytes, vec_len, vec_capacity, if◌then◌else◌, IfErr, IfOk, IfSome, IsErrOf, IsFalse, IsOk, IsTrue, OnOk, None, Some};
ghost use Rattle.std.proofs.Common.{inr};
ghost use Rattle.std.specs.Option.{ForSome};
ghost use Rattle.cdf_base.specs.Bytes.{put};
ghost use Rattle.cdf_base.specs.Causes.{HasCause, HasCauseOf, Rose};
ghost use Rattle.cdf_journal.specs.declared.disk.Part.TheVariants.{Log, Main};
ghost use Rattle.cdf_journal.specs.Crashes.{LeavesOnly, Parts, Settles};
ghost use Rattle.cdf_journal.specs.Log.{recovered};
ghost use Rattle.cdf_journal.specs.Opening.{HasOne, IsBadLog, IsRecovered, Rests, sole_file};
ghost use Rattle.cdf_journal.specs.Ranges.{IsOldBut, reaches};
ghost use Rattle.cdf_journal.specs.Stages.{AtRest, IsOldOrNew};
ghost use Rattle.cdf_journal.specs.Standing.{disk_with, is_whole};
ghost use Rattle.cdf_store.specs.Unstored.{after_write};

use crate::opening::open_file;
use crate::saving::save;
use crate::slices::{behind, front};
use crate::{Disk, JournalError, Range};
use cdf_store::{AttachError, Failed, Store, Unstored, copy_from, put_in};
use std::alloc::{AllocError, Global};

/// A file and its log as a store. The file's bytes stand in memory, with the writes and cuts that were made since it was opened, and
/// none of the calls of the store reaches the disk: `commit` saves them all.
#[derive(Drop)]
pub struct JournalStore<D: Disk> {
    disk: D,
    name: String,
    file: Vec<u8>,
    /// The ranges that were written since the file was opened.
    kept: Vec<Range>,
    is_attached: bool,
    /// Whether nothing was written or cut since the file was opened.
    is_untouched: bool,
    is_synced: bool,
    unstored: Unstored,
    writes: u64,
    end: u64,
    ghost has_writes: { vec_len kept + writes ≤ vec_capacity kept },
    ghost has_room: { end ≤ vec_capacity file },
    ghost has_one: { IsFalse is_untouched → 1 ≤ vec_capacity kept },
    ghost has_log: { 8 ≤ D.size disk Log },
    ghost reached: { reaches (D.size disk Main) (length file.items) kept.items ≡ true },
    ghost old_but: { ForSome (D.seen disk) (λ parts. IsOldBut kept.items parts.main file.items) },
    ghost unchanged: { IsTrue is_untouched → ForSome (D.seen disk) (λ parts. parts.main ≡ file.items) },
}

/// Why no file was opened with its log, and the disk that was lent.
#[derive(Drop)]
pub struct JournalRefusal<D> {
    pub disk: D,
    pub why: JournalError,
}

impl<D: Disk> JournalStore<D> {
    ghost use Rattle.cdf_journal.specs.Touched.{is_untouched_of};

    /// Attaches the file of this name and its log, and mends the file where the log is open. With `make` an absent file is made.
    pub fn open(
        alloc: Global,
        disk: D,
        name: &str,
        make: bool,
    ) -> Result<JournalStore<D>, JournalRefusal<D>>
        ensures opened { IfOk result (λ store. HasOne name.now (⟦<JournalStore<D> as Store>⟧.disk store)) }
        ensures untouched { IfOk result (λ store. IsTrue (is_untouched_of store)) }

        // Over a disk that tells what reads give, and on which nothing is pending: a crash at any moment leaves the file as the log mends
        // it, and so does the call, where it goes well.
        ensures any_moment { IfOk result (λ store. (parts : Parts) → Settles D.seen D.may_leave disk parts → LeavesOnly D.moment D.left_since disk (⟦<JournalStore<D> as Store>⟧.disk store).under (IsRecovered (recovered parts.main parts.log))) }
        ensures refused_moment { IfErr result (λ refusal. (parts : Parts) → Settles D.seen D.may_leave disk parts → LeavesOnly D.moment D.left_since disk refusal.disk (IsRecovered (recovered parts.main parts.log))) }
        ensures mended { IfOk result (λ store. (parts : Parts) → Settles D.seen D.may_leave disk parts → sole_file (⟦<JournalStore<D> as Store>⟧.disk store) ≡ recovered parts.main parts.log) }
        ensures rests { IfOk result (λ store. (parts : Parts) → Settles D.seen D.may_leave disk parts → Rests D.seen D.may_leave (⟦<JournalStore<D> as Store>⟧.disk store).under (sole_file (⟦<JournalStore<D> as Store>⟧.disk store))) }

        // Why it may be refused.
        ensures no_file { IfErr result (λ refusal. refusal.why ≡ JournalError.NoFile → (make ≡ false) × IfSome (D.seen disk) (λ _. D.there disk name.now ≡ false)) }
        ensures there { OnOk result (make ≡ false → IfSome (D.seen disk) (λ _. IsTrue (D.there disk name.now))) }
        ensures bad_log { IfErr result (λ refusal. refusal.why ≡ JournalError.BadLog → IfSome (D.seen disk) (λ parts. IsBadLog parts.main parts.log)) }
        ensures journal { OnOk result (ForSome (D.seen disk) (λ parts. IsBadLog parts.main parts.log → ⊥)) }
        ensures fault { IfErr result (λ refusal. refusal.why ≡ JournalError.Fault → Rose (D.faults disk) (D.faults refusal.disk)) }
        ensures counted { IfErr result (λ refusal. HasCauseOf {T = Unit {0}} JournalError.Fault (D.faults disk) (D.faults refusal.disk) (Err refusal.why)) }
        ensures faultless { IfOk result (λ store. D.faults (⟦<JournalStore<D> as Store>⟧.disk store).under ≡ D.faults disk) }
    {
        let mut disk = disk;
        match open_file(alloc, &mut disk, name, make) {
            Ok(mended) => Ok(JournalStore {
                disk,
                name: mended.name,
                file: mended.file,
                kept: Vec::new(alloc),
                is_attached: false,
                is_untouched: true,
                is_synced: false,
                unstored: Unstored::nothing(),
                writes: 0,
                end: 0,
            }),
            Err(why) => Err(JournalRefusal { disk, why }),
        }
    }

    /// The disk.
    pub fn into_disk(self) -> D
        ensures { result ≡ (⟦<JournalStore<D> as Store>⟧.disk self).under }
    {
        let JournalStore {
            disk,
            name: _,
            file: _,
            kept: _,
            is_attached: _,
            is_untouched: _,
            is_synced: _,
            unstored: _,
            writes: _,
            end: _,
        } = self;
        disk
    }

    /// Saves what was written and cut since the file was opened. Where that is nothing, the disk is not called. Once it was called, the
    /// next one writes the file whole.
    pub fn commit(&mut self) -> Result<(), Failed>
        // Over a disk at rest: a crash at any moment leaves the file from before or the one that reads give.
        ensures any_moment { (parts : Parts) → AtRest D.seen D.may_leave (⟦<JournalStore<D> as Store>⟧.disk self.old).under parts → LeavesOnly D.moment D.left_since (⟦<JournalStore<D> as Store>⟧.disk self.old).under (⟦<JournalStore<D> as Store>⟧.disk self.new).under (IsOldOrNew parts.main (sole_file (⟦<JournalStore<D> as Store>⟧.disk self.old))) }
        ensures saved { OnOk result ((parts : Parts) → AtRest D.seen D.may_leave (⟦<JournalStore<D> as Store>⟧.disk self.old).under parts → Rests D.seen D.may_leave (⟦<JournalStore<D> as Store>⟧.disk self.new).under (sole_file (⟦<JournalStore<D> as Store>⟧.disk self.old))) }
        ensures file { sole_file (⟦<JournalStore<D> as Store>⟧.disk self.new) ≡ sole_file (⟦<JournalStore<D> as Store>⟧.disk self.old) }

        // Where nothing was written or cut, nothing is called.
        ensures idle { IsTrue (is_untouched_of self.old) → self.new ≡ self.old }
        ensures idle_ok { IsTrue (is_untouched_of self.old) → IsOk result }
        ensures touched { is_untouched_of self.new ≡ is_untouched_of self.old }
        ensures cause { HasCause (D.faults (⟦<JournalStore<D> as Store>⟧.disk self.old).under) (D.faults (⟦<JournalStore<D> as Store>⟧.disk self.new).under) result }
    {
        if self.is_untouched {
            return Ok(());
        }
        let saved = save(&mut self.disk, &self.file, &self.kept);
        self.kept.clear();
        self.kept
            .push(Range {
                place: 0,
                count: self.file.len(),
            })
            .unwrap();
        self.writes = 0;
        saved
    }

    /// Puts bytes at a place of the file, and keeps their range.
    fn keep(&mut self, place: usize, bytes: &[u8])
        requires place { place ≤ length self.old.file.items }
        requires writes { 1 ≤ self.old.writes }
        requires end { place + length bytes.now ≤ self.old.end }
        ensures file { self.new.file.items ≡ put self.old.file.items place bytes.now }
        ensures writes { self.new.writes + 1 ≡ self.old.writes }
        ensures end { self.new.end ≡ self.old.end }
        ensures name { self.new.name ≡ self.old.name }
        ensures attached { self.new.is_attached ≡ self.old.is_attached }
        ensures synced { self.new.is_synced ≡ false }
        ensures unstored { self.new.unstored ≡ after_write (length self.old.file.items) place (length bytes.now) self.old.unstored }
        ensures disk { self.new.disk ≡ self.old.disk }
    {
        let size = self.file.len() as u64;
        self.unstored.write(size, place as u64, bytes.len() as u64);
        put_in(&mut self.file, place, bytes);
        self.kept
            .push(Range {
                place,
                count: bytes.len(),
            })
            .unwrap();
        self.writes -= 1;
        self.is_untouched = false;
        self.is_synced = false;
    }
}

/// Makes room for so many ranges more, and for a file up to an end.
fn make_room(
    file: &mut Vec<u8>,
    kept: &mut Vec<Range>,
    writes: usize,
    end: usize,
) -> Result<(), AllocError>
    ensures file { file.new.items ≡ file.old.items }
    ensures kept { kept.new.items ≡ kept.old.items }
    ensures long { vec_len kept.new ≡ vec_len kept.old }
    ensures writes { OnOk result (vec_len kept.new + writes ≤ vec_capacity kept.new) }
    ensures end { OnOk result (end ≤ vec_capacity file.new) }
    ensures file_room { vec_capacity file.old ≤ vec_capacity file.new }
    ensures kept_room { vec_capacity kept.old ≤ vec_capacity kept.new }
{
    kept.reserve(writes)?;
    file.reserve_exact(end.saturating_sub(file.len()))
}

impl<D: Disk> Store for JournalStore<D> {
    ghost use Rattle.cdf_journal.specs.Touched.{TouchesByWriting};

    ghost Under = { D };

    ghost disk = { λ s. disk_with (string_bytes s.name) s.file.items s.is_attached s.disk };

    ghost taken = { λ _. None };

    ghost spare = { λ s. record { writes = s.writes; end = s.end } };

    ghost read_faults = { λ _. 0 };

    ghost write_faults = { λ _. 0 };

    ghost synced = { λ s. s.is_synced };

    ghost unstored = { λ s. s.unstored };

    ghost lends = { true };

    ghost also = { TouchesByWriting };

    ghost whole = { λ s. is_whole (string_bytes s.name) s.file.items s.is_attached s.disk };

    ghost untold = { λ _. inr refl };

    fn attach(&mut self, name: &str, make: bool) -> Result<Option<u64>, AttachError> {
        self.is_attached = true;
        Ok(Some(self.file.len() as u64))
    }

    fn reserve(&mut self, writes: u64, end: u64) -> Result<(), AllocError> {
        match make_room(
            &mut self.file,
            &mut self.kept,
            writes as usize,
            end as usize,
        ) {
            Ok(()) => {
                self.writes = writes;
                self.end = end;
                Ok(())
            }
            _ => Err(AllocError),
        }
    }

    fn size(&self) -> u64 {
        if self.is_attached {
            self.file.len() as u64
        } else {
            0
        }
    }

    fn read_at(&mut self, place: u64, out: &mut [u8]) -> Result<usize, Failed> {
        Ok(copy_from(&self.file, place, out))
    }

    fn lend(&self, place: u64, count: usize) -> Option<&[u8]> {
        Some(front(behind(&self.file, place as usize), count))
    }

    fn write_at(&mut self, place: u64, bytes: &[u8]) -> Result<(), Failed> {
        self.keep(place as usize, bytes);
        Ok(())
    }

    fn write_page(&mut self, place: u64, page: Vec<u8>, count: usize) -> Result<(), Vec<u8>> {
        self.keep(place as usize, &page[..count]);
        Ok(())
    }

    fn set_len(&mut self, n: u64) -> Result<(), Failed> {
        let size = self.file.len() as u64;
        self.unstored.cut(size, n);
        self.file.truncate(n as usize);
        self.writes -= 1;
        self.is_untouched = false;
        self.is_synced = false;
        Ok(())
    }

    fn sync(&mut self) -> Result<(), Failed> {
        self.is_synced = true;
        self.unstored = Unstored::nothing();
        Ok(())
    }

    fn unstored(&self) -> Unstored {
        self.unstored
    }
}
