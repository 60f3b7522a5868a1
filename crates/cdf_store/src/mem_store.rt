//! A store in memory.

ghost use Rattle.std.specs.Prelude.{◌≡◌, ◌+◌, ◌≤◌, ◌∷◌, ◌++◌, [], IfSome, OnOk, OnErr, Some, None, false, refl, vec_len, vec_capacity};
ghost use Rattle.std.proofs.Common.{inl};
ghost use Rattle.std.specs.Option.{option_copied, option_map};
ghost use Rattle.cdf_store.specs.Named.{lookup, with_file};
ghost use Rattle.cdf_store.specs.Disk.{Disk};
ghost use Rattle.cdf_store.specs.MemFile.{file_at, same_is_some};
ghost use Rattle.cdf_store.specs.MemFiles.{held_of, name_of, room_of};
ghost use Rattle.cdf_store.specs.Unstored.{nothing};

use crate::copy::copy_from;
use crate::mem_files::MemFiles;
use crate::plan::Plan;
use crate::{AttachError, Failed, Store, Unstored};
use std::alloc::{AllocError, Global};

/// A store in memory, which tells everything. Chosen calls fail, and a failing write writes nothing.
#[derive(Drop)]
pub struct MemStore {
    files: MemFiles,
    touched: Vec<(u64, u64)>,
    writes: u64,
    end: u64,
    taken: u64,
    plan: Plan,
    read_faults: u64,
    write_faults: u64,
    synced: bool,
    unstored: Unstored,
    ghost has_writes: { vec_len touched + writes ≤ vec_capacity touched },
    ghost has_room: { end ≤ room_of files },
}

impl MemStore {
    ghost use Rattle.cdf_store.specs.MemStore.{calls_of, failing_of};

    /// A store without files, of which no call fails.
    pub fn new(alloc: Global) -> Self
        ensures disk { ⟦<MemStore as Store>⟧.disk result
            ≡ record { held = None; name = None; files = Some []; only = None; touched = Some []; under = tt } }
        ensures taken { ⟦<MemStore as Store>⟧.taken result ≡ Some 0 }
        ensures read { ⟦<MemStore as Store>⟧.read_faults result ≡ 0 }
        ensures write { ⟦<MemStore as Store>⟧.write_faults result ≡ 0 }
        ensures calls { calls_of result ≡ 0 }
        ensures failing { failing_of result ≡ [] }
        ensures synced { ⟦<MemStore as Store>⟧.synced result ≡ false }
        ensures unstored { ⟦<MemStore as Store>⟧.unstored result ≡ nothing }
    {
        MemStore {
            files: MemFiles::new(alloc),
            touched: Vec::new(alloc),
            writes: 0,
            end: 0,
            taken: 0,
            plan: Plan::new(alloc),
            read_faults: 0,
            write_faults: 0,
            synced: false,
            unstored: Unstored::nothing(),
        }
    }

    /// Adds a file, or replaces the one of this name. Then no file is attached, and room for the writes of the next one is to be
    /// made anew. After an error all stays as it was, and the attached file stays attached.
    pub fn put_file(&mut self, name: &str, bytes: &[u8]) -> Result<(), AllocError>
        ensures ok { OnOk result (⟦<MemStore as Store>⟧.disk self.new ≡ record (⟦<MemStore as Store>⟧.disk self.old)
            { held = None; name = None; files = option_map (with_file name.now bytes.now) (⟦<MemStore as Store>⟧.disk self.old).files }) }
        ensures err { OnErr result (⟦<MemStore as Store>⟧.disk self.new ≡ ⟦<MemStore as Store>⟧.disk self.old) }
        ensures writes { (⟦<MemStore as Store>⟧.spare self.new).writes ≡ (⟦<MemStore as Store>⟧.spare self.old).writes }
        ensures end { OnOk result ((⟦<MemStore as Store>⟧.spare self.new).end ≡ 0) }
        ensures spare { OnErr result (⟦<MemStore as Store>⟧.spare self.new ≡ ⟦<MemStore as Store>⟧.spare self.old) }
        ensures taken { ⟦<MemStore as Store>⟧.taken self.new ≡ ⟦<MemStore as Store>⟧.taken self.old }
        ensures read { ⟦<MemStore as Store>⟧.read_faults self.new ≡ ⟦<MemStore as Store>⟧.read_faults self.old }
        ensures write { ⟦<MemStore as Store>⟧.write_faults self.new ≡ ⟦<MemStore as Store>⟧.write_faults self.old }
        ensures unstored { ⟦<MemStore as Store>⟧.unstored self.new ≡ ⟦<MemStore as Store>⟧.unstored self.old }
        ensures calls { calls_of self.new ≡ calls_of self.old }
        ensures failing { failing_of self.new ≡ failing_of self.old }
    {
        self.files.put(name, bytes)?;
        self.end = 0;
        Ok(())
    }

    /// The bytes of the file of this name.
    pub fn file(&self, name: &str) -> Option<&[u8]>
        ensures { IfSome (⟦<MemStore as Store>⟧.disk self.now).files
            (λ files. option_copied result ≡ lookup name.now files) }
    {
        self.files.find(name)
    }

    /// From now on the call of this number fails too. The first call has the number 1, and `reserve` has none.
    pub fn fail_at(&mut self, call: u64) -> Result<(), AllocError>
        ensures ok { OnOk result (failing_of self.new ≡ failing_of self.old ++ call ∷ []) }
        ensures err { OnErr result (failing_of self.new ≡ failing_of self.old) }
        ensures calls { calls_of self.new ≡ calls_of self.old }
        ensures disk { ⟦<MemStore as Store>⟧.disk self.new ≡ ⟦<MemStore as Store>⟧.disk self.old }
        ensures taken { ⟦<MemStore as Store>⟧.taken self.new ≡ ⟦<MemStore as Store>⟧.taken self.old }
        ensures spare { ⟦<MemStore as Store>⟧.spare self.new ≡ ⟦<MemStore as Store>⟧.spare self.old }
        ensures read { ⟦<MemStore as Store>⟧.read_faults self.new ≡ ⟦<MemStore as Store>⟧.read_faults self.old }
        ensures write { ⟦<MemStore as Store>⟧.write_faults self.new ≡ ⟦<MemStore as Store>⟧.write_faults self.old }
        ensures unstored { ⟦<MemStore as Store>⟧.unstored self.new ≡ ⟦<MemStore as Store>⟧.unstored self.old }
    {
        self.plan.fail_at(call)
    }

    /// How many calls were made, without `reserve`.
    pub fn calls(&self) -> u64
        ensures { result ≡ calls_of self.now }
    {
        self.plan.calls
    }
}

impl Store for MemStore {
    ghost use Rattle.cdf_store.specs.MemStore.{CallsAsPlanned, files_of, read_faults_of, touched_of, write_faults_of};

    ghost Under = { Unit {0} };

    ghost disk = { λ s. record {
      held = held_of s.files;
      name = name_of s.files;
      files = Some (files_of s);
      only = None;
      touched = Some (touched_of s);
      under = tt;
    } };

    ghost taken = { λ s. Some s.taken };

    ghost spare = { λ s. record { writes = s.writes; end = s.end } };

    ghost read_faults = { read_faults_of };

    ghost write_faults = { write_faults_of };

    ghost synced = { λ s. s.synced };

    ghost unstored = { λ s. s.unstored };

    ghost lends = { false };

    ghost also = { CallsAsPlanned };

    ghost whole = { λ s. record {
      named = same_is_some (file_at s.files.list.items s.files.attached);
      distinct = s.files.distinct;
      listed = s.files.listed;
    } };

    ghost untold = { λ _. inl refl };

    fn attach(&mut self, name: &str, make: bool) -> Result<Option<u64>, AttachError> {
        if self.plan.next_fails() {
            self.read_faults = self.read_faults.saturating_add(1);
            return Err(AttachError::Failed);
        }
        self.files
            .attach(name, make)
            .map_err(|_| AttachError::NoMemory)
    }

    fn reserve(&mut self, writes: u64, end: u64) -> Result<(), AllocError> {
        self.touched.reserve(writes as usize)?;
        self.files.reserve(end)?;
        self.writes = writes;
        self.end = end;
        Ok(())
    }

    fn size(&self) -> u64 {
        self.files.bytes().len() as u64
    }

    fn read_at(&mut self, place: u64, out: &mut [u8]) -> Result<usize, Failed> {
        if self.plan.next_fails() {
            self.read_faults = self.read_faults.saturating_add(1);
            return Err(Failed);
        }
        let count = copy_from(self.files.bytes(), place, out);
        self.taken = self.taken.saturating_add(count as u64);
        Ok(count)
    }

    // Nothing, so that each byte that is read counts.
    fn lend(&self, _place: u64, _count: usize) -> Option<&[u8]> {
        None
    }

    fn write_at(&mut self, place: u64, bytes: &[u8]) -> Result<(), Failed> {
        self.synced = false;
        if self.plan.next_fails() {
            self.write_faults = self.write_faults.saturating_add(1);
            return Err(Failed);
        }
        let size = self.size();
        self.unstored.write(size, place, bytes.len() as u64);
        self.files.write(place as usize, bytes);
        self.writes -= 1;
        self.touched.push((place, bytes.len() as u64)).unwrap();
        Ok(())
    }

    fn write_page(&mut self, place: u64, page: Vec<u8>, count: usize) -> Result<(), Vec<u8>> {
        self.synced = false;
        if self.plan.next_fails() {
            self.write_faults = self.write_faults.saturating_add(1);
            return Err(page);
        }
        let size = self.size();
        self.unstored.write(size, place, count as u64);
        self.files.write(place as usize, &page[..count]);
        self.writes -= 1;
        self.touched.push((place, count as u64)).unwrap();
        Ok(())
    }

    fn set_len(&mut self, n: u64) -> Result<(), Failed> {
        self.synced = false;
        if self.plan.next_fails() {
            self.write_faults = self.write_faults.saturating_add(1);
            return Err(Failed);
        }
        let size = self.size();
        self.unstored.cut(size, n);
        self.files.cut(n as usize);
        self.writes -= 1;
        Ok(())
    }

    fn sync(&mut self) -> Result<(), Failed> {
        self.synced = !self.plan.next_fails();
        if !self.synced {
            self.write_faults = self.write_faults.saturating_add(1);
            return Err(Failed);
        }
        self.unstored = Unstored::nothing();
        Ok(())
    }

    fn unstored(&self) -> Unstored {
        self.unstored
    }
}
