//! A disk in memory.

ghost use Rattle.std.specs.Prelude.{◌≡◌, ◌≤◌, ◌↔◌, ◌++◌, ◌∷◌, ℕ, List, [], length, bytes_eq, false, true, refl, IfOk, IfSome, IsSome, OnErr, OnOk, Some};
ghost use Rattle.cdf_base.specs.Causes.{Rose};
ghost use Rattle.cdf_journal.specs.Crashes.{Settles, part_of};
ghost use Rattle.cdf_mem_disk.specs.Events.{LeftSince, may_leave_after};
ghost use Rattle.cdf_mem_disk.specs.MemParts.{is_named, parts_in};

use crate::past::Past;
use cdf_journal::{Disk, Part};
use cdf_store::{AttachError, Failed, Plan, copy_from};
use std::alloc::{AllocError, Global};

/// A file and its log in memory, which tell everything. Chosen calls fail, and so do writes, cuts and syncs for which there is no
/// memory, and an attaching that would make a second file. A write that fails writes nothing, but a crash may tear its range all the
/// same.
#[derive(Drop)]
pub struct MemDisk {
    alloc: Global,
    /// The name of the file, where there is one.
    name: Option<String>,
    past: Past,
    /// For how many calls that write, cut or store, and for how many bytes of writes, there is room.
    calls: usize,
    room: usize,
    plan: Plan,
    /// How many bytes the writes wrote that did not fail.
    written: u64,
    faults: u64,
}

/// Counts a fault.
fn count_fault(faults: &mut u64) -> Failed
    ensures later { faults.old ≤ faults.new }
    ensures rose { Rose faults.old faults.new }
{
    *faults = faults.saturating_add(1);
    Failed
}

/// Whether the one file has this name.
fn has_name(own: &Option<String>, name: &str) -> bool
    ensures { result ≡ is_named own.now name.now }
{
    match own {
        None => false,
        Some(own) => own.as_str() == name,
    }
}

impl MemDisk {
    ghost use Rattle.cdf_mem_disk.specs.MemDisk.{calls_of, failing_of, left_by, written_of};

    /// A disk without a file, which has room from the start for so many writes, cuts and syncs, and for so many bytes of writes.
    pub fn new(alloc: Global, calls: u64, bytes: u64) -> Result<Self, AllocError>
        ensures settled { IfOk result (λ disk. Settles ⟦<MemDisk as Disk>⟧.seen ⟦<MemDisk as Disk>⟧.may_leave disk (record { main = []; log = [] })) }
        ensures there { IfOk result (λ disk. (name : List ℕ) → ⟦<MemDisk as Disk>⟧.there disk name ≡ false) }
        ensures faults { IfOk result (λ disk. ⟦<MemDisk as Disk>⟧.faults disk ≡ 0) }
        ensures calls { IfOk result (λ disk. calls_of disk ≡ 0) }
        ensures failing { IfOk result (λ disk. failing_of disk ≡ []) }
        ensures written { IfOk result (λ disk. written_of disk ≡ 0) }
    {
        let room = bytes as usize;
        Ok(MemDisk {
            alloc,
            name: None,
            past: Past::new(alloc, &[], &[], calls as usize, room)?,
            calls: calls as usize,
            room,
            plan: Plan::new(alloc),
            written: 0,
            faults: 0,
        })
    }

    /// Gives the disk its one file, with its log, both of them stored. Then its moments begin anew.
    pub fn put_file(&mut self, name: &str, main: &[u8], log: &[u8]) -> Result<(), AllocError>
        ensures settled { OnOk result (Settles ⟦<MemDisk as Disk>⟧.seen ⟦<MemDisk as Disk>⟧.may_leave self.new (record { main = main.now; log = log.now })) }
        ensures there { OnOk result ((other : List ℕ) → ⟦<MemDisk as Disk>⟧.there self.new other ≡ bytes_eq name.now other) }
        ensures err { OnErr result (self.new ≡ self.old) }
        ensures faults { ⟦<MemDisk as Disk>⟧.faults self.new ≡ ⟦<MemDisk as Disk>⟧.faults self.old }
        ensures calls { calls_of self.new ≡ calls_of self.old }
        ensures failing { failing_of self.new ≡ failing_of self.old }
        ensures written { written_of self.new ≡ written_of self.old }
    {
        let name = String::from_str(self.alloc, name)?;
        self.past = Past::new(self.alloc, main, log, self.calls, self.room)?;
        self.name = Some(name);
        Ok(())
    }

    /// The bytes of a part, where there is a file.
    pub fn part(&self, part: Part) -> Option<&[u8]>
        ensures some { IsSome result ↔ ((name : List ℕ) × (⟦<MemDisk as Disk>⟧.there self.now name ≡ true)) }
        ensures bytes { IfSome result (λ bytes. IfSome (⟦<MemDisk as Disk>⟧.seen self.now) (λ parts. bytes.now ≡ part_of parts part)) }
    {
        match &self.name {
            None => None,
            Some(_) => Some(self.past.parts.bytes(part)),
        }
    }

    /// From now on the call of this number fails too. The first call has the number 1, and `len` has none.
    pub fn fail_at(&mut self, call: u64) -> Result<(), AllocError>
        ensures ok { OnOk result (failing_of self.new ≡ failing_of self.old ++ call ∷ []) }
        ensures err { OnErr result (failing_of self.new ≡ failing_of self.old) }
        ensures calls { calls_of self.new ≡ calls_of self.old }
        ensures same { self.new ≡ record self.old { plan = self.new.plan } }
    {
        self.plan.fail_at(call)
    }

    /// How many calls were made, without `len`.
    pub fn calls(&self) -> u64
        ensures { result ≡ calls_of self.now }
    {
        self.plan.calls
    }

    /// How many bytes all writes together wrote that did not fail.
    pub fn written(&self) -> u64
        ensures { result ≡ written_of self.now }
    {
        self.written
    }

    /// A crash, after which the disk is found again: of the writes and cuts since the parts were stored the first `keep` stay, and the
    /// others are taken back. Then both parts are stored, and its moments begin anew.
    pub fn crash(&mut self, keep: u64) -> Result<(), AllocError>
        ensures allowed { ⟦<MemDisk as Disk>⟧.may_leave self.old (left_by keep self.old) }
        ensures settled { OnOk result (Settles ⟦<MemDisk as Disk>⟧.seen ⟦<MemDisk as Disk>⟧.may_leave self.new (left_by keep self.old)) }
        ensures err { OnErr result (self.new ≡ self.old) }
        ensures there { (name : List ℕ) → ⟦<MemDisk as Disk>⟧.there self.new name ≡ ⟦<MemDisk as Disk>⟧.there self.old name }
        ensures faults { ⟦<MemDisk as Disk>⟧.faults self.new ≡ ⟦<MemDisk as Disk>⟧.faults self.old }
        ensures calls { calls_of self.new ≡ calls_of self.old }
        ensures failing { failing_of self.new ≡ failing_of self.old }
        ensures written { written_of self.new ≡ written_of self.old }
    {
        let left = self.past.left(self.alloc, keep)?;
        self.past = Past::new(self.alloc, &left.main, &left.log, self.calls, self.room)?;
        Ok(())
    }
}

impl Disk for MemDisk {
    ghost use Rattle.cdf_mem_disk.specs.MemDisk.{IsCall};
    ghost use Rattle.cdf_mem_disk.specs.Present.{counts_present, only_present};

    ghost seen = { λ d. Some (parts_in d.past.parts) };

    ghost there = { λ d name. is_named d.name name };

    ghost size = { λ d part. length (part_of (parts_in d.past.parts) part) };

    ghost may_leave = { λ d c. may_leave_after (parts_in d.past.base) d.past.history c };

    ghost moment = { λ d. length d.past.history };

    ghost left_since = { λ d t c. LeftSince (parts_in d.past.base) d.past.history t c };

    ghost faults = { λ d. d.faults };

    ghost also = { IsCall };

    ghost counts_now = { λ d t c le now. counts_present (parts_in d.past.base) d.past.history t c le now };

    ghost only_now = { λ d c left. only_present (parts_in d.past.base) d.past.history c left };

    ghost sized = { λ d part. refl };

    fn attach(&mut self, name: &str, make: bool) -> Result<Option<u64>, AttachError> {
        if self.plan.next_fails() {
            count_fault(&mut self.faults);
            return Err(AttachError::Failed);
        }
        if has_name(&self.name, name) {
            return Ok(Some(self.past.parts.main.len() as u64));
        }
        if !make {
            return Ok(None);
        }
        if self.name.is_some() {
            count_fault(&mut self.faults);
            return Err(AttachError::Failed);
        }
        self.name = Some(String::from_str(self.alloc, name)?);
        Ok(Some(self.past.parts.main.len() as u64))
    }

    fn len(&self, part: Part) -> u64 {
        self.past.parts.bytes(part).len() as u64
    }

    fn read_at(&mut self, part: Part, place: u64, out: &mut [u8]) -> Result<usize, Failed> {
        if self.plan.next_fails() {
            return Err(count_fault(&mut self.faults));
        }
        Ok(copy_from(self.past.parts.bytes(part), place, out))
    }

    fn write_at(&mut self, part: Part, place: u64, bytes: &[u8]) -> Result<(), Failed> {
        if self.plan.next_fails() {
            self.past.refuse_write(part, place as usize, bytes);
            return Err(count_fault(&mut self.faults));
        }
        match self.past.write(part, place as usize, bytes) {
            Ok(()) => {
                self.written = self.written.saturating_add(bytes.len() as u64);
                Ok(())
            }
            _ => Err(count_fault(&mut self.faults)),
        }
    }

    fn cut(&mut self, part: Part, n: u64) -> Result<(), Failed> {
        if self.plan.next_fails() {
            self.past.refuse_cut(part, n as usize);
            return Err(count_fault(&mut self.faults));
        }
        match self.past.cut(part, n as usize) {
            Ok(()) => Ok(()),
            _ => Err(count_fault(&mut self.faults)),
        }
    }

    fn sync(&mut self) -> Result<(), Failed> {
        if self.plan.next_fails() {
            return Err(count_fault(&mut self.faults));
        }
        match self.past.store() {
            Ok(()) => Ok(()),
            _ => Err(count_fault(&mut self.faults)),
        }
    }
}
