//! What a store is.

ghost use Rattle.std.specs.Prelude.{◌≡◌, ◌≤◌, ◌+◌, ◌%◌, ◌⊎◌, ◌↔◌, ℕ, List, Bool, false, None, length, take, drop, is_err, is_some, IsSome, IsOk, IsTrue, IsFalse, OnOk, OnErr, IfOk, IfErr, IfSome};
ghost use Rattle.std.specs.Option.{option_map};
ghost use Rattle.std.specs.declared.option.Option.{Option};
ghost use Rattle.cdf_base.specs.Causes.{HasCause, HasCauseOf};
ghost use Rattle.cdf_store.specs.Attaching.{is_failed};
ghost use Rattle.cdf_store.specs.Named.{Allows, AttachesIn, found_or_made, lookup};
ghost use Rattle.cdf_store.specs.Reading.{ReadsAt, Counts};
ghost use Rattle.cdf_store.specs.Disk.{Disk, IsWhole, Spare, Spent, WrittenPart, cut, file_of, written};
ghost use Rattle.cdf_store.specs.Unstored.{WritesInPart, after_cut, after_write, nothing};

use crate::{Failed, Unstored};
use std::alloc::AllocError;

/// Why no file was attached.
#[derive(Clone, Copy, Debug, PartialEq, Eq)]
pub enum AttachError {
    /// The device failed, and counted it.
    Failed,
    /// There is no memory for the file.
    NoMemory,
}

impl From<AllocError> for AttachError {
    ghost use Rattle.cdf_store.specs.declared.store.AttachError.TheVariants.{NoMemory};

    ghost from_gives = { λ _ e. e ≡ NoMemory };

    fn from(_: AllocError) -> Self {
        AttachError::NoMemory
    }
}

/// A device with named files, of which at most one is attached.
pub trait Store {
    ghost use Rattle.cdf_store.specs.declared.unstored.Unstored.{Unstored};

    /// The type of what stands beneath the device.
    ghost Under: { Type 0 };

    /// The files, and what stands beneath.
    ghost disk: { Self → Disk Under };

    /// The number of bytes that reads have given, where the device tells it. It stops at the last `u64`.
    ghost taken: { Self → Option ℕ };

    /// The writes that there is room for.
    ghost spare: { Self → Spare };

    /// How often attaching and reading have failed.
    ghost read_faults: { Self → ℕ };

    /// How often writing, cutting and storing have failed.
    ghost write_faults: { Self → ℕ };

    /// Whether the attached file is stored as it stands: `sync` alone makes it so, and a write or a cut ends it.
    ghost synced: { Self → Bool };

    /// What was done to the attached file since it was stored: writes and cuts add to it, and `sync` alone clears it.
    ghost unstored: { Self → Unstored };

    /// Whether the device has the bytes of the attached file in memory and lends them.
    ghost lends: { Bool };

    /// What a device says of each call beyond these clauses: of itself before and after, and whether it failed, or `None` for
    /// `reserve`, which cannot fail by a fault.
    ghost also: { Self → Self → Option Bool → Type 0 } = { λ _ _ _. Unit {0} };

    /// Attaches the file of this name, and answers its length, or `None` where there is no such file. With `make` an absent
    /// file is made, empty.
    fn attach(&mut self, name: &str, make: bool) -> Result<Option<u64>, AttachError>
        requires free { (disk self.old).held ≡ None }
        requires allowed { Allows (disk self.old).only name.now }

        // `None` says that no file is attached.
        ensures length { IfOk result (λ found. found ≡ option_map length (disk self.new).held) }
        ensures err { OnErr result ((disk self.new).held ≡ None) }
        ensures made { IsTrue make → IfOk result (λ found. IsSome found) }
        ensures name { (disk self.new).name ≡ option_map (λ _. name.now) (disk self.new).held }

        // Over a device that tells its files the bytes are those under the name.
        ensures known { IfOk result (λ _. IfSome (disk self.old).files
            (λ files. (disk self.new).held ≡ found_or_made make (lookup name.now files))) }
        ensures files { AttachesIn make name.now (disk self.old).files (disk self.new).files result }

        ensures only { (disk self.new).only ≡ (disk self.old).only }
        ensures touched { (disk self.new).touched ≡ (disk self.old).touched }
        ensures under { (disk self.new).under ≡ (disk self.old).under }
        ensures taken { taken self.new ≡ taken self.old }
        ensures spare { spare self.new ≡ spare self.old }
        ensures cause { HasCauseOf AttachError.Failed (read_faults self.old) (read_faults self.new)
            result }
        ensures write { write_faults self.new ≡ write_faults self.old }
        ensures synced { IsTrue (synced self.new) → IsTrue (synced self.old) }
        ensures unstored { unstored self.new ≡ unstored self.old }
        ensures also { also self.old self.new (Some (is_failed result)) };

    /// Makes room for so many writes and cuts, and for writes up to this end of the file. They then take no memory.
    fn reserve(&mut self, writes: u64, end: u64) -> Result<(), AllocError>
        requires { IsSome (disk self.old).held }
        ensures writes { OnOk result (writes ≤ (spare self.new).writes) }
        ensures end { OnOk result (end ≤ (spare self.new).end) }
        ensures err { OnErr result (spare self.new ≡ spare self.old) }
        ensures disk { disk self.new ≡ disk self.old }
        ensures taken { taken self.new ≡ taken self.old }
        ensures read { read_faults self.new ≡ read_faults self.old }
        ensures write { write_faults self.new ≡ write_faults self.old }
        ensures synced { IsTrue (synced self.new) → IsTrue (synced self.old) }
        ensures unstored { unstored self.new ≡ unstored self.old }
        ensures also { also self.old self.new None };

    /// How many bytes the attached file has, and 0 where there is none.
    fn size(&self) -> u64
        ensures { result ≡ length (file_of (disk self.now)) };

    /// Reads bytes of the attached file from `place` on to the front of `out`, and answers how many. It takes no memory.
    fn read_at(&mut self, place: u64, out: &mut [u8]) -> Result<usize, Failed>
        requires { IsSome (disk self.old).held }
        ensures bytes { ReadsAt (disk self.old).held place out.new result }
        ensures taken { Counts (taken self.old) (taken self.new) result }
        ensures disk { disk self.new ≡ disk self.old }
        ensures spare { spare self.new ≡ spare self.old }
        ensures cause { HasCause (read_faults self.old) (read_faults self.new) result }
        ensures write { write_faults self.new ≡ write_faults self.old }
        ensures synced { IsTrue (synced self.new) → IsTrue (synced self.old) }
        ensures unstored { unstored self.new ≡ unstored self.old }
        ensures also { also self.old self.new (Some (is_err result)) };

    /// Lends bytes of the attached file, which lie in one page of 65,536 bytes, where the device has them in memory, so that they
    /// need not be copied. It takes no memory and cannot fail.
    fn lend(&self, place: u64, count: usize) -> Option<&[u8]>
        requires inside { place + count ≤ length (file_of (disk self.now)) }
        requires page { place % 65536 + count ≤ 65536 }
        ensures lent { is_some result ≡ lends }
        ensures bytes { IfSome result (λ bytes. bytes.now ≡ take count (drop place (file_of (disk self.now)))) };

    /// Writes bytes of the attached file from `place` on, for which room was made. It takes no memory. After a fault the front
    /// of the bytes may have been written.
    fn write_at(&mut self, place: u64, bytes: &[u8]) -> Result<(), Failed>
        requires held { IsSome (disk self.old).held }
        requires place { place ≤ length (file_of (disk self.old)) }
        requires bytes { length bytes.now ≤ 65536 }
        requires writes { 1 ≤ (spare self.old).writes }
        requires end { place + length bytes.now ≤ (spare self.old).end }
        ensures ok { OnOk result (disk self.new ≡ written (disk self.old) place bytes.now) }
        ensures part { OnErr result (WrittenPart (disk self.old) place bytes.now (disk self.new)) }
        ensures spare { Spent (spare self.old) (spare self.new) }
        ensures taken { taken self.new ≡ taken self.old }
        ensures cause { HasCause (write_faults self.old) (write_faults self.new) result }
        ensures read { read_faults self.new ≡ read_faults self.old }
        ensures unsynced { IsFalse (synced self.new) }
        ensures unstored { OnOk result (unstored self.new ≡ after_write (length (file_of (disk self.old))) place (length bytes.now) (unstored self.old)) }
        ensures left { OnErr result (WritesInPart place (length bytes.now) (disk self.old) (disk self.new) (unstored self.old) (unstored self.new)) }
        ensures also { also self.old self.new (Some (is_err result)) };

    /// Writes the first `count` bytes of a page of 65,536 bytes, as `write_at` does, and may keep the page, so that they need not
    /// be copied. It takes no memory. After a fault the front of the bytes may have been written, and the page comes back as it
    /// was.
    fn write_page(&mut self, place: u64, page: Vec<u8>, count: usize) -> Result<(), Vec<u8>>
        requires held { IsSome (disk self.old).held }
        requires size { length page.items ≡ 65536 }
        requires count { count ≤ 65536 }
        requires place { place ≤ length (file_of (disk self.old)) }
        requires writes { 1 ≤ (spare self.old).writes }
        requires end { place + count ≤ (spare self.old).end }
        ensures ok { OnOk result (disk self.new ≡ written (disk self.old) place (take count page.items)) }
        ensures part { OnErr result (WrittenPart (disk self.old) place (take count page.items) (disk self.new)) }
        ensures back { IfErr result (λ back. back.items ≡ page.items) }
        ensures spare { Spent (spare self.old) (spare self.new) }
        ensures taken { taken self.new ≡ taken self.old }
        ensures cause { HasCause (write_faults self.old) (write_faults self.new) result }
        ensures read { read_faults self.new ≡ read_faults self.old }
        ensures unsynced { IsFalse (synced self.new) }
        ensures unstored { OnOk result (unstored self.new ≡ after_write (length (file_of (disk self.old))) place count (unstored self.old)) }
        ensures left { OnErr result (WritesInPart place count (disk self.old) (disk self.new) (unstored self.old) (unstored self.new)) }
        ensures also { also self.old self.new (Some (is_err result)) };

    /// Cuts the attached file to `n` bytes. It takes no memory.
    fn set_len(&mut self, n: u64) -> Result<(), Failed>
        requires held { IsSome (disk self.old).held }
        requires within { n ≤ length (file_of (disk self.old)) }
        requires writes { 1 ≤ (spare self.old).writes }
        ensures ok { OnOk result (disk self.new ≡ cut (disk self.old) n) }
        ensures stays { OnErr result (disk self.new ≡ disk self.old) }
        ensures spare { Spent (spare self.old) (spare self.new) }
        ensures taken { taken self.new ≡ taken self.old }
        ensures cause { HasCause (write_faults self.old) (write_faults self.new) result }
        ensures read { read_faults self.new ≡ read_faults self.old }
        ensures unsynced { IsFalse (synced self.new) }
        ensures unstored { OnOk result (unstored self.new ≡ after_cut (length (file_of (disk self.old))) n (unstored self.old)) }
        ensures left { OnErr result (unstored self.new ≡ unstored self.old) }
        ensures also { also self.old self.new (Some (is_err result)) };

    /// Has the attached file stored, so that it outlasts the machine's next stop. It takes no memory, and none of the writes for
    /// which room was made. What the file has stays, after a fault too.
    fn sync(&mut self) -> Result<(), Failed>
        requires held { IsSome (disk self.old).held }
        ensures disk { disk self.new ≡ disk self.old }
        ensures synced { IsTrue (synced self.new) ↔ IsOk result }
        ensures stored { OnOk result (unstored self.new ≡ nothing) }
        ensures left { OnErr result (unstored self.new ≡ unstored self.old) }
        ensures spare { spare self.new ≡ spare self.old }
        ensures taken { taken self.new ≡ taken self.old }
        ensures cause { HasCause (write_faults self.old) (write_faults self.new) result }
        ensures read { read_faults self.new ≡ read_faults self.old }
        ensures also { also self.old self.new (Some (is_err result)) };

    /// What was done to the attached file since it was stored.
    fn unstored(&self) -> Unstored
        ensures { result ≡ unstored self.now };

    /// A file is attached under a name. Where the device tells its files, no name stands twice, and the attached file is the
    /// one of its name.
    ghost whole: { (s : Self) → IsWhole (disk s) };

    /// A device that lends does not tell what reads give.
    ghost untold: { (s : Self) → (lends ≡ false) ⊎ (taken s ≡ None) };
}
