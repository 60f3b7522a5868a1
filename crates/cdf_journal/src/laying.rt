//! The members of a saving written into the log, behind a gate that stays shut.

ghost use Rattle.std.specs.Prelude.{◌≡◌, ◌≤◌, ◌<◌, ◌+◌, ◌^◌, ◌++◌, ℕ, length, OnOk, IfOk, Some};
ghost use Rattle.byteorder.specs.Endian.{big_bytes};
ghost use Rattle.cdf_base.specs.Bytes.{put};
ghost use Rattle.cdf_base.specs.Causes.{HasCause};
ghost use Rattle.cdf_journal.specs.declared.disk.Part.TheVariants.{Log, Main};
ghost use Rattle.cdf_journal.specs.Crashes.{Leads, LeavesOnly, Parts, Settles, with_part};
ghost use Rattle.cdf_journal.specs.Log.{body_bytes, member_bytes};
ghost use Rattle.cdf_journal.specs.Ranges.{body_of, member_of};
ghost use Rattle.cdf_journal.specs.Stages.{AtRest, IsShut, KeepsGate, Lies};

use crate::{Disk, Part, Range};
use byteorder::{BigEndian, ByteOrder};
use cdf_store::Failed;

/// Two numbers of 8 bytes each.
fn number_pair(first: u64, second: u64) -> [u8; 16]
    ensures { result ≡ big_bytes 8 first ++ big_bytes 8 second }
{
    let mut bytes = [0; 16];
    BigEndian::write_u64(&mut bytes, first);
    BigEndian::write_u64(&mut bytes[8..], second);
    bytes
}

/// Writes bytes into the log behind its first 8 bytes, and answers where they end.
fn write_behind<D: Disk>(disk: &mut D, at: u64, bytes: &[u8]) -> Result<u64, Failed>
    requires gate { 8 ≤ at }
    requires at { at ≤ D.size disk.old Log }
    ensures end { IfOk result (λ end. (end ≡ at + length bytes.now) × (end ≤ D.size disk.new Log)) }
    ensures leads { Leads D.may_leave D.moment D.left_since KeepsGate disk.old disk.new }
    ensures seen { OnOk result ((parts : Parts) → D.seen disk.old ≡ Some parts → D.seen disk.new ≡ Some (with_part parts Log (put parts.log at bytes.now))) }
    ensures no_shorter { D.size disk.old Log ≤ D.size disk.new Log }
    ensures beside { D.size disk.new Main ≡ D.size disk.old Main }
    ensures cause { HasCause (D.faults disk.old) (D.faults disk.new) result }
{
    disk.write_at(Part::Log, at, bytes)?;
    // Asked for so that the end is known to fit in 64 bits.
    let _ = disk.len(Part::Log);
    Ok(at + bytes.len() as u64)
}

/// Writes a member into the log behind its first 8 bytes, and answers where it ends.
fn lay_member<D: Disk>(disk: &mut D, at: u64, file: &[u8], range: Range) -> Result<u64, Failed>
    requires gate { 8 ≤ at }
    requires at { at ≤ D.size disk.old Log }
    ensures end { IfOk result (λ end. (end ≡ at + length (member_bytes (member_of file.now range))) × (end ≤ D.size disk.new Log)) }
    ensures leads { Leads D.may_leave D.moment D.left_since KeepsGate disk.old disk.new }
    ensures seen { OnOk result ((parts : Parts) → D.seen disk.old ≡ Some parts → D.seen disk.new ≡ Some (with_part parts Log (put parts.log at (member_bytes (member_of file.now range))))) }
    ensures no_shorter { D.size disk.old Log ≤ D.size disk.new Log }
    ensures beside { D.size disk.new Main ≡ D.size disk.old Main }
    ensures cause { HasCause (D.faults disk.old) (D.faults disk.new) result }
{
    let bytes = range.bytes_of(file);
    let place = range.place_in(file);
    let head = number_pair(place, bytes.len() as u64);
    let middle = write_behind(disk, at, &head)?;
    write_behind(disk, middle, bytes)
}

/// Writes all members into the log behind its first 8 bytes.
fn lay_members<D: Disk>(disk: &mut D, file: &[u8], ranges: &[Range]) -> Result<(), Failed>
    requires room { 8 ≤ D.size disk.old Log }
    ensures small { (length file.now < 2 ^ 64) × (length ranges.now < 2 ^ 64) }
    ensures leads { Leads D.may_leave D.moment D.left_since KeepsGate disk.old disk.new }
    ensures seen { OnOk result ((parts : Parts) → D.seen disk.old ≡ Some parts → D.seen disk.new ≡ Some (with_part parts Log (put parts.log 8 (body_bytes (body_of file.now ranges.now))))) }
    ensures no_shorter { D.size disk.old Log ≤ D.size disk.new Log }
    ensures beside { D.size disk.new Main ≡ D.size disk.old Main }
    ensures cause { HasCause (D.faults disk.old) (D.faults disk.new) result }
{
    let head = number_pair(file.len() as u64, ranges.len() as u64);
    let mut at = write_behind(disk, 8, &head)?;
    for range in ranges {
        at = lay_member(disk, at, file, *range)?;
    }
    Ok(())
}

/// Writes what is to be saved into the log, and waits until it is on the disk. A crash in between leaves the old file, and a log that
/// is not open.
pub fn lay<D: Disk>(disk: &mut D, file: &[u8], ranges: &[Range]) -> Result<(), Failed>
    requires { 8 ≤ D.size disk.old Log }
    ensures small { (length file.now < 2 ^ 64) × (length ranges.now < 2 ^ 64) }
    ensures any_moment { (parts : Parts) → AtRest D.seen D.may_leave disk.old parts → LeavesOnly D.moment D.left_since disk.old disk.new (IsShut parts.main) }
    ensures laid { OnOk result ((parts : Parts) → AtRest D.seen D.may_leave disk.old parts → (first : ℕ) × (first ≡ 1 → ⊥) × Lies D.seen D.may_leave disk.new parts.main (body_of file.now ranges.now) first) }
    ensures no_shorter { D.size disk.old Log ≤ D.size disk.new Log }
    ensures beside { D.size disk.new Main ≡ D.size disk.old Main }
    ensures cause { HasCause (D.faults disk.old) (D.faults disk.new) result }
{
    lay_members(disk, file, ranges)?;
    disk.sync()
}
