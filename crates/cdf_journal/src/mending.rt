//! A file that is mended by its log.

ghost use Rattle.std.specs.Prelude.{◌≡◌, ◌≤◌, ℕ, List, length, true, None, OnOk, IsErrOf};
ghost use Rattle.std.specs.Option.{ForSome};
ghost use Rattle.cdf_base.specs.Causes.{HasCauseOf};
ghost use Rattle.cdf_journal.specs.declared.disk.Part.TheVariants.{Log, Main};
ghost use Rattle.cdf_journal.specs.Crashes.{LeavesOnly, Parts, Settles};
ghost use Rattle.cdf_journal.specs.Log.{is_open, journal_for, recovered};
ghost use Rattle.cdf_journal.specs.Opening.{IsBadLog, IsRecovered, Rests};

use crate::filling::fill;
use crate::loading::load;
use crate::{Disk, JournalError, Part, write_synced};
use std::alloc::Global;

/// Whether a log is open.
fn is_log_open(log: &[u8]) -> bool
    ensures { result ≡ is_open log.now }
{
    log.len() > 8 && log[0] == 1
}

/// Writes what an open log says into its file, on the disk and in memory, and shuts the log.
fn replay<D: Disk>(
    alloc: Global,
    disk: &mut D,
    log: &[u8],
    file: &mut Vec<u8>,
) -> Result<(), JournalError>
    requires open { is_open log.now ≡ true }
    requires main { D.size disk.old Main ≡ length file.old.items }
    requires log { D.size disk.old Log ≡ length log.now }
    ensures any_moment { Settles D.seen D.may_leave disk.old (record { main = file.old.items; log = log.now }) → LeavesOnly D.moment D.left_since disk.old disk.new (IsRecovered (recovered file.old.items log.now)) }
    ensures mended { OnOk result (file.new.items ≡ recovered file.old.items log.now) }
    ensures rests { OnOk result (Settles D.seen D.may_leave disk.old (record { main = file.old.items; log = log.now }) → Rests D.seen D.may_leave disk.new file.new.items) }
    ensures now { OnOk result (((parts : Parts) → D.seen disk.old ≡ Some parts → parts.main ≡ file.old.items) → ForSome (D.seen disk.new) (λ parts. parts.main ≡ file.new.items)) }
    ensures length { OnOk result (D.size disk.new Main ≡ length file.new.items) }
    ensures room { OnOk result (8 ≤ D.size disk.new Log) }
    ensures refused { IsErrOf result JournalError.BadLog → journal_for file.old.items log.now ≡ None }
    ensures bad { OnOk result (journal_for file.old.items log.now ≡ None → ⊥) }
    ensures no_file { IsErrOf result JournalError.NoFile → ⊥ }
    ensures cause { HasCauseOf JournalError.Fault (D.faults disk.old) (D.faults disk.new) result }
{
    let mut ranges = Vec::new(alloc);
    let is_journal = load(log, file, &mut ranges)?;
    if !is_journal {
        return Err(JournalError::BadLog);
    }
    fill(disk, file, &ranges)?;
    write_synced(disk, Part::Log, 0, &[0])?;
    Ok(())
}

/// Makes a log of at most 8 bytes ready, which is not open.
fn ready<D: Disk>(disk: &mut D, log: &[u8]) -> Result<(), JournalError>
    requires short { length log.now ≤ 8 }
    requires log { D.size disk.old Log ≡ length log.now }
    ensures any_moment { (parts : Parts) → Settles D.seen D.may_leave disk.old parts → parts.log ≡ log.now → LeavesOnly D.moment D.left_since disk.old disk.new (IsRecovered parts.main) }
    ensures rests { OnOk result ((parts : Parts) → Settles D.seen D.may_leave disk.old parts → parts.log ≡ log.now → Rests D.seen D.may_leave disk.new parts.main) }
    ensures now { OnOk result ((main : List ℕ) → ((parts : Parts) → D.seen disk.old ≡ Some parts → parts.main ≡ main) → ForSome (D.seen disk.new) (λ parts. parts.main ≡ main)) }
    ensures beside { D.size disk.new Main ≡ D.size disk.old Main }
    ensures room { OnOk result (8 ≤ D.size disk.new Log) }
    ensures cause { HasCauseOf JournalError.Fault (D.faults disk.old) (D.faults disk.new) result }
    ensures fault { IsErrOf result JournalError.BadLog → ⊥ }
    ensures no_file { IsErrOf result JournalError.NoFile → ⊥ }
{
    write_synced(disk, Part::Log, 0, &[0; 8])?;
    Ok(())
}

/// Writes what an open log says into its file, and makes a short log ready. Then the log is not open.
pub fn mend<D: Disk>(
    alloc: Global,
    disk: &mut D,
    log: &[u8],
    file: &mut Vec<u8>,
) -> Result<(), JournalError>
    requires main { D.size disk.old Main ≡ length file.old.items }
    requires log { D.size disk.old Log ≡ length log.now }
    ensures any_moment { Settles D.seen D.may_leave disk.old (record { main = file.old.items; log = log.now }) → LeavesOnly D.moment D.left_since disk.old disk.new (IsRecovered (recovered file.old.items log.now)) }
    ensures mended { OnOk result (file.new.items ≡ recovered file.old.items log.now) }
    ensures rests { OnOk result (Settles D.seen D.may_leave disk.old (record { main = file.old.items; log = log.now }) → Rests D.seen D.may_leave disk.new file.new.items) }
    ensures now { OnOk result (((parts : Parts) → D.seen disk.old ≡ Some parts → parts.main ≡ file.old.items) → ForSome (D.seen disk.new) (λ parts. parts.main ≡ file.new.items)) }
    ensures length { OnOk result (D.size disk.new Main ≡ length file.new.items) }
    ensures room { OnOk result (8 ≤ D.size disk.new Log) }
    ensures refused { IsErrOf result JournalError.BadLog → IsBadLog file.old.items log.now }
    ensures bad { OnOk result (IsBadLog file.old.items log.now → ⊥) }
    ensures no_file { IsErrOf result JournalError.NoFile → ⊥ }
    ensures cause { HasCauseOf JournalError.Fault (D.faults disk.old) (D.faults disk.new) result }
{
    if is_log_open(log) {
        replay(alloc, disk, log, file)
    } else if log.len() <= 8 {
        ready(disk, log)
    } else {
        Ok(())
    }
}
