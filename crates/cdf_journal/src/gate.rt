//! The gate of the log: its first byte, which opens it and shuts it.

ghost use Rattle.std.specs.Prelude.{◌≡◌, ◌≤◌, ◌+◌, ℕ, List, length, OnOk};
ghost use Rattle.cdf_base.specs.Causes.{HasCause};
ghost use Rattle.cdf_journal.specs.declared.disk.Part.TheVariants.{Log, Main};
ghost use Rattle.cdf_journal.specs.Crashes.{LeavesOnly};
ghost use Rattle.cdf_journal.specs.Log.{Body};
ghost use Rattle.cdf_journal.specs.Stages.{IsShutOrOpen, IsSmall, Lies};

use crate::{Disk, Part, write_synced};
use cdf_store::Failed;

/// Opens the log, and waits until that is on the disk. A crash in between leaves the same file, and a log that is not open or that
/// says what was laid.
pub fn arm<D: Disk>(disk: &mut D) -> Result<(), Failed>
    ensures any_moment { (main : List ℕ) (body : Body) (first : ℕ) → IsSmall body → Lies D.seen D.may_leave disk.old main body first → LeavesOnly D.moment D.left_since disk.old disk.new (IsShutOrOpen main body) }
    ensures armed { OnOk result ((main : List ℕ) (body : Body) (first : ℕ) → Lies D.seen D.may_leave disk.old main body first → Lies D.seen D.may_leave disk.new main body 1) }
    ensures no_shorter { D.size disk.old Log ≤ D.size disk.new Log }
    ensures beside { D.size disk.new Main ≡ D.size disk.old Main }
    ensures cause { HasCause (D.faults disk.old) (D.faults disk.new) result }
{
    write_synced(disk, Part::Log, 0, &[1])
}

/// Shuts the log, and waits until that is on the disk. A crash in between leaves the same file, and a log that is not open or that
/// says what was laid.
pub fn disarm<D: Disk>(disk: &mut D) -> Result<(), Failed>
    ensures any_moment { (main : List ℕ) (body : Body) (first : ℕ) → IsSmall body → Lies D.seen D.may_leave disk.old main body first → LeavesOnly D.moment D.left_since disk.old disk.new (IsShutOrOpen main body) }
    ensures disarmed { OnOk result ((main : List ℕ) (body : Body) (first : ℕ) → Lies D.seen D.may_leave disk.old main body first → Lies D.seen D.may_leave disk.new main body 0) }
    ensures no_shorter { D.size disk.old Log ≤ D.size disk.new Log }
    ensures beside { D.size disk.new Main ≡ D.size disk.old Main }
    ensures cause { HasCause (D.faults disk.old) (D.faults disk.new) result }
{
    write_synced(disk, Part::Log, 0, &[0])
}
