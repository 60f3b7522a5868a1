//! A file saved through its log.

ghost use Rattle.std.specs.Prelude.{◌≡◌, ◌≤◌, length, true, OnOk};
ghost use Rattle.cdf_base.specs.Causes.{HasCause};
ghost use Rattle.cdf_journal.specs.declared.disk.Part.TheVariants.{Log, Main};
ghost use Rattle.cdf_journal.specs.Crashes.{LeavesOnly, Parts};
ghost use Rattle.cdf_journal.specs.Log.{filled, fits};
ghost use Rattle.cdf_journal.specs.Opening.{Rests};
ghost use Rattle.cdf_journal.specs.Ranges.{body_of, members_of};
ghost use Rattle.cdf_journal.specs.Stages.{AtRest, IsOldOrNew};

use crate::{Disk, Range, arm, disarm, fill, lay};
use cdf_store::Failed;

/// Saves what a file is to have in these ranges, and its length: first into the log, which is then opened, then into the file, and
/// the log is shut. A crash at any moment leaves parts that are recovered to the old file or to the new one.
pub fn save<D: Disk>(disk: &mut D, file: &[u8], ranges: &[Range]) -> Result<(), Failed>
    requires room { 8 ≤ D.size disk.old Log }
    requires fit { fits (D.size disk.old Main) (length file.now) (members_of file.now ranges.now) ≡ true }
    ensures any_moment { (parts : Parts) → AtRest D.seen D.may_leave disk.old parts → LeavesOnly D.moment D.left_since disk.old disk.new (IsOldOrNew parts.main (filled parts.main (body_of file.now ranges.now))) }
    ensures saved { OnOk result ((parts : Parts) → AtRest D.seen D.may_leave disk.old parts → Rests D.seen D.may_leave disk.new (filled parts.main (body_of file.now ranges.now))) }
    ensures log { D.size disk.old Log ≤ D.size disk.new Log }
    ensures cause { HasCause (D.faults disk.old) (D.faults disk.new) result }
{
    lay(disk, file, ranges)?;
    arm(disk)?;
    fill(disk, file, ranges)?;
    disarm(disk)
}
