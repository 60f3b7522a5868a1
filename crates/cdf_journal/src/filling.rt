//! The ranges of a saving written into the file.

ghost use Rattle.std.specs.Prelude.{◌≡◌, ◌≤◌, length, true, OnOk, None, Some};
ghost use Rattle.cdf_base.specs.Causes.{HasCause};
ghost use Rattle.cdf_journal.specs.declared.disk.Part.TheVariants.{Log, Main};
ghost use Rattle.cdf_journal.specs.Crashes.{InPart, Leads, LeavesOnly, Parts, Settles, with_part};
ghost use Rattle.cdf_journal.specs.Log.{Grown, PartlyFilled, filled, fits, patched};
ghost use Rattle.cdf_journal.specs.Ranges.{body_of, members_of};

use crate::{Disk, Part, Range};
use cdf_store::Failed;

/// Writes what a file is to have in these ranges, one after the other.
fn write_ranges<D: Disk>(disk: &mut D, file: &[u8], ranges: &[Range]) -> Result<(), Failed>
    requires { fits (D.size disk.old Main) (length file.now) (members_of file.now ranges.now) ≡ true }
    ensures leads { Leads D.may_leave D.moment D.left_since (InPart Main (Grown (body_of file.now ranges.now))) disk.old disk.new }
    ensures seen { OnOk result ((parts : Parts) → D.seen disk.old ≡ Some parts → D.seen disk.new ≡ Some (with_part parts Main (patched parts.main (members_of file.now ranges.now)))) }
    ensures untold { OnOk result (D.seen disk.old ≡ None → D.seen disk.new ≡ None) }
    ensures reached { OnOk result (length file.now ≤ D.size disk.new Main) }
    ensures no_shorter { D.size disk.old Main ≤ D.size disk.new Main }
    ensures beside { D.size disk.new Log ≡ D.size disk.old Log }
    ensures cause { HasCause (D.faults disk.old) (D.faults disk.new) result }
{
    for range in ranges {
        disk.write_at(Part::Main, range.place_in(file), range.bytes_of(file))?;
    }
    Ok(())
}

/// Writes what a file is to have in these ranges, cuts it to its new length, and waits until that is on the disk. A crash in between
/// leaves the same log, and the old file but for these ranges, what is past its old end, and its length.
pub fn fill<D: Disk>(disk: &mut D, file: &[u8], ranges: &[Range]) -> Result<(), Failed>
    requires { fits (D.size disk.old Main) (length file.now) (members_of file.now ranges.now) ≡ true }
    ensures any_moment { (parts : Parts) → Settles D.seen D.may_leave disk.old parts → LeavesOnly D.moment D.left_since disk.old disk.new (λ c. (c.log ≡ parts.log) × PartlyFilled parts.main (body_of file.now ranges.now) c.main) }
    ensures settled { OnOk result ((parts : Parts) → D.seen disk.old ≡ Some parts → Settles D.seen D.may_leave disk.new (with_part parts Main (filled parts.main (body_of file.now ranges.now)))) }
    ensures beside { D.size disk.new Log ≡ D.size disk.old Log }
    ensures untold { OnOk result (D.seen disk.old ≡ None → D.seen disk.new ≡ None) }
    ensures length { OnOk result (D.size disk.new Main ≡ length file.now) }
    ensures cause { HasCause (D.faults disk.old) (D.faults disk.new) result }
{
    write_ranges(disk, file, ranges)?;
    disk.cut(Part::Main, file.len() as u64)?;
    disk.sync()
}
