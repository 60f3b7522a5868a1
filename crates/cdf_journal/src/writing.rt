//! Bytes written so that they are on the disk.

ghost use Rattle.std.specs.Prelude.{◌≡◌, ◌≤◌, ◌+◌, length, OnOk, None, Some};
ghost use Rattle.cdf_base.specs.Bytes.{put};
ghost use Rattle.cdf_base.specs.Causes.{HasCause};
ghost use Rattle.cdf_journal.specs.declared.disk.Part.{Part};
ghost use Rattle.cdf_journal.specs.Crashes.{InPart, LeavesOnly, Only, Parts, Settles, Torn, part_of, with_part};

use crate::{Disk, Part};
use cdf_store::Failed;

/// Writes bytes into a part and waits until they are on the disk. A crash in between leaves any bytes where they go, and no others.
pub fn write_synced<D: Disk>(
    disk: &mut D,
    part: Part,
    place: u64,
    bytes: &[u8],
) -> Result<(), Failed>
    requires { place ≤ D.size disk.old part }
    ensures settled { OnOk result ((parts : Parts) → D.seen disk.old ≡ Some parts → Settles D.seen D.may_leave disk.new (with_part parts part (put (part_of parts part) place bytes.now))) }
    ensures any_moment { (parts : Parts) → Only parts (D.may_leave disk.old) → LeavesOnly D.moment D.left_since disk.old disk.new (InPart part (Torn place (length bytes.now)) parts) }
    ensures untold { OnOk result (D.seen disk.old ≡ None → D.seen disk.new ≡ None) }
    ensures reached { OnOk result (place + length bytes.now ≤ D.size disk.new part) }
    ensures no_shorter { D.size disk.old part ≤ D.size disk.new part }
    ensures beside { (other : Part) → (other ≡ part → ⊥) → D.size disk.new other ≡ D.size disk.old other }
    ensures cause { HasCause (D.faults disk.old) (D.faults disk.new) result }
{
    disk.write_at(part, place, bytes)?;
    disk.sync()
}
