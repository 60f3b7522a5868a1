//! A part of a disk read whole.

ghost use Rattle.std.specs.Prelude.{◌≡◌, ◌≤◌, ℕ, length, IfOk, IfSome, IsErrOf};
ghost use Rattle.cdf_base.specs.Causes.{HasCauseOf};
ghost use Rattle.cdf_journal.specs.declared.disk.Part.{Part};
ghost use Rattle.cdf_journal.specs.Crashes.{Leads, part_of};

use crate::slices::front;
use crate::{Disk, JournalError, Part};
use std::alloc::Global;

/// How many bytes are read at once.
const PIECE: usize = 65_536;

/// Reads a part whole.
pub fn read_part<D: Disk>(alloc: Global, disk: &mut D, part: Part) -> Result<Vec<u8>, JournalError>
    ensures length { IfOk result (λ bytes. length bytes.items ≡ D.size disk.old part) }
    ensures bytes { IfOk result (λ bytes. IfSome (D.seen disk.old) (λ parts. bytes.items ≡ part_of parts part)) }
    ensures seen { D.seen disk.new ≡ D.seen disk.old }
    ensures sizes { (other : Part) → D.size disk.new other ≡ D.size disk.old other }
    ensures leads { Leads D.may_leave D.moment D.left_since (λ a b. b ≡ a) disk.old disk.new }
    ensures journal { IsErrOf result JournalError.BadLog → ⊥ }
    ensures no_file { IsErrOf result JournalError.NoFile → ⊥ }
    ensures cause { HasCauseOf JournalError.Fault (D.faults disk.old) (D.faults disk.new) result }
{
    let size = disk.len(part);
    let mut bytes = Vec::with_capacity(alloc, size as usize)?;
    let mut piece = [0; PIECE];
    while (bytes.len() as u64) < size {
        let count = disk.read_at(part, bytes.len() as u64, &mut piece)?;
        bytes.extend_from_slice(front(&piece, count))?;
    }
    Ok(bytes)
}
