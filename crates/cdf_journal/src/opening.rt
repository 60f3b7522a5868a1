//! A file attached with its log, mended, and read.

ghost use Rattle.std.specs.Prelude.{◌≡◌, ◌≤◌, length, string_bytes, is_some, false, IfOk, IfSome, IsErrOf, IsTrue, OnOk, Some};
ghost use Rattle.std.specs.Option.{ForSome};
ghost use Rattle.cdf_base.specs.Causes.{HasCauseOf};
ghost use Rattle.cdf_journal.specs.declared.disk.Part.TheVariants.{Log, Main};
ghost use Rattle.cdf_journal.specs.Crashes.{LeavesOnly, Parts, Settles};
ghost use Rattle.cdf_journal.specs.Log.{recovered};
ghost use Rattle.cdf_journal.specs.Opening.{IsBadLog, IsRecovered, Rests};

use crate::mending::mend;
use crate::reading::read_part;
use crate::{Disk, JournalError, Part};
use std::alloc::Global;

/// A file that was attached and mended: its name and its bytes.
#[derive(Drop)]
pub struct Mended {
    pub name: String,
    pub file: Vec<u8>,
}

/// Attaches a file and its log, mends the file, and reads it.
pub fn open_file<D: Disk>(
    alloc: Global,
    disk: &mut D,
    name: &str,
    make: bool,
) -> Result<Mended, JournalError>
    ensures name { IfOk result (λ mended. string_bytes mended.name ≡ name.now) }
    ensures any_moment { (parts : Parts) → Settles D.seen D.may_leave disk.old parts → LeavesOnly D.moment D.left_since disk.old disk.new (IsRecovered (recovered parts.main parts.log)) }
    ensures mended { IfOk result (λ mended. (parts : Parts) → Settles D.seen D.may_leave disk.old parts → mended.file.items ≡ recovered parts.main parts.log) }
    ensures rests { IfOk result (λ mended. (parts : Parts) → Settles D.seen D.may_leave disk.old parts → Rests D.seen D.may_leave disk.new mended.file.items) }
    ensures now { IfOk result (λ mended. ForSome (D.seen disk.new) (λ parts. parts.main ≡ mended.file.items)) }
    ensures length { IfOk result (λ mended. D.size disk.new Main ≡ length mended.file.items) }
    ensures room { OnOk result (8 ≤ D.size disk.new Log) }
    ensures refused { IsErrOf result JournalError.BadLog → IfSome (D.seen disk.old) (λ parts. IsBadLog parts.main parts.log) }
    ensures bad { OnOk result (ForSome (D.seen disk.old) (λ parts. IsBadLog parts.main parts.log → ⊥)) }
    ensures no_file { IsErrOf result JournalError.NoFile → (make ≡ false) × IfSome (D.seen disk.old) (λ _. D.there disk.old name.now ≡ false) }
    ensures there { OnOk result (make ≡ false → IfSome (D.seen disk.old) (λ _. IsTrue (D.there disk.old name.now))) }
    ensures cause { HasCauseOf JournalError.Fault (D.faults disk.old) (D.faults disk.new) result }
{
    let name_kept = String::from_str(alloc, name)?;
    if disk.attach(name, make)?.is_none() {
        return Err(JournalError::NoFile);
    }
    disk.sync()?;
    let mut file = read_part(alloc, disk, Part::Main)?;
    let log = read_part(alloc, disk, Part::Log)?;
    mend(alloc, disk, &log, &mut file)?;
    Ok(Mended {
        name: name_kept,
        file,
    })
}
