//! What is said where no file was opened with its log.

ghost use Rattle.std.specs.Prelude.{◌≡◌, false};
ghost use Rattle.cdf_base.specs.Causes.{Rose};
ghost use Rattle.cdf_journal.specs.declared.journal_error.JournalError.TheVariants.{BadLog, Fault, NoFile};
ghost use Rattle.cdf_start.specs.Refusing.{EndsUnopened, SaysBadJournal};

use cdf_journal::JournalError;
use cdf_saving::Status;
use cdf_store::{Failed, Sink, write_all};
use cdf_tool::say_no_file;

/// Says that the log of the file is open, and is no journal of it.
fn say_bad_journal<O: Sink>(out: &mut O) -> Status
    ensures { SaysBadJournal (O.written out.old) (O.written out.new) result }
{
    match write_all(out, b"bad journal\n") {
        Ok(()) => Status::BadJournal,
        Err(Failed) => Status::OutputFault,
    }
}

/// Says why no file was opened with its log.
pub fn say_refused<O: Sink>(why: JournalError, out: &mut O) -> Status
    ensures { EndsUnopened (why ≡ NoFile) (why ≡ BadLog) (why ≡ Fault) (O.written out.old) (O.written out.new) result }
{
    match why {
        JournalError::NoFile => say_no_file(out),
        JournalError::BadLog => say_bad_journal(out),
        JournalError::Fault => Status::StoreReadFault,
        JournalError::NoMemory => Status::NoMemory,
    }
}
