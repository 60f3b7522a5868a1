//! What is kept of the records that were read last.

ghost use Rattle.std.specs.Prelude.{◌≡◌, ℕ, List, IfSome, None};
ghost use Rattle.cdf_vars.specs.Events.{KnowsView, ReadsFrom};

use crate::vars::VarId;
use cdf_var_records::{RecordReader, Unpacked};

/// A variable, and what is kept of it.
#[derive(Drop)]
struct LastRead {
    id: VarId,
    reader: RecordReader,
}

/// What is kept of the variable whose records were read last, so that the next one is found at once, and of the block that a record was shown of last.
#[derive(Drop)]
pub struct RecordView {
    last: Option<LastRead>,
    pub(crate) unpacked: Unpacked,
}

impl RecordView {
    /// Nothing is kept.
    pub fn new() -> RecordView
        ensures { (b : List ℕ) → KnowsView b result }
    {
        RecordView {
            last: None,
            unpacked: Unpacked::new(),
        }
    }

    /// Lets go what is kept.
    pub fn forget(&mut self)
        ensures { (b : List ℕ) → KnowsView b self.new }
    {
        self.last = None;
        self.unpacked.forget();
    }

    /// Gives up what is kept, if it is of this variable.
    pub(crate) fn take(&mut self, id: VarId) -> Option<RecordReader>
        ensures reader { (b : List ℕ) → KnowsView b self.old → IfSome result (ReadsFrom b id) }
        ensures left { self.new.last ≡ None }
        ensures unpacked { self.new.unpacked ≡ self.old.unpacked }
    {
        let last = self.last.take()?;
        if last.id == id {
            Some(last.reader)
        } else {
            None
        }
    }

    /// Keeps the reader of a variable.
    pub(crate) fn keep(&mut self, id: VarId, reader: RecordReader)
        ensures { (b : List ℕ) → ReadsFrom b id reader → KnowsView b self.old → KnowsView b self.new }
    {
        self.last = Some(LastRead { id, reader });
    }
}
