//! What a session keeps of the records of variables, so that the next one is found at once.

ghost use Rattle.std.specs.Prelude.{◌≡◌, ℕ, List};
ghost use Rattle.cdf_session.specs.Loading.{IsKept};
ghost use Rattle.cdf_vars.specs.Events.{KnowsView};

use cdf_puts::Starts;
use cdf_vars::RecordView;
use std::alloc::Global;

/// The nodes from which searches in indexes go on, and what is kept of the variable whose records were read last.
#[derive(Drop)]
pub struct Kept {
    pub starts: Starts,
    pub view: RecordView,
}

impl Kept {
    /// Nothing is kept.
    pub fn new(alloc: Global) -> Kept
        ensures { (b : List ℕ) → IsKept b result }
    {
        Kept {
            starts: Starts::new(alloc),
            view: RecordView::new(),
        }
    }

    /// Lets go all that is kept.
    pub fn forget(&mut self)
        ensures { (b : List ℕ) → IsKept b self.new }
    {
        self.starts.forget();
        self.view.forget();
    }

    /// Lets go what is kept of one variable.
    pub fn forget_view(&mut self)
        ensures view { (b : List ℕ) → KnowsView b self.new.view }
        ensures starts { self.new.starts ≡ self.old.starts }
    {
        self.view.forget();
    }
}
