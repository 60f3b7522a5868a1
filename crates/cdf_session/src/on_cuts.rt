//! The command that takes records out of a variable, as a session carries it out.

ghost use Rattle.std.specs.Prelude.{◌≡◌, IfOk, OnErr, IsTrue};
ghost use Rattle.cdf_area.specs.Calls.{Edits};
ghost use Rattle.cdf_edits.specs.Answers.{Answers};
ghost use Rattle.cdf_model.specs.Turns.{is_refused};

use crate::session::{Session, settle};
use cdf_area::{Area, AreaError};
use cdf_model::{Command, Outcome};

impl<A: Area> Session<A> {
    /// The command `del-recs`. What is kept of nodes is let go first, since one of them may be freed.
    pub(crate) fn del_recs(
        &mut self,
        var: &[u8],
        first: u32,
        last: u32,
    ) -> Result<Outcome, AreaError>
        ensures answers { IfOk result (λ o. Answers (A.frame self.old).limit (A.image self.old) (Command.DelRecs var.now first last) o (A.image self.new)) }
        ensures stays { OnErr result (A.image self.new ≡ A.image self.old) }
        ensures refused { IfOk result (λ o. IsTrue (is_refused o) → A.edited self.new ≡ A.edited self.old) }
        ensures area { Edits A.frame A.faults self.old self.new result }
    {
        self.kept.forget();
        self.area.mark();
        let done = self.vars.del_recs(&mut self.area, var, first, last);
        settle(&mut self.area, done)
    }
}
