//! The command `setup`, as a session carries it out.

ghost use Rattle.std.specs.Prelude.{◌≡◌, IfOk, OnErr, IsTrue};
ghost use Rattle.cdf_area.specs.Calls.{Edits};
ghost use Rattle.cdf_edits.specs.Answers.{Answers};
ghost use Rattle.cdf_model.specs.Turns.{is_refused};

use crate::session::{Session, settle};
use cdf_area::{Area, AreaError};
use cdf_model::{Command, Majority, Nums, Outcome};
use cdf_vars::set_up;

impl<A: Area> Session<A> {
    /// The command `setup`.
    pub(crate) fn setup(
        &mut self,
        encoding: u32,
        majority: Majority,
        dims: &Nums,
    ) -> Result<Outcome, AreaError>
        ensures answers { IfOk result (λ o. Answers (A.frame self.old).limit (A.image self.old) (Command.Setup encoding majority dims.now) o (A.image self.new)) }
        ensures stays { OnErr result (A.image self.new ≡ A.image self.old) }
        ensures refused { IfOk result (λ o. IsTrue (is_refused o) → A.edited self.new ≡ A.edited self.old) }
        ensures area { Edits A.frame A.faults self.old self.new result }
    {
        self.kept.forget();
        self.area.mark();
        let done = set_up(self.alloc, &mut self.area, encoding, majority, dims);
        settle(&mut self.area, done)
    }
}
