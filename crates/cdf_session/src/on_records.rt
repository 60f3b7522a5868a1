//! The commands on the records of a variable, as a session carries them out.

ghost use Rattle.std.specs.Prelude.{◌≡◌, IfOk, OnErr, IsTrue};
ghost use Rattle.cdf_area.specs.Calls.{Edits, Reads};
ghost use Rattle.cdf_edits.specs.Answers.{Answers};
ghost use Rattle.cdf_model.specs.Turns.{is_refused};

use crate::session::{Session, settle};
use cdf_area::{Area, AreaError};
use cdf_model::{Command, Nums, Outcome, Words};

impl<A: Area> Session<A> {
    /// The command `reindex`.
    pub(crate) fn reindex(&mut self, var: &[u8]) -> Result<Outcome, AreaError>
        ensures answers { IfOk result (λ o. Answers (A.frame self.old).limit (A.image self.old) (Command.Reindex var.now) o (A.image self.new)) }
        ensures stays { OnErr result (A.image self.new ≡ A.image self.old) }
        ensures refused { IfOk result (λ o. IsTrue (is_refused o) → A.edited self.new ≡ A.edited self.old) }
        ensures area { Edits A.frame A.faults self.old self.new result }
    {
        self.kept.forget();
        self.area.mark();
        let done = self.vars.reindex(&mut self.area, var);
        settle(&mut self.area, done)
    }

    /// The command `put-rec`.
    pub(crate) fn put_rec(
        &mut self,
        var: &[u8],
        rec: u32,
        words: &Words,
    ) -> Result<Outcome, AreaError>
        ensures answers { IfOk result (λ o. Answers (A.frame self.old).limit (A.image self.old) (Command.PutRec var.now rec words.now) o (A.image self.new)) }
        ensures stays { OnErr result (A.image self.new ≡ A.image self.old) }
        ensures refused { IfOk result (λ o. IsTrue (is_refused o) → A.edited self.new ≡ A.edited self.old) }
        ensures area { Edits A.frame A.faults self.old self.new result }
    {
        self.kept.forget_view();
        self.area.mark();
        let done = self
            .vars
            .put_rec(&mut self.area, &mut self.kept.starts, var, rec, words);
        settle(&mut self.area, done)
    }

    /// The command `get-rec`.
    pub(crate) fn get_rec(&mut self, var: &[u8], rec: u32) -> Result<Outcome, AreaError>
        ensures answers { IfOk result (λ o. Answers (A.frame self.old).limit (A.image self.old) (Command.GetRec var.now rec) o (A.image self.new)) }
        ensures area { Reads A.image A.frame A.faults A.edited self.old self.new result }
    {
        let kept = &mut self.kept;
        self.vars
            .get_rec(&mut self.area, &mut kept.starts, &mut kept.view, var, rec)
    }

    /// The command `put-val`.
    pub(crate) fn put_val(
        &mut self,
        var: &[u8],
        rec: u32,
        index: &Nums,
        words: &Words,
    ) -> Result<Outcome, AreaError>
        ensures answers { IfOk result (λ o. Answers (A.frame self.old).limit (A.image self.old) (Command.PutVal var.now rec index.now words.now) o (A.image self.new)) }
        ensures stays { OnErr result (A.image self.new ≡ A.image self.old) }
        ensures refused { IfOk result (λ o. IsTrue (is_refused o) → A.edited self.new ≡ A.edited self.old) }
        ensures area { Edits A.frame A.faults self.old self.new result }
    {
        self.kept.forget_view();
        self.area.mark();
        let done = self.vars.put_val(
            &mut self.area,
            &mut self.kept.starts,
            var,
            rec,
            index,
            words,
        );
        settle(&mut self.area, done)
    }

    /// The command `get-val`.
    pub(crate) fn get_val(
        &mut self,
        var: &[u8],
        rec: u32,
        index: &Nums,
    ) -> Result<Outcome, AreaError>
        ensures answers { IfOk result (λ o. Answers (A.frame self.old).limit (A.image self.old) (Command.GetVal var.now rec index.now) o (A.image self.new)) }
        ensures area { Reads A.image A.frame A.faults A.edited self.old self.new result }
    {
        let kept = &mut self.kept;
        self.vars.get_val(
            &mut self.area,
            &mut kept.starts,
            &mut kept.view,
            var,
            rec,
            index,
        )
    }
}
