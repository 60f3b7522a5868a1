//! The commands on variables as such, as a session carries them out.

ghost use Rattle.std.specs.Prelude.{◌≡◌, length, IfOk, OnErr, IsTrue};
ghost use Rattle.cdf_area.specs.Calls.{Edits};
ghost use Rattle.cdf_edits.specs.Answers.{Answers};
ghost use Rattle.cdf_model.specs.Sayable.{Fit};
ghost use Rattle.cdf_model.specs.Turns.{is_refused};

use crate::deleting::delete_variable;
use crate::session::{Session, settle};
use cdf_area::{Area, AreaError};
use cdf_model::{Command, DataType, Nums, Outcome, Sparse, Varys, Words};

impl<A: Area> Session<A> {
    /// The command `rvar`.
    pub(crate) fn rvar(
        &mut self,
        name: &[u8],
        t: DataType,
        elems: u32,
        vary: bool,
        varys: &Varys,
    ) -> Result<Outcome, AreaError>
        ensures answers { IfOk result (λ o. Answers (A.frame self.old).limit (A.image self.old) (Command.RVar name.now t elems vary varys.now) o (A.image self.new)) }
        ensures stays { OnErr result (A.image self.new ≡ A.image self.old) }
        ensures refused { IfOk result (λ o. IsTrue (is_refused o) → A.edited self.new ≡ A.edited self.old) }
        ensures area { Edits A.frame A.faults self.old self.new result }
    {
        self.kept.forget();
        self.area.mark();
        let done = self
            .vars
            .create_r(&mut self.area, name, t, elems, vary, varys);
        settle(&mut self.area, done)
    }

    /// The command `zvar`.
    pub(crate) fn zvar(
        &mut self,
        name: &[u8],
        t: DataType,
        elems: u32,
        vary: bool,
        dims: &Nums,
        varys: &Varys,
    ) -> Result<Outcome, AreaError>
        ensures answers { IfOk result (λ o. Answers (A.frame self.old).limit (A.image self.old) (Command.ZVar name.now t elems vary dims.now varys.now) o (A.image self.new)) }
        ensures stays { OnErr result (A.image self.new ≡ A.image self.old) }
        ensures refused { IfOk result (λ o. IsTrue (is_refused o) → A.edited self.new ≡ A.edited self.old) }
        ensures area { Edits A.frame A.faults self.old self.new result }
    {
        self.kept.forget();
        self.area.mark();
        let done = self
            .vars
            .create_z(&mut self.area, name, t, elems, vary, dims, varys);
        settle(&mut self.area, done)
    }

    /// The command `rename-var`.
    pub(crate) fn rename_var(&mut self, from: &[u8], to: &[u8]) -> Result<Outcome, AreaError>
        ensures answers { IfOk result (λ o. Answers (A.frame self.old).limit (A.image self.old) (Command.RenameVar from.now to.now) o (A.image self.new)) }
        ensures stays { OnErr result (A.image self.new ≡ A.image self.old) }
        ensures refused { IfOk result (λ o. IsTrue (is_refused o) → A.edited self.new ≡ A.edited self.old) }
        ensures area { Edits A.frame A.faults self.old self.new result }
    {
        self.kept.forget();
        self.area.mark();
        let done = self.vars.rename(&mut self.area, from, to);
        settle(&mut self.area, done)
    }

    /// The command `del-var`.
    pub(crate) fn del_var(&mut self, name: &[u8]) -> Result<Outcome, AreaError>
        ensures answers { IfOk result (λ o. Answers (A.frame self.old).limit (A.image self.old) (Command.DelVar name.now) o (A.image self.new)) }
        ensures stays { OnErr result (A.image self.new ≡ A.image self.old) }
        ensures refused { IfOk result (λ o. IsTrue (is_refused o) → A.edited self.new ≡ A.edited self.old) }
        ensures area { Edits A.frame A.faults self.old self.new result }
    {
        self.kept.forget();
        self.area.mark();
        let done = delete_variable(&mut self.area, &mut self.attrs, &mut self.vars, name);
        settle(&mut self.area, done)
    }

    /// The command `set-pad`.
    pub(crate) fn set_pad(&mut self, var: &[u8], words: &Words) -> Result<Outcome, AreaError>
        requires one { length words.now ≡ 1 }
        requires fit { Fit words.now }
        ensures answers { IfOk result (λ o. Answers (A.frame self.old).limit (A.image self.old) (Command.SetPad var.now words.now) o (A.image self.new)) }
        ensures stays { OnErr result (A.image self.new ≡ A.image self.old) }
        ensures refused { IfOk result (λ o. IsTrue (is_refused o) → A.edited self.new ≡ A.edited self.old) }
        ensures area { Edits A.frame A.faults self.old self.new result }
    {
        self.kept.forget();
        self.area.mark();
        let done = self.vars.set_pad(&mut self.area, var, words);
        settle(&mut self.area, done)
    }

    /// The command `set-sparse`. What is kept of nodes is let go first, since each node of the variable may be freed.
    pub(crate) fn set_sparse(&mut self, var: &[u8], rule: Sparse) -> Result<Outcome, AreaError>
        ensures answers { IfOk result (λ o. Answers (A.frame self.old).limit (A.image self.old) (Command.SetSparse var.now rule) o (A.image self.new)) }
        ensures stays { OnErr result (A.image self.new ≡ A.image self.old) }
        ensures refused { IfOk result (λ o. IsTrue (is_refused o) → A.edited self.new ≡ A.edited self.old) }
        ensures area { Edits A.frame A.faults self.old self.new result }
    {
        self.kept.forget();
        self.area.mark();
        let done = self.vars.set_sparse(&mut self.area, var, rule);
        settle(&mut self.area, done)
    }

    /// The command `set-blocking`.
    pub(crate) fn set_blocking(&mut self, var: &[u8], n: u32) -> Result<Outcome, AreaError>
        ensures answers { IfOk result (λ o. Answers (A.frame self.old).limit (A.image self.old) (Command.SetBlocking var.now n) o (A.image self.new)) }
        ensures stays { OnErr result (A.image self.new ≡ A.image self.old) }
        ensures refused { IfOk result (λ o. IsTrue (is_refused o) → A.edited self.new ≡ A.edited self.old) }
        ensures area { Edits A.frame A.faults self.old self.new result }
    {
        self.kept.forget();
        self.area.mark();
        let done = self.vars.set_blocking(&mut self.area, var, n);
        settle(&mut self.area, done)
    }
}
