//! The commands on attributes and on their entries, as a session carries them out.

ghost use Rattle.std.specs.Prelude.{◌≡◌, ◌≤◌, length, IfOk, OnErr, IsTrue};
ghost use Rattle.cdf_area.specs.Calls.{Edits, Reads};
ghost use Rattle.cdf_edits.specs.Answers.{Answers};
ghost use Rattle.cdf_model.specs.Sayable.{CanBeGiven, Fit};
ghost use Rattle.cdf_model.specs.Turns.{is_refused};

use crate::session::{Session, settle};
use cdf_area::{Area, AreaError};
use cdf_model::{Command, DataType, EntryKind, Outcome, Scope, Words};

impl<A: Area> Session<A> {
    /// The command `attr`.
    pub(crate) fn attr(&mut self, name: &[u8], scope: Scope) -> Result<Outcome, AreaError>
        requires scope { CanBeGiven scope }
        ensures answers { IfOk result (λ o. Answers (A.frame self.old).limit (A.image self.old) (Command.Attr name.now scope) o (A.image self.new)) }
        ensures stays { OnErr result (A.image self.new ≡ A.image self.old) }
        ensures refused { IfOk result (λ o. IsTrue (is_refused o) → A.edited self.new ≡ A.edited self.old) }
        ensures area { Edits A.frame A.faults self.old self.new result }
    {
        self.kept.forget_view();
        self.area.mark();
        let done = self.attrs.create(&mut self.area, name, scope);
        settle(&mut self.area, done)
    }

    /// The command `rename-attr`.
    pub(crate) fn rename_attr(&mut self, from: &[u8], to: &[u8]) -> Result<Outcome, AreaError>
        ensures answers { IfOk result (λ o. Answers (A.frame self.old).limit (A.image self.old) (Command.RenameAttr from.now to.now) o (A.image self.new)) }
        ensures stays { OnErr result (A.image self.new ≡ A.image self.old) }
        ensures refused { IfOk result (λ o. IsTrue (is_refused o) → A.edited self.new ≡ A.edited self.old) }
        ensures area { Edits A.frame A.faults self.old self.new result }
    {
        self.kept.forget_view();
        self.area.mark();
        let done = self.attrs.rename(&mut self.area, from, to);
        settle(&mut self.area, done)
    }

    /// The command `del-attr`.
    pub(crate) fn del_attr(&mut self, name: &[u8]) -> Result<Outcome, AreaError>
        ensures answers { IfOk result (λ o. Answers (A.frame self.old).limit (A.image self.old) (Command.DelAttr name.now) o (A.image self.new)) }
        ensures stays { OnErr result (A.image self.new ≡ A.image self.old) }
        ensures refused { IfOk result (λ o. IsTrue (is_refused o) → A.edited self.new ≡ A.edited self.old) }
        ensures area { Edits A.frame A.faults self.old self.new result }
    {
        self.kept.forget_view();
        self.area.mark();
        let done = self.attrs.remove(&mut self.area, name);
        settle(&mut self.area, done)
    }

    /// The command `get-entry`.
    pub(crate) fn get_entry(
        &mut self,
        attr: &[u8],
        kind: EntryKind,
        num: u32,
    ) -> Result<Outcome, AreaError>
        ensures answers { IfOk result (λ o. Answers (A.frame self.old).limit (A.image self.old) (Command.GetEntry attr.now kind num) o (A.image self.new)) }
        ensures area { Reads A.image A.frame A.faults A.edited self.old self.new result }
    {
        self.attrs.get_entry(&mut self.area, attr, kind, num)
    }

    /// The command `del-entry`.
    pub(crate) fn del_entry(
        &mut self,
        attr: &[u8],
        kind: EntryKind,
        num: u32,
    ) -> Result<Outcome, AreaError>
        ensures answers { IfOk result (λ o. Answers (A.frame self.old).limit (A.image self.old) (Command.DelEntry attr.now kind num) o (A.image self.new)) }
        ensures stays { OnErr result (A.image self.new ≡ A.image self.old) }
        ensures refused { IfOk result (λ o. IsTrue (is_refused o) → A.edited self.new ≡ A.edited self.old) }
        ensures area { Edits A.frame A.faults self.old self.new result }
    {
        self.kept.forget_view();
        self.area.mark();
        let done = self.attrs.del_entry(&mut self.area, attr, kind, num);
        settle(&mut self.area, done)
    }

    /// The command `put-entry`.
    pub(crate) fn put_entry(
        &mut self,
        attr: &[u8],
        kind: EntryKind,
        num: u32,
        t: DataType,
        words: &Words,
    ) -> Result<Outcome, AreaError>
        requires some { 1 ≤ length words.now }
        requires fit { Fit words.now }
        ensures answers { IfOk result (λ o. Answers (A.frame self.old).limit (A.image self.old) (Command.PutEntry attr.now kind num t words.now) o (A.image self.new)) }
        ensures stays { OnErr result (A.image self.new ≡ A.image self.old) }
        ensures refused { IfOk result (λ o. IsTrue (is_refused o) → A.edited self.new ≡ A.edited self.old) }
        ensures area { Edits A.frame A.faults self.old self.new result }
    {
        self.kept.forget_view();
        self.area.mark();
        let done = self
            .attrs
            .put_entry(&mut self.area, attr, kind, num, t, words);
        settle(&mut self.area, done)
    }
}
