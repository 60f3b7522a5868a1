//! A file under edit, and the commands that are carried out on it.

ghost use Rattle.std.specs.Prelude.{◌≡◌, ◌≤◌, [], length, true, IsSome, IfOk, IfErr, OnOk, OnErr, Some, None, IsTrue};
ghost use Rattle.cdf_area.specs.Calls.{Edits, Reads};
ghost use Rattle.cdf_area.specs.Frame.{with_base};
ghost use Rattle.cdf_edits.specs.Answers.{Answers};
ghost use Rattle.cdf_edits.specs.Follows.{only_reads};
ghost use Rattle.cdf_format.specs.NewFile.{new_image, new_size};
ghost use Rattle.cdf_format.specs.Owners.{space_of as taken_by};
ghost use Rattle.cdf_format.specs.Shape.{shape};
ghost use Rattle.cdf_format.specs.Sealed.{sealed};
ghost use Rattle.cdf_format.specs.WellFormed.{Good, WellFormed};
ghost use Rattle.cdf_model.specs.Limits.{image_limit};
ghost use Rattle.cdf_model.specs.Sayable.{Sayable};
ghost use Rattle.cdf_model.specs.Turns.{is_refused};
ghost use Rattle.cdf_model.specs.declared.answer.LineError.TheVariants.{UnknownWord};
ghost use Rattle.cdf_model.specs.declared.answer.Outcome.TheVariants.{Refused};
ghost use Rattle.cdf_model.specs.declared.answer.Reason.TheVariants.{BadLine};
ghost use Rattle.cdf_session.specs.Built.{built, is_applied};
ghost use Rattle.cdf_session.specs.Loading.{IsKept};
ghost use Rattle.cdf_session.specs.Seals.{seal_of};
ghost use Rattle.cdf_session.specs.Sessions.{Adopts, AnswersBuilt, Begins, IsOpen, IsNoVerdict, Rejects};

use crate::adopting::take_up;
use crate::checksum::{read_seal, set_checksum};
use crate::kept::Kept;
use crate::new_file::write_new;
use crate::reading::read_head;
use crate::refusal::{AdoptError, Refusal};
use cdf_area::{Area, AreaError};
use cdf_attrs::Attrs;
use cdf_check::check;
use cdf_model::{Command, Items, LineError, Outcome, Reason, Reply, Space};
use cdf_space::space_of;
use cdf_vars::Vars;
use std::alloc::Global;
use std::marker::Model;

/// A file under edit, in an area that ends at its eof.
#[derive(Drop)]
pub struct Session<A: Area> {
    pub(crate) alloc: Global,
    pub(crate) area: A,
    pub(crate) attrs: Attrs,
    pub(crate) vars: Vars,
    pub(crate) kept: Kept,
}

impl<A: Area> Model for Session<A> {
    ghost Value = { A };

    ghost view = { λ session. session.area };

    ghost invariant = { λ session. IsOpen (A.image session.area) (A.frame session.area) session.attrs session.vars × IsKept (A.image session.area) session.kept };
}

/// Ends what began at the mark: a command that was carried out is kept, and after an error all is taken back.
pub(crate) fn settle<A: Area>(
    area: &mut A,
    done: Result<Outcome, AreaError>,
) -> Result<Outcome, AreaError>
    requires marked { IsSome (A.frame area.old).base }
    ensures same { result ≡ done }
    ensures kept { OnOk done (A.image area.new ≡ A.image area.old) }
    ensures undone { OnErr done ((A.frame area.old).base ≡ Some (A.image area.new)) }
    ensures frame { A.frame area.new ≡ with_base (A.frame area.old) None }
    ensures edited { A.edited area.new ≡ A.edited area.old }
    ensures faults { A.faults area.new ≡ A.faults area.old }
{
    match &done {
        Ok(_) => area.keep(),
        Err(_) => area.undo(),
    }
    done
}

/// What is answered to a command that there is not yet.
fn unknown_word() -> Outcome
    ensures { result ≡ Refused (BadLine (UnknownWord 0)) }
{
    Outcome::Refused {
        reason: Reason::BadLine {
            fault: LineError::UnknownWord { at: 0 },
        },
    }
}

impl<A: Area> Session<A> {
    /// Takes up the file that an area holds, with its trailer, which is dropped.
    pub fn adopt(alloc: Global, area: A) -> Result<Session<A>, Refusal<A>>
        requires unmarked { (A.frame area).base ≡ None }
        requires limit { (A.frame area).limit ≡ image_limit }
        ensures adopted { IfOk result (λ session. Adopts (A.image area) (A.image session)) }
        ensures unedited { IfOk result (λ session. A.edited session ≡ A.edited area) }
        ensures rejected { IfErr result (λ r. Rejects (A.image area) r.why) }
        ensures area { Begins A.image A.frame A.faults area result }
    {
        let mut area = area;
        match check(alloc, &mut area) {
            Ok(None) => Session::open(alloc, area),
            Ok(Some(broken)) => Err(Refusal {
                area,
                why: AdoptError::Rejected { broken },
            }),
            Err(error) => Err(Refusal {
                area,
                why: AdoptError::Failed { error },
            }),
        }
    }

    /// Takes up a well-formed file.
    fn open(alloc: Global, area: A) -> Result<Session<A>, Refusal<A>>
        requires well_formed { WellFormed (A.image area) }
        requires unmarked { (A.frame area).base ≡ None }
        requires limit { (A.frame area).limit ≡ image_limit }
        ensures adopted { IfOk result (λ session. Adopts (A.image area) (A.image session)) }
        ensures unedited { IfOk result (λ session. A.edited session ≡ A.edited area) }
        ensures not_rejected { IfErr result (λ r. IsNoVerdict r.why) }
        ensures area { Begins A.image A.frame A.faults area result }
    {
        let mut area = area;
        match take_up(alloc, &mut area) {
            Ok(loaded) => Ok(Session {
                alloc,
                area,
                attrs: loaded.attrs,
                vars: loaded.vars,
                kept: Kept::new(alloc),
            }),
            Err(error) => Err(Refusal {
                area,
                why: AdoptError::Failed { error },
            }),
        }
    }

    /// Makes a new file in an empty area.
    pub fn create(alloc: Global, area: A) -> Result<Session<A>, Refusal<A>>
        requires empty { A.image area ≡ [] }
        requires unmarked { (A.frame area).base ≡ None }
        requires room { new_size ≤ (A.frame area).limit }
        requires limit { (A.frame area).limit ≤ image_limit }
        ensures created { IfOk result (λ session. A.image session ≡ new_image) }
        ensures not_rejected { IfErr result (λ r. IsNoVerdict r.why) }
        ensures area { Begins A.image A.frame A.faults area result }
    {
        let mut area = area;
        area.mark();
        match write_new(alloc, &mut area) {
            Ok(loaded) => {
                area.keep();
                Ok(Session {
                    alloc,
                    area,
                    attrs: loaded.attrs,
                    vars: loaded.vars,
                    kept: Kept::new(alloc),
                })
            }
            Err(error) => {
                area.undo();
                Err(Refusal {
                    area,
                    why: AdoptError::Failed { error },
                })
            }
        }
    }

    /// Carries out a command that comes to an outcome. One that there is not yet is a word that is not known. After a refusal and after an
    /// error the image is as before, and a command that is refused is no edit.
    #[rattlefmt::skip]
    pub fn apply(&mut self, command: &Command) -> Result<Outcome, AreaError>
        requires sayable { Sayable command.now }
        requires applied { is_applied command.now ≡ true }
        ensures answers { IfOk result (λ o. AnswersBuilt (built command.now) (A.frame self.old).limit (A.image self.old) command.now o (A.image self.new)) }
        ensures stays { OnErr result (A.image self.new ≡ A.image self.old) }
        ensures unedited { only_reads command.now ≡ true → A.edited self.new ≡ A.edited self.old }
        ensures refused { IfOk result (λ o. IsTrue (is_refused o) → A.edited self.new ≡ A.edited self.old) }
        ensures area { Edits A.frame A.faults self.old self.new result }
    {
        match command {
            Command::Info => self.info(),
            Command::List => self.list(),
            Command::Checksum { md5 } => self.checksum(*md5),
            Command::Attr { name, scope } => self.attr(name.as_slice(), *scope),
            Command::RenameAttr { from, to } => self.rename_attr(from.as_slice(), to.as_slice()),
            Command::DelAttr { name } => self.del_attr(name.as_slice()),
            Command::GetEntry { attr, kind, num } => self.get_entry(attr.as_slice(), *kind, *num),
            Command::DelEntry { attr, kind, num } => self.del_entry(attr.as_slice(), *kind, *num),
            Command::PutEntry { attr, kind, num, t, words } => self.put_entry(attr.as_slice(), *kind, *num, *t, words),
            Command::Setup { encoding, majority, dims } => self.setup(*encoding, *majority, dims),
            Command::RVar { name, t, elems, vary, varys } => self.rvar(name.as_slice(), *t, *elems, *vary, varys),
            Command::ZVar { name, t, elems, vary, dims, varys } => self.zvar(name.as_slice(), *t, *elems, *vary, dims, varys),
            Command::RenameVar { from, to } => self.rename_var(from.as_slice(), to.as_slice()),
            Command::DelVar { name } => self.del_var(name.as_slice()),
            Command::SetPad { var, words } => self.set_pad(var.as_slice(), words),
            Command::SetSparse { var, rule } => self.set_sparse(var.as_slice(), *rule),
            Command::SetBlocking { var, n } => self.set_blocking(var.as_slice(), *n),
            Command::Reindex { var } => self.reindex(var.as_slice()),
            Command::DelRecs { var, first, last } => self.del_recs(var.as_slice(), *first, *last),
            Command::PutRec { var, rec, words } => self.put_rec(var.as_slice(), *rec, words),
            Command::GetRec { var, rec } => self.get_rec(var.as_slice(), *rec),
            Command::PutVal { var, rec, index, words } => self.put_val(var.as_slice(), *rec, index, words),
            Command::GetVal { var, rec, index } => self.get_val(var.as_slice(), *rec, index),
            _ => Ok(unknown_word()),
        }
    }

    /// The command `info`.
    fn info(&mut self) -> Result<Outcome, AreaError>
        ensures answers { IfOk result (λ o. Answers (A.frame self.old).limit (A.image self.old) Command.Info o (A.image self.new)) }
        ensures area { Reads A.image A.frame A.faults A.edited self.old self.new result }
    {
        let head = read_head(self.alloc, &mut self.area)?;
        Ok(Outcome::Done {
            reply: Reply::Head { head },
        })
    }

    /// The command `list`.
    fn list(&mut self) -> Result<Outcome, AreaError>
        ensures answers { IfOk result (λ o. Answers (A.frame self.old).limit (A.image self.old) Command.List o (A.image self.new)) }
        ensures area { Reads A.image A.frame A.faults A.edited self.old self.new result }
    {
        let mut items = self.attrs.items(&mut self.area)?;
        self.vars.push_items(&mut self.area, &mut items)?;
        Ok(Outcome::Done {
            reply: Reply::Listing {
                items: Items::new(items),
            },
        })
    }

    /// What the records of the image take.
    pub fn space(&mut self) -> Result<Space, AreaError>
        ensures value { IfOk result (λ space. space ≡ taken_by (A.image self.old) (shape (A.image self.old))) }
        ensures area { Reads A.image A.frame A.faults A.edited self.old self.new result }
    {
        space_of(&mut self.area)
    }

    /// The command `checksum`.
    fn checksum(&mut self, md5: bool) -> Result<Outcome, AreaError>
        ensures answers { IfOk result (λ o. Answers (A.frame self.old).limit (A.image self.old) (Command.Checksum md5) o (A.image self.new)) }
        ensures stays { OnErr result (A.image self.new ≡ A.image self.old) }
        ensures refused { IfOk result (λ o. IsTrue (is_refused o) → A.edited self.new ≡ A.edited self.old) }
        ensures area { Edits A.frame A.faults self.old self.new result }
    {
        self.kept.forget_view();
        set_checksum(&mut self.area, md5)?;
        Ok(Outcome::Done {
            reply: Reply::Plain,
        })
    }

    /// The checksum that is to stand behind the image: none where no checksum is in use, else its MD5.
    pub fn seal(&mut self) -> Result<Option<[u8; 16]>, AreaError>
        ensures seal { IfOk result (λ seal. seal ≡ seal_of (A.image self.old)) }
        ensures area { Reads A.image A.frame A.faults A.edited self.old self.new result }
    {
        read_seal(&mut self.area)
    }

    /// The area with the image as it is.
    pub fn into_area(self) -> A
        ensures area { result ≡ self }
        ensures good { Good (A.image result) }
        ensures well_formed { WellFormed (sealed (A.image result)) }
        ensures fits { length (A.image result) ≤ image_limit }
    {
        self.area
    }
}
