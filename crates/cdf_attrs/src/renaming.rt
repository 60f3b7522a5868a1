//! The command `rename-attr`: an attribute gets another name.

ghost use Rattle.std.specs.Prelude.{◌≤◌, length, IfOk, OnOk, OnErr, ◌≡◌, IsTrue};
ghost use Rattle.cdf_area.specs.Calls.{Edits};
ghost use Rattle.cdf_attrs.specs.Known.{Knows};
ghost use Rattle.cdf_edits.specs.Answers.{Answers};
ghost use Rattle.cdf_format.specs.WellFormed.{Good};
ghost use Rattle.cdf_model.specs.Limits.{image_limit};
ghost use Rattle.cdf_model.specs.Turns.{is_refused};
ghost use Rattle.cdf_model.specs.declared.command.Command.TheVariants.{RenameAttr};

use crate::attrs::Attrs;
use cdf_area::{Area, AreaError};
use cdf_model::{Bytes, Outcome, Reason, Reply};
use cdf_names::is_bad_name;
use cdf_records::set_adr_name;

impl Attrs {
    /// Gives an attribute another name: the command `rename-attr`. After an error a part of this may have been done in the area.
    pub fn rename<A: Area>(
        &mut self,
        area: &mut A,
        from: &[u8],
        to: &[u8],
    ) -> Result<Outcome, AreaError>
        requires good { Good (A.image area.old) }
        requires known { Knows (A.image area.old) self.old }
        requires fits { length (A.image area.old) ≤ (A.frame area.old).limit }
        requires limit { (A.frame area.old).limit ≤ image_limit }
        ensures answers { IfOk result (λ o. Answers (A.frame area.old).limit (A.image area.old) (RenameAttr from.now to.now) o (A.image area.new)) }
        ensures known { OnOk result (Knows (A.image area.new) self.new) }
        ensures stays { OnErr result (Knows (A.image area.old) self.new) }
        ensures refused { IfOk result (λ o. IsTrue (is_refused o) → A.edited area.new ≡ A.edited area.old) }
        ensures area { Edits A.frame A.faults area.old area.new result }
    {
        let Some(number) = self.names.find(from) else {
            return Ok(Outcome::Refused {
                reason: Reason::NoSuchAttr,
            });
        };
        if is_bad_name(to) {
            return Ok(Outcome::Refused {
                reason: Reason::BadName,
            });
        }
        if self.names.find(to).is_some() {
            return Ok(Outcome::Refused {
                reason: Reason::NameTaken,
            });
        }
        let last = self.names.len();
        self.names.add(Bytes::new(to.to_vec(self.alloc)?))?;
        self.entries.clear();
        self.order = None;
        let places = self.places.as_slice();
        match set_adr_name(area, places[number as usize], to) {
            Ok(()) => {
                self.names.last_to(number);
                Ok(Outcome::Done {
                    reply: Reply::Plain,
                })
            }
            Err(error) => {
                self.names.remove(last);
                Err(error)
            }
        }
    }
}
