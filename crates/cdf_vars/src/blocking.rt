//! The command `set-blocking`: a variable gets another blocking factor, which is how many records a new block is to hold.

ghost use Rattle.std.specs.Prelude.{◌≤◌, length, IfOk, OnOk, OnErr, ◌≡◌, IsTrue};
ghost use Rattle.cdf_area.specs.Calls.{Edits};
ghost use Rattle.cdf_edits.specs.Answers.{Answers};
ghost use Rattle.cdf_format.specs.WellFormed.{Good};
ghost use Rattle.cdf_model.specs.Limits.{image_limit};
ghost use Rattle.cdf_model.specs.Turns.{is_refused};
ghost use Rattle.cdf_model.specs.declared.command.Command.TheVariants.{SetBlocking};
ghost use Rattle.cdf_vars.specs.Known.{Knows};

use crate::vars::Vars;
use cdf_area::{Area, AreaError};
use cdf_model::limits::SIGNED_LIMIT;
use cdf_model::{Outcome, Reason, Reply};
use cdf_records::set_vdr_blocking_factor;

impl Vars {
    /// Says how many records a new block of a variable is to hold, 0 for the usual number: the command `set-blocking`. After an error a part of this may have been done
    /// in the area.
    pub fn set_blocking<A: Area>(
        &mut self,
        area: &mut A,
        name: &[u8],
        n: u32,
    ) -> Result<Outcome, AreaError>
        requires good { Good (A.image area.old) }
        requires known { Knows (A.image area.old) self.old }
        requires fits { length (A.image area.old) ≤ (A.frame area.old).limit }
        requires limit { (A.frame area.old).limit ≤ image_limit }
        ensures answers { IfOk result (λ o. Answers (A.frame area.old).limit (A.image area.old) (SetBlocking name.now n) o (A.image area.new)) }
        ensures known { OnOk result (Knows (A.image area.new) self.new) }
        ensures stays { OnErr result (Knows (A.image area.old) self.new) }
        ensures refused { IfOk result (λ o. IsTrue (is_refused o) → A.edited area.new ≡ A.edited area.old) }
        ensures area { Edits A.frame A.faults area.old area.new result }
    {
        let Some(found) = self.find(name) else {
            return Ok(Outcome::Refused {
                reason: Reason::NoSuchVar,
            });
        };
        if SIGNED_LIMIT < n {
            return Ok(Outcome::Refused {
                reason: Reason::NumberOutOfRange,
            });
        }
        set_vdr_blocking_factor(area, self.place_of(found), n as i32)?;
        Ok(Outcome::Done {
            reply: Reply::Plain,
        })
    }
}
