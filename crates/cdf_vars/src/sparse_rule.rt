//! The command `set-sparse`: a variable gets another rule for missing records.

ghost use Rattle.std.specs.Prelude.{◌≡◌, ◌≤◌, pos, length, IfOk, OnOk, IsTrue};
ghost use Rattle.cdf_area.specs.Calls.{Edits};
ghost use Rattle.cdf_edits.specs.Answers.{Answers};
ghost use Rattle.cdf_format.specs.WellFormed.{Good};
ghost use Rattle.cdf_model.specs.Limits.{image_limit};
ghost use Rattle.cdf_model.specs.Turns.{is_refused};
ghost use Rattle.cdf_model.specs.declared.command.Command.TheVariants.{SetSparse};
ghost use Rattle.cdf_sparse.specs.SetRule.{rule_code};
ghost use Rattle.cdf_vars.specs.Known.{Knows};

use crate::vars::Vars;
use cdf_area::{Area, AreaError};
use cdf_cuts::cut_end;
use cdf_model::{Outcome, Reason, Reply, Sparse};
use cdf_records::set_vdr_s_records;
use cdf_var_records::read_extent;

/// SRecords, as it is stored for a rule.
fn rule_code(rule: Sparse) -> i32
    ensures { result ≡ pos (rule_code rule) }
{
    match rule {
        Sparse::NoRule => 0,
        Sparse::Pad => 1,
        Sparse::Previous => 2,
    }
}

impl Vars {
    /// Sets the rule for missing records of a variable that has no records: the command `set-sparse`. Blocks that stand past MaxRec go, packed or
    /// not. After an error a part of this may have been done in the area.
    #[tactic(auto, using(cdf_area::proofs::Calls::edit_done, cdf_area::proofs::Calls::edit_failed, cdf_area::proofs::Calls::edit_more, cdf_area::proofs::Calls::edits_by_read, cdf_area::proofs::Calls::keeps_by_read, cdf_area::proofs::Calls::read_failed, cdf_area::proofs::Calls::read_more, cdf_area::proofs::Calls::read_once))]
    pub fn set_sparse<A: Area>(
        &self,
        area: &mut A,
        name: &[u8],
        rule: Sparse,
    ) -> Result<Outcome, AreaError>
        requires good { Good (A.image area.old) }
        requires known { Knows (A.image area.old) self.now }
        requires fits { length (A.image area.old) ≤ (A.frame area.old).limit }
        requires limit { (A.frame area.old).limit ≤ image_limit }
        ensures answers { IfOk result (λ o. Answers (A.frame area.old).limit (A.image area.old) (SetSparse name.now rule) o (A.image area.new)) }
        ensures known { OnOk result (Knows (A.image area.new) self.now) }
        ensures refused { IfOk result (λ o. IsTrue (is_refused o) → A.edited area.new ≡ A.edited area.old) }
        ensures area { Edits A.frame A.faults area.old area.new result }
    {
        let Some(found) = self.find(name) else {
            return Ok(Outcome::Refused {
                reason: Reason::NoSuchVar,
            });
        };
        let vdr = self.place_of(found);
        let count = read_extent(area, vdr)?;
        if count != 0 {
            return Ok(Outcome::Refused {
                reason: Reason::InUse,
            });
        }
        cut_end(self.alloc, area, vdr, 0)?;
        set_vdr_s_records(area, vdr, rule_code(rule))?;
        Ok(Outcome::Done {
            reply: Reply::Plain,
        })
    }
}
