//! The command `set-compress`: the records of a variable are packed from now on, or they are not.

ghost use Rattle.std.specs.Prelude.{◌≡◌, ◌≤◌, length, IfOk, OnOk, IsTrue, if◌then◌else◌};
ghost use Rattle.cdf_area.specs.Calls.{Edits};
ghost use Rattle.cdf_edits.specs.Answers.{Answers};
ghost use Rattle.cdf_format.specs.Records.{cpr_bytes};
ghost use Rattle.cdf_format.specs.WellFormed.{Good};
ghost use Rattle.cdf_model.specs.Limits.{image_limit};
ghost use Rattle.cdf_model.specs.Turns.{is_refused};
ghost use Rattle.cdf_model.specs.declared.command.Command.TheVariants.{SetCompress};
ghost use Rattle.cdf_vars.specs.Known.{Knows};

use crate::vars::Vars;
use cdf_area::{Area, AreaError};
use cdf_compress::set_compression;
use cdf_format::fields::CPR_SIZE;
use cdf_model::{Outcome, Reason, Reply};
use cdf_var_records::read_extent;

/// The bytes of the one parameter of run lengths of zeros.
const PARAMETER_SIZE: u64 = 4;

/// How many bytes the command may take: those of a compression parameters record, where records are to be packed.
fn room_of(rle: bool) -> u64
    ensures { result ≡ (if rle then cpr_bytes 1 else 0) }
{
    if rle { CPR_SIZE + PARAMETER_SIZE } else { 0 }
}

impl Vars {
    /// Sets whether the records of a variable are packed, which has no records: the command `set-compress`. Blocks that stand past MaxRec go.
    /// After an error a part of this may have been done in the area.
    #[tactic(auto, using(cdf_area::proofs::Calls::edit_done, cdf_area::proofs::Calls::edit_failed, cdf_area::proofs::Calls::edit_more, cdf_area::proofs::Calls::edits_by_read, cdf_area::proofs::Calls::keeps_by_read, cdf_area::proofs::Calls::read_failed, cdf_area::proofs::Calls::read_more, cdf_area::proofs::Calls::read_once))]
    pub fn set_compress<A: Area>(
        &self,
        area: &mut A,
        name: &[u8],
        rle: bool,
    ) -> Result<Outcome, AreaError>
        requires good { Good (A.image area.old) }
        requires known { Knows (A.image area.old) self.now }
        requires fits { length (A.image area.old) ≤ (A.frame area.old).limit }
        requires limit { (A.frame area.old).limit ≤ image_limit }
        ensures answers { IfOk result (λ o. Answers (A.frame area.old).limit (A.image area.old) (SetCompress name.now rle) o (A.image area.new)) }
        ensures known { OnOk result (Knows (A.image area.new) self.now) }
        ensures refused { IfOk result (λ o. IsTrue (is_refused o) → A.edited area.new ≡ A.edited area.old) }
        ensures area { Edits A.frame A.faults area.old area.new result }
    {
        let Some(found) = self.find(name) else {
            return Ok(Outcome::Refused {
                reason: Reason::NoSuchVar,
            });
        };
        let vdr = self.place_of(found);
        let count = read_extent(area, vdr)?;
        if count != 0 {
            return Ok(Outcome::Refused {
                reason: Reason::InUse,
            });
        }
        if area.limit() - area.size() < room_of(rle) {
            return Ok(Outcome::Refused {
                reason: Reason::TooLarge,
            });
        }
        set_compression(self.alloc, area, vdr, rle)?;
        Ok(Outcome::Done {
            reply: Reply::Plain,
        })
    }
}
