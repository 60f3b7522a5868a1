//! The commands `get-rec` and `get-val`: a record of a variable, or one value of it, is shown as it reads.

ghost use Rattle.std.specs.Prelude.{◌≡◌, ◌≤◌, ◌+◌, length, take, drop, IfOk};
ghost use Rattle.cdf_area.specs.Calls.{Reads};
ghost use Rattle.cdf_edits.specs.Answers.{Answers};
ghost use Rattle.cdf_format.specs.WellFormed.{Good};
ghost use Rattle.cdf_model.specs.Limits.{image_limit};
ghost use Rattle.cdf_model.specs.declared.command.Command.TheVariants.{GetRec, GetVal};
ghost use Rattle.cdf_puts.specs.Starts.{KnowsStarts};
ghost use Rattle.cdf_vars.specs.Events.{KnowsView};
ghost use Rattle.cdf_vars.specs.Known.{Knows};
ghost use Rattle.cdf_vars.specs.Records.{Sees};

use crate::record_view::RecordView;
use crate::vars::Vars;
use cdf_area::{Area, AreaError};
use cdf_model::limits::RECORD_NUMBER_LIMIT;
use cdf_model::{Bytes, Nums, Outcome, Reason, Reply};
use cdf_puts::Starts;
use cdf_shape::place_of;
use cdf_var_records::{Form, read_form, read_majority, read_record, value_size};
use std::alloc::{AllocError, Global};

/// What a command on records finds of its variable.
#[derive(Drop)]
pub enum Sought {
    /// Its records are laid out so.
    Found { form: Form },
    /// There is no such variable.
    Missing,
}

/// So many bytes of some from a place on.
fn piece(alloc: Global, bytes: &[u8], at: u64, count: u64) -> Result<Vec<u8>, AllocError>
    requires { at + count ≤ length bytes.now }
    ensures { IfOk result (λ piece. piece.items ≡ take count (drop at bytes.now)) }
{
    let end = at + count;
    bytes[at as usize..end as usize].to_vec(alloc)
}

impl Vars {
    /// How the records of the variable of a name are laid out.
    fn find_form<A: Area>(&self, area: &mut A, name: &[u8]) -> Result<Sought, AreaError>
        requires good { Good (A.image area.old) }
        requires known { Knows (A.image area.old) self.now }
        ensures form { IfOk result (Sees (A.image area.old) name.now) }
        ensures area { Reads A.image A.frame A.faults A.edited area.old area.new result }
    {
        let Some(id) = self.find(name) else {
            return Ok(Sought::Missing);
        };
        let vdr = self.place_of(id);
        let form = read_form(self.alloc, area, id.kind, vdr)?;
        Ok(Sought::Found { form })
    }

    /// Shows a record of a variable: the command `get-rec`.
    #[tactic(auto, using(cdf_area::proofs::Calls::read_done, cdf_area::proofs::Calls::read_failed, cdf_area::proofs::Calls::read_more, cdf_area::proofs::Calls::read_once))]
    pub fn get_rec<A: Area>(
        &self,
        area: &mut A,
        starts: &mut Starts,
        view: &mut RecordView,
        name: &[u8],
        rec: u32,
    ) -> Result<Outcome, AreaError>
        requires good { Good (A.image area.old) }
        requires known { Knows (A.image area.old) self.now }
        requires starts { KnowsStarts (A.image area.old) starts.old }
        requires view { KnowsView (A.image area.old) view.old }
        requires fits { length (A.image area.old) ≤ (A.frame area.old).limit }
        requires limit { (A.frame area.old).limit ≤ image_limit }
        ensures answers { IfOk result (λ o. Answers (A.frame area.old).limit (A.image area.old) (GetRec name.now rec) o (A.image area.new)) }
        ensures starts { KnowsStarts (A.image area.old) starts.new }
        ensures view { KnowsView (A.image area.old) view.new }
        ensures area { Reads A.image A.frame A.faults A.edited area.old area.new result }
    {
        let form = match self.find_form(area, name)? {
            Sought::Found { form } => form,
            Sought::Missing => {
                return Ok(Outcome::Refused {
                    reason: Reason::NoSuchVar,
                });
            }
        };
        if RECORD_NUMBER_LIMIT < rec {
            return Ok(Outcome::Refused {
                reason: Reason::RecordOutOfRange,
            });
        }
        let known = starts.find_start(area, form.place.vdr, rec)?;
        let record = read_record(self.alloc, area, &mut view.unpacked, &form, known, rec)?;
        Ok(Outcome::Done {
            reply: Reply::Values {
                t: form.shape.t,
                elems: form.shape.elems,
                bytes: Bytes::new(record),
            },
        })
    }

    /// Shows one value of a record of a variable: the command `get-val`.
    #[tactic(auto, using(cdf_area::proofs::Calls::read_done, cdf_area::proofs::Calls::read_failed, cdf_area::proofs::Calls::read_more, cdf_area::proofs::Calls::read_once, cdf_area::proofs::Calls::read_without_memory))]
    pub fn get_val<A: Area>(
        &self,
        area: &mut A,
        starts: &mut Starts,
        view: &mut RecordView,
        name: &[u8],
        rec: u32,
        index: &Nums,
    ) -> Result<Outcome, AreaError>
        requires good { Good (A.image area.old) }
        requires known { Knows (A.image area.old) self.now }
        requires starts { KnowsStarts (A.image area.old) starts.old }
        requires view { KnowsView (A.image area.old) view.old }
        requires fits { length (A.image area.old) ≤ (A.frame area.old).limit }
        requires limit { (A.frame area.old).limit ≤ image_limit }
        ensures answers { IfOk result (λ o. Answers (A.frame area.old).limit (A.image area.old) (GetVal name.now rec index.now) o (A.image area.new)) }
        ensures starts { KnowsStarts (A.image area.old) starts.new }
        ensures view { KnowsView (A.image area.old) view.new }
        ensures area { Reads A.image A.frame A.faults A.edited area.old area.new result }
    {
        let form = match self.find_form(area, name)? {
            Sought::Found { form } => form,
            Sought::Missing => {
                return Ok(Outcome::Refused {
                    reason: Reason::NoSuchVar,
                });
            }
        };
        let majority = read_majority(area)?;
        let Some(number) = place_of(&form.shape, majority, index.as_slice()) else {
            return Ok(Outcome::Refused {
                reason: Reason::IndexOutOfRange,
            });
        };
        if RECORD_NUMBER_LIMIT < rec {
            return Ok(Outcome::Refused {
                reason: Reason::RecordOutOfRange,
            });
        }
        let known = starts.find_start(area, form.place.vdr, rec)?;
        let record = read_record(self.alloc, area, &mut view.unpacked, &form, known, rec)?;
        let size = value_size(&form.shape);
        let value = piece(self.alloc, &record, number * size, size)?;
        Ok(Outcome::Done {
            reply: Reply::Values {
                t: form.shape.t,
                elems: form.shape.elems,
                bytes: Bytes::new(value),
            },
        })
    }
}
