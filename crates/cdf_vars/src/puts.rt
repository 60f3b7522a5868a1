//! The commands `put-rec` and `put-val`: a record of a variable, or one value of it, gets other values.

ghost use Rattle.std.specs.Prelude.{◌≡◌, ◌≤◌, ◌+◌, ◌*◌, ◌++◌, ℕ, List, Ok, length, take, drop, IfOk, OnOk, OnErr, IsTrue, false};
ghost use Rattle.cdf_area.specs.Calls.{Edits, Reads};
ghost use Rattle.cdf_edits.specs.Answers.{Answers};
ghost use Rattle.cdf_format.specs.WellFormed.{Good};
ghost use Rattle.cdf_model.specs.Limits.{image_limit};
ghost use Rattle.cdf_model.specs.Types.{size_of};
ghost use Rattle.cdf_model.specs.Values.{values_in};
ghost use Rattle.cdf_model.specs.Turns.{is_refused};
ghost use Rattle.cdf_model.specs.declared.command.Command.TheVariants.{PutRec, PutVal};
ghost use Rattle.cdf_puts.specs.Starts.{IsKnownStart, KnowsStarts};
ghost use Rattle.cdf_vars.specs.Known.{Knows};
ghost use Rattle.cdf_vars.specs.Puts.{HasTarget, IsPutRequest, IsTarget, SeesTarget};

use crate::padding::reason_of;
use crate::vars::{VarId, Vars};
use cdf_area::{Area, AreaError};
use cdf_model::{Nums, Outcome, Reason, Words};
use cdf_puts::Starts;
use cdf_shape::place_of;
use cdf_values::read_values;
use cdf_var_records::{
    Form, Unpacked, is_out_of_range, read_form, read_majority, read_record, value_size, values_of,
};
use std::alloc::{AllocError, Global};

/// The variable of which a record is put.
#[derive(Drop)]
pub struct Target {
    pub id: VarId,
    /// How its records are laid out.
    pub form: Form,
}

/// What a command asks for that puts a record.
#[derive(Drop)]
pub enum PutRequest {
    /// This variable gets these bytes, in network order, as a record.
    Put { target: Target, bytes: Vec<u8> },
    /// It cannot be put.
    Refused { reason: Reason },
}

/// A record with the value of a number replaced.
fn with_value(
    alloc: Global,
    old: &[u8],
    number: u64,
    size: u64,
    value: &[u8],
) -> Result<Vec<u8>, AllocError>
    requires inside { number * size + size ≤ length old.now }
    ensures { IfOk result (λ bytes. bytes.items ≡ take (number * size) old.now ++ value.now ++ drop ((number + 1) * size) old.now) }
{
    let at = (number * size) as usize;
    let end = at + size as usize;
    let mut bytes = old[..at].to_vec(alloc)?;
    bytes.extend_from_slice(value)?;
    bytes.extend_from_slice(&old[end..])?;
    Ok(bytes)
}

impl Vars {
    /// The variable of a name, and how its records are laid out.
    pub(crate) fn find_target<A: Area>(
        &self,
        area: &mut A,
        name: &[u8],
    ) -> Result<Option<Target>, AreaError>
        requires good { Good (A.image area.old) }
        requires known { Knows (A.image area.old) self.now }
        ensures target { IfOk result (SeesTarget (A.image area.old) name.now) }
        ensures area { Reads A.image A.frame A.faults A.edited area.old area.new result }
    {
        let Some(id) = self.find(name) else {
            return Ok(None);
        };
        let vdr = self.place_of(id);
        let form = read_form(self.alloc, area, id.kind, vdr)?;
        Ok(Some(Target { id, form }))
    }

    /// What `put-rec` asks for, as far as it does not depend on the room that there is.
    fn read_record_request<A: Area>(
        &self,
        area: &mut A,
        name: &[u8],
        rec: u32,
        words: &Words,
    ) -> Result<PutRequest, AreaError>
        requires good { Good (A.image area.old) }
        requires known { Knows (A.image area.old) self.now }
        ensures request { IfOk result (IsPutRequest (A.image area.old) (PutRec name.now rec words.now) name.now rec) }
        ensures area { Reads A.image A.frame A.faults A.edited area.old area.new result }
    {
        let Some(target) = self.find_target(area, name)? else {
            return Ok(PutRequest::Refused {
                reason: Reason::NoSuchVar,
            });
        };
        let shape = &target.form.shape;
        match read_values(self.alloc, shape.t, shape.elems, values_of(shape), words) {
            Ok(bytes) => {
                if is_out_of_range(&target.form, rec) {
                    return Ok(PutRequest::Refused {
                        reason: Reason::RecordOutOfRange,
                    });
                }
                Ok(PutRequest::Put { target, bytes })
            }
            Err(error) => Ok(PutRequest::Refused {
                reason: reason_of(error)?,
            }),
        }
    }

    /// What `put-val` asks for that puts a value in the place of an index.
    #[tactic(auto, using(cdf_area::proofs::Calls::read_done, cdf_area::proofs::Calls::read_failed, cdf_area::proofs::Calls::read_more, cdf_area::proofs::Calls::read_once, cdf_area::proofs::Calls::read_without_memory))]
    fn read_place_request<A: Area>(
        &self,
        area: &mut A,
        target: Target,
        known: Option<u64>,
        rec: u32,
        index: &Nums,
        value: &[u8],
    ) -> Result<PutRequest, AreaError>
        requires good { Good (A.image area.old) }
        requires short { length (A.image area.old) ≤ image_limit }
        requires target { IsTarget (A.image area.old) target }
        requires start { IsKnownStart (A.image area.old) target.form.place.vdr known }
        requires long { length value.now ≡ size_of target.form.shape.t * target.form.shape.elems }
        ensures request { IfOk result (λ request. (name : List ℕ) (words : List (List ℕ)) → HasTarget (A.image area.old) name target → values_in target.form.shape.t target.form.shape.elems 1 words ≡ Ok value.now → IsPutRequest (A.image area.old) (PutVal name rec index.now words) name rec request) }
        ensures area { Reads A.image A.frame A.faults A.edited area.old area.new result }
    {
        let majority = read_majority(area)?;
        let Some(number) = place_of(&target.form.shape, majority, index.as_slice()) else {
            return Ok(PutRequest::Refused {
                reason: Reason::IndexOutOfRange,
            });
        };
        if is_out_of_range(&target.form, rec) {
            return Ok(PutRequest::Refused {
                reason: Reason::RecordOutOfRange,
            });
        }
        let mut unpacked = Unpacked::new();
        let record = read_record(self.alloc, area, &mut unpacked, &target.form, known, rec)?;
        let size = value_size(&target.form.shape);
        let bytes = with_value(self.alloc, &record, number, size, value)?;
        Ok(PutRequest::Put { target, bytes })
    }

    /// What `put-val` asks for, as far as it does not depend on the room that there is.
    #[tactic(auto, using(cdf_area::proofs::Calls::read_done, cdf_area::proofs::Calls::read_failed, cdf_area::proofs::Calls::read_more, cdf_area::proofs::Calls::read_once, cdf_area::proofs::Calls::read_without_memory))]
    fn read_value_request<A: Area>(
        &self,
        area: &mut A,
        starts: &mut Starts,
        name: &[u8],
        rec: u32,
        index: &Nums,
        words: &Words,
    ) -> Result<PutRequest, AreaError>
        requires good { Good (A.image area.old) }
        requires known { Knows (A.image area.old) self.now }
        requires starts { KnowsStarts (A.image area.old) starts.old }
        requires short { length (A.image area.old) ≤ image_limit }
        ensures request { IfOk result (IsPutRequest (A.image area.old) (PutVal name.now rec index.now words.now) name.now rec) }
        ensures starts { KnowsStarts (A.image area.old) starts.new }
        ensures area { Reads A.image A.frame A.faults A.edited area.old area.new result }
    {
        let Some(target) = self.find_target(area, name)? else {
            return Ok(PutRequest::Refused {
                reason: Reason::NoSuchVar,
            });
        };
        let known = starts.find_start(area, target.form.place.vdr, rec)?;
        let shape = &target.form.shape;
        match read_values(self.alloc, shape.t, shape.elems, 1, words) {
            Ok(value) => self.read_place_request(area, target, known, rec, index, &value),
            Err(error) => Ok(PutRequest::Refused {
                reason: reason_of(error)?,
            }),
        }
    }

    /// Puts a record of a variable: the command `put-rec`. After an error a part of this may have been done in the area.
    pub fn put_rec<A: Area>(
        &self,
        area: &mut A,
        starts: &mut Starts,
        name: &[u8],
        rec: u32,
        words: &Words,
    ) -> Result<Outcome, AreaError>
        requires good { Good (A.image area.old) }
        requires known { Knows (A.image area.old) self.now }
        requires starts { KnowsStarts (A.image area.old) starts.old }
        requires fits { length (A.image area.old) ≤ (A.frame area.old).limit }
        requires limit { (A.frame area.old).limit ≤ image_limit }
        ensures answers { IfOk result (λ o. Answers (A.frame area.old).limit (A.image area.old) (PutRec name.now rec words.now) o (A.image area.new)) }
        ensures known { OnOk result (Knows (A.image area.new) self.now) }
        ensures starts { OnOk result (KnowsStarts (A.image area.new) starts.new) }
        ensures starts_stay { OnErr result (KnowsStarts (A.image area.old) starts.new) }
        ensures refused { IfOk result (λ o. IsTrue (is_refused o) → A.edited area.new ≡ A.edited area.old) }
        ensures area { Edits A.frame A.faults area.old area.new result }
    {
        match self.read_record_request(area, name, rec, words)? {
            PutRequest::Put { target, bytes } => self.put_bytes(area, starts, &target, rec, bytes),
            PutRequest::Refused { reason } => Ok(Outcome::Refused { reason }),
        }
    }

    /// Puts one value of a record of a variable: the command `put-val`. After an error a part of this may have been done in the area.
    pub fn put_val<A: Area>(
        &self,
        area: &mut A,
        starts: &mut Starts,
        name: &[u8],
        rec: u32,
        index: &Nums,
        words: &Words,
    ) -> Result<Outcome, AreaError>
        requires good { Good (A.image area.old) }
        requires known { Knows (A.image area.old) self.now }
        requires starts { KnowsStarts (A.image area.old) starts.old }
        requires fits { length (A.image area.old) ≤ (A.frame area.old).limit }
        requires limit { (A.frame area.old).limit ≤ image_limit }
        ensures answers { IfOk result (λ o. Answers (A.frame area.old).limit (A.image area.old) (PutVal name.now rec index.now words.now) o (A.image area.new)) }
        ensures known { OnOk result (Knows (A.image area.new) self.now) }
        ensures starts { OnOk result (KnowsStarts (A.image area.new) starts.new) }
        ensures starts_stay { OnErr result (KnowsStarts (A.image area.old) starts.new) }
        ensures refused { IfOk result (λ o. IsTrue (is_refused o) → A.edited area.new ≡ A.edited area.old) }
        ensures area { Edits A.frame A.faults area.old area.new result }
    {
        match self.read_value_request(area, starts, name, rec, index, words)? {
            PutRequest::Put { target, bytes } => self.put_bytes(area, starts, &target, rec, bytes),
            PutRequest::Refused { reason } => Ok(Outcome::Refused { reason }),
        }
    }
}
