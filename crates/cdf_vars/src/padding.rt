//! The command `set-pad`: a variable gets another pad value.

ghost use Rattle.std.specs.Prelude.{◌≡◌, ◌≤◌, ◌+◌, ℕ, List, Result, Err, length, IfOk, IfErr, OnOk, OnErr, IsTrue};
ghost use Rattle.cdf_area.specs.Calls.{Edits, Reads};
ghost use Rattle.cdf_area.specs.declared.area.AreaError.TheVariants.{NoMemory};
ghost use Rattle.cdf_edits.specs.Answers.{Answers};
ghost use Rattle.cdf_format.specs.WellFormed.{Good};
ghost use Rattle.cdf_model.specs.Limits.{image_limit};
ghost use Rattle.cdf_model.specs.Sayable.{Fit};
ghost use Rattle.cdf_model.specs.Values.{values_in};
ghost use Rattle.cdf_model.specs.Turns.{is_refused};
ghost use Rattle.cdf_model.specs.declared.answer.Reason.{Reason};
ghost use Rattle.cdf_model.specs.declared.command.Command.TheVariants.{SetPad};
ghost use Rattle.cdf_values.specs.Reading.{Explains};
ghost use Rattle.cdf_vars.specs.Known.{Knows};
ghost use Rattle.cdf_var_records.specs.Descriptors.{HasElements};
ghost use Rattle.cdf_vars.specs.Padding.{IsRequest, IsValue};

use crate::pad_record::{move_vdr, write_pad};
use crate::vars::{VarId, Vars};
use cdf_area::{Area, AreaError};
use cdf_model::{DataType, Encoding, Kind, Outcome, Reason, Reply, Words};
use cdf_records::read_encoding;
use cdf_values::{ValueError, from_network, read_values};
use cdf_var_records::{PadPlace, read_pad_place};
use std::alloc::Global;

/// What a command `set-pad` asks for.
#[derive(Drop)]
pub enum PadRequest {
    /// This variable gets these bytes where they belong.
    Put {
        id: VarId,
        place: PadPlace,
        bytes: Vec<u8>,
    },
    /// There is no such variable, or the words are no value.
    Refused {
        reason: Reason,
    },
}

/// The reason why words are no values.
pub fn reason_of(error: ValueError) -> Result<Reason, AreaError>
    ensures reason { IfOk result (λ reason. (meaning : Result (List ℕ) Reason) → Explains meaning error → meaning ≡ Err reason) }
    ensures memory { IfErr result (λ e. e ≡ NoMemory) }
{
    match error {
        ValueError::WrongCount { found, wanted } => Ok(Reason::WrongCount { found, wanted }),
        ValueError::BadValue { at } => Ok(Reason::BadValue { at }),
        ValueError::NoMemory => Err(AreaError::NoMemory),
    }
}

/// The value of a type that a word writes, in the byte order of an encoding.
fn read_pad(
    alloc: Global,
    t: DataType,
    elems: u32,
    encoding: Encoding,
    words: &Words,
) -> Result<Vec<u8>, ValueError>
    requires { HasElements t elems }
    ensures ok { IfOk result (λ bytes. IsValue encoding.little t elems words.now bytes.items) }
    ensures err { IfErr result (λ e. Explains (values_in t elems 1 words.now) e) }
{
    let mut bytes = read_values(alloc, t, elems, 1, words)?;
    from_network(t, encoding, &mut bytes);
    Ok(bytes)
}

impl Vars {
    /// What the command asks for, as far as it does not depend on the room that there is.
    #[tactic(auto, using(cdf_area::proofs::Calls::read_done, cdf_area::proofs::Calls::read_more, cdf_area::proofs::Calls::read_once))]
    fn read_request<A: Area>(
        &self,
        area: &mut A,
        name: &[u8],
        words: &Words,
    ) -> Result<PadRequest, AreaError>
        requires good { Good (A.image area.old) }
        requires known { Knows (A.image area.old) self.now }
        ensures request { IfOk result (IsRequest (A.image area.old) self.now name.now words.now) }
        ensures area { Reads A.image A.frame A.faults A.edited area.old area.new result }
    {
        let Some(id) = self.find(name) else {
            return Ok(PadRequest::Refused {
                reason: Reason::NoSuchVar,
            });
        };
        let vdr = self.place_of(id);
        let place = read_pad_place(area, id.kind, vdr)?;
        let encoding = read_encoding(area)?;
        match read_pad(self.alloc, place.t, place.elems, encoding, words) {
            Ok(bytes) => Ok(PadRequest::Put { id, place, bytes }),
            Err(error) => Ok(PadRequest::Refused {
                reason: reason_of(error)?,
            }),
        }
    }

    /// Says what the records of a variable read as that are not written: the command `set-pad`. After an error a part of this may have
    /// been done in the area.
    pub fn set_pad<A: Area>(
        &mut self,
        area: &mut A,
        name: &[u8],
        words: &Words,
    ) -> Result<Outcome, AreaError>
        requires good { Good (A.image area.old) }
        requires known { Knows (A.image area.old) self.old }
        requires fits { length (A.image area.old) ≤ (A.frame area.old).limit }
        requires limit { (A.frame area.old).limit ≤ image_limit }
        requires one { length words.now ≡ 1 }
        requires fit { Fit words.now }
        ensures answers { IfOk result (λ o. Answers (A.frame area.old).limit (A.image area.old) (SetPad name.now words.now) o (A.image area.new)) }
        ensures known { OnOk result (Knows (A.image area.new) self.new) }
        ensures stays { OnErr result (Knows (A.image area.old) self.new) }
        ensures refused { IfOk result (λ o. IsTrue (is_refused o) → A.edited area.new ≡ A.edited area.old) }
        ensures area { Edits A.frame A.faults area.old area.new result }
    {
        let (id, place, bytes) = match self.read_request(area, name, words)? {
            PadRequest::Put { id, place, bytes } => (id, place, bytes),
            PadRequest::Refused { reason } => return Ok(Outcome::Refused { reason }),
        };
        let need = place.at + bytes.len() as u64;
        if area.limit() - area.size() < need {
            return Ok(Outcome::Refused {
                reason: Reason::TooLarge,
            });
        }
        if need <= place.size {
            write_pad(area, place, &bytes)?;
        } else {
            match id.kind {
                Kind::R => move_vdr(
                    self.alloc,
                    area,
                    id.kind,
                    &mut self.r.places,
                    id.num,
                    place,
                    &bytes,
                )?,
                Kind::Z => move_vdr(
                    self.alloc,
                    area,
                    id.kind,
                    &mut self.z.places,
                    id.num,
                    place,
                    &bytes,
                )?,
            }
        }
        Ok(Outcome::Done {
            reply: Reply::Plain,
        })
    }
}
