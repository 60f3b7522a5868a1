//! The command `put-entry`: what it asks for is read, and the entry is made or replaced.

ghost use Rattle.std.specs.Prelude.{◌≡◌, ◌≤◌, length, Result, IfOk, IfErr, OnOk, OnErr, Err, IsTrue};
ghost use Rattle.cdf_area.specs.Calls.{Edits, Reads};
ghost use Rattle.cdf_area.specs.declared.area.AreaError.TheVariants.{NoMemory};
ghost use Rattle.cdf_attrs.specs.Known.{Knows};
ghost use Rattle.cdf_attrs.specs.Requests.{IsRequest};
ghost use Rattle.cdf_attrs.specs.Valued.{SaysWhy};
ghost use Rattle.cdf_edits.specs.Answers.{Answers};
ghost use Rattle.cdf_format.specs.WellFormed.{Good};
ghost use Rattle.cdf_model.specs.DataSet.{Entry};
ghost use Rattle.cdf_model.specs.Limits.{image_limit};
ghost use Rattle.cdf_model.specs.Sayable.{Fit};
ghost use Rattle.cdf_model.specs.Turns.{is_refused};
ghost use Rattle.cdf_model.specs.declared.answer.Reason.{Reason};
ghost use Rattle.cdf_model.specs.declared.command.Command.TheVariants.{PutEntry};

use crate::attrs::Attrs;
use crate::entry_bytes::StoredValue;
use crate::finding::Target;
use crate::kept_chains::keep_chain;
use crate::putting::{NewEntry, Slot, put_new};
use crate::range::is_out_of_range;
use crate::value::read_value;
use cdf_area::{Area, AreaError};
use cdf_format::fields::AEDR_SIZE;
use cdf_model::{DataType, EntryKind, Outcome, Reason, Reply, Words};
use cdf_records::read_encoding;
use cdf_space::Chain;
use cdf_values::ValueError;

/// What a command `put-entry` asks for.
#[derive(Drop)]
pub enum Request {
    /// The attribute of this number gets this value as an entry in this chain.
    Put {
        number: u32,
        chain: Chain,
        value: StoredValue,
    },
    /// There is no such attribute, its scope or the number is wrong, or the words are no value.
    Refused {
        reason: Reason,
    },
}

/// The reason why words are no value.
fn reason_of(error: ValueError) -> Result<Reason, AreaError>
    ensures reason { IfOk result (λ reason. (meaning : Result Entry Reason) → SaysWhy meaning error → meaning ≡ Err reason) }
    ensures memory { IfErr result (λ e. e ≡ NoMemory) }
{
    match error {
        ValueError::WrongCount { found, wanted } => Ok(Reason::WrongCount { found, wanted }),
        ValueError::BadValue { at } => Ok(Reason::BadValue { at }),
        ValueError::NoMemory => Err(AreaError::NoMemory),
    }
}

impl Attrs {
    /// What the command asks for, as far as it does not depend on the room that there is.
    fn read_request<A: Area>(
        &self,
        area: &mut A,
        attr: &[u8],
        kind: EntryKind,
        num: u32,
        t: DataType,
        words: &Words,
    ) -> Result<Request, AreaError>
        requires good { Good (A.image area.old) }
        requires known { Knows (A.image area.old) self.now }
        requires some { 1 ≤ length words.now }
        requires fit { Fit words.now }
        ensures request { IfOk result (IsRequest (A.image area.old) attr.now kind num t words.now) }
        ensures area { Reads A.image A.frame A.faults A.edited area.old area.new result }
    {
        let (number, chain) = match self.find_chain(area, attr, kind)? {
            Target::Found { number, chain } => (number, chain),
            Target::Refused { reason } => return Ok(Request::Refused { reason }),
        };
        if is_out_of_range(area, kind, num)? {
            return Ok(Request::Refused {
                reason: Reason::NumberOutOfRange,
            });
        }
        let encoding = read_encoding(area)?;
        match read_value(self.alloc, t, encoding, words) {
            Ok(value) => Ok(Request::Put {
                number,
                chain,
                value,
            }),
            Err(error) => Ok(Request::Refused {
                reason: reason_of(error)?,
            }),
        }
    }

    /// Makes the value that words write the entry of a number, in place of the one that there may be: the command `put-entry`. After an
    /// error a part of this may have been done in the area.
    pub fn put_entry<A: Area>(
        &mut self,
        area: &mut A,
        attr: &[u8],
        kind: EntryKind,
        num: u32,
        t: DataType,
        words: &Words,
    ) -> Result<Outcome, AreaError>
        requires good { Good (A.image area.old) }
        requires known { Knows (A.image area.old) self.old }
        requires fits { length (A.image area.old) ≤ (A.frame area.old).limit }
        requires limit { (A.frame area.old).limit ≤ image_limit }
        requires some { 1 ≤ length words.now }
        requires fit { Fit words.now }
        ensures answers { IfOk result (λ o. Answers (A.frame area.old).limit (A.image area.old) (PutEntry attr.now kind num t words.now) o (A.image area.new)) }
        ensures known { OnOk result (Knows (A.image area.new) self.new) }
        ensures stays { OnErr result (Knows (A.image area.old) self.new) }
        ensures refused { IfOk result (λ o. IsTrue (is_refused o) → A.edited area.new ≡ A.edited area.old) }
        ensures area { Edits A.frame A.faults area.old area.new result }
    {
        let (attribute, chain, value) = match self.read_request(area, attr, kind, num, t, words)? {
            Request::Put {
                number,
                chain,
                value,
            } => (number, chain, value),
            Request::Refused { reason } => return Ok(Outcome::Refused { reason }),
        };
        if area.limit() - area.size() < AEDR_SIZE + value.bytes.len() as u64 {
            return Ok(Outcome::Refused {
                reason: Reason::TooLarge,
            });
        }
        let entries = self.take_entries(area, chain)?;
        let places = self.places.as_slice();
        let slot = Slot {
            kind,
            attribute,
            adr: places[attribute as usize],
            num,
        };
        let greatest = entries.greatest_with(num);
        let entry = NewEntry {
            slot,
            value,
            greatest,
        };
        let put = put_new(self.alloc, area, &entry, entries)?;
        keep_chain(&mut self.entries, put);
        Ok(Outcome::Done {
            reply: Reply::Plain,
        })
    }
}
