//! The command `get-entry`: an entry of an attribute is shown.

ghost use Rattle.std.specs.Prelude.{◌≡◌, ◌+◌, ◌≤◌, length, IfOk};
ghost use Rattle.cdf_area.specs.Calls.{Reads};
ghost use Rattle.cdf_attrs.specs.Known.{Knows};
ghost use Rattle.cdf_attrs.specs.Getting.{entry_reply, meant};
ghost use Rattle.cdf_edits.specs.Answers.{Answers};
ghost use Rattle.cdf_format.specs.AttributeRules.{entry_bytes};
ghost use Rattle.cdf_format.specs.Content.{entry_of};
ghost use Rattle.cdf_format.specs.Records.{aedr_data_type, past, cdr_place, cdr_copyright, aedr_value};
ghost use Rattle.cdf_format.specs.Stored.{data_type_in};
ghost use Rattle.cdf_format.specs.WellFormed.{Good};
ghost use Rattle.cdf_format.specs.Fields.{LiesIn};
ghost use Rattle.cdf_model.specs.declared.command.Command.TheVariants.{GetEntry};

use crate::attrs::Attrs;
use crate::finding::Target;
use crate::kept_chains::keep_chain;
use cdf_area::{Area, AreaError};
use cdf_format::fields::{AEDR_DATA_TYPE, AEDR_NUM_ELEMS, AEDR_VALUE};
use cdf_model::{Bytes, DataType, EntryKind, Outcome, Reason, Reply};
use cdf_records::{read_bytes, read_encoding, read_signed4, read_unsigned4};
use cdf_values::to_network;
use std::alloc::Global;

/// The type of the value of the entry whose descriptor stands at a place. Each well-formed file has one that is known.
fn read_type<A: Area>(area: &mut A, place: u64) -> Result<DataType, AreaError>
    requires { place + (aedr_value 0).place ≤ length (A.image area.old) }
    ensures value { IfOk result (λ t. t ≡ data_type_in (A.image area.old) place aedr_data_type) }
    ensures area { Reads A.image A.frame A.faults A.edited area.old area.new result }
{
    // An image has fewer than 2^64 bytes, so no place in it overflows.
    let _size = area.size();
    let code = read_signed4(area, place + AEDR_DATA_TYPE)?;
    Ok(DataType::of_code(code).unwrap_or(DataType::Byte))
}

/// The value of an entry: so many elements of a type, in network order.
#[derive(Drop)]
pub struct EntryValue {
    pub t: DataType,
    pub elems: u32,
    pub bytes: Bytes,
}

/// The value of the entry whose descriptor stands at a place.
pub(crate) fn read_entry_value<A: Area>(
    alloc: Global,
    area: &mut A,
    place: u64,
) -> Result<EntryValue, AreaError>
    requires cdr { LiesIn (A.image area.old) cdr_place cdr_copyright }
    requires entry { place + past (aedr_value (entry_bytes (A.image area.old) place)) ≤ length (A.image area.old) }
    ensures value { IfOk result (λ value. meant value ≡ entry_of (A.image area.old) place) }
    ensures area { Reads A.image A.frame A.faults A.edited area.old area.new result }
{
    // An image has fewer than 2^64 bytes, so no place in it overflows.
    let _size = area.size();
    let encoding = read_encoding(area)?;
    let t = read_type(area, place)?;
    let elems = read_unsigned4(area, place + AEDR_NUM_ELEMS)?;
    let count = u64::from(t.size()) * u64::from(elems);
    let mut bytes = read_bytes(alloc, area, place + AEDR_VALUE, count)?;
    to_network(t, encoding, &mut bytes);
    Ok(EntryValue {
        t,
        elems,
        bytes: Bytes::new(bytes),
    })
}

/// What `get-entry` shows of the entry whose descriptor stands at a place.
fn read_entry<A: Area>(alloc: Global, area: &mut A, place: u64) -> Result<Reply, AreaError>
    requires cdr { LiesIn (A.image area.old) cdr_place cdr_copyright }
    requires entry { place + past (aedr_value (entry_bytes (A.image area.old) place)) ≤ length (A.image area.old) }
    ensures reply { IfOk result (λ reply. reply ≡ entry_reply (entry_of (A.image area.old) place)) }
    ensures area { Reads A.image A.frame A.faults A.edited area.old area.new result }
{
    let value = read_entry_value(alloc, area, place)?;
    Ok(Reply::Entry {
        t: value.t,
        elems: value.elems,
        bytes: value.bytes,
    })
}

impl Attrs {
    /// The type, the number of elements and the value of an entry: the command `get-entry`.
    pub fn get_entry<A: Area>(
        &mut self,
        area: &mut A,
        attr: &[u8],
        kind: EntryKind,
        num: u32,
    ) -> Result<Outcome, AreaError>
        requires good { Good (A.image area.old) }
        requires known { Knows (A.image area.old) self.old }
        requires fits { length (A.image area.old) ≤ (A.frame area.old).limit }
        ensures answers { IfOk result (λ o. Answers (A.frame area.old).limit (A.image area.old) (GetEntry attr.now kind num) o (A.image area.new)) }
        ensures known { Knows (A.image area.new) self.new }
        ensures area { Reads A.image A.frame A.faults A.edited area.old area.new result }
    {
        let chain = match self.find_chain(area, attr, kind)? {
            Target::Found { number: _, chain } => chain,
            Target::Refused { reason } => return Ok(Outcome::Refused { reason }),
        };
        let entries = self.take_entries(area, chain)?;
        let place = entries.place_of(num);
        keep_chain(&mut self.entries, entries);
        let Some(place) = place else {
            return Ok(Outcome::Refused {
                reason: Reason::NoSuchEntry,
            });
        };
        let reply = read_entry(self.alloc, area, place)?;
        Ok(Outcome::Done { reply })
    }
}
