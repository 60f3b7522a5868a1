//! The command `del-attr`: an attribute goes with its entries, and those behind it get their numbers one lower.

ghost use Rattle.std.specs.Prelude.{◌≡◌, ◌<◌, ◌≤◌, ◌+◌, ◌++◌, ◌∷◌, [], length, map, drop, IfOk, OnOk, OnErr, IsTrue};
ghost use Rattle.cdf_area.specs.Calls.{Edits, Reads};
ghost use Rattle.cdf_attrs.specs.Numbering.{entry_numbers, write_of};
ghost use Rattle.cdf_attrs.specs.Known.{Knows};
ghost use Rattle.cdf_edits.specs.Answers.{Answers};
ghost use Rattle.cdf_edits.specs.Edits.Unlinks.{Deletes};
ghost use Rattle.cdf_edits.specs.Edits.Writes.{numbers_from, write};
ghost use Rattle.cdf_edits.specs.Space.Chains.{members_of};
ghost use Rattle.cdf_format.specs.Records.{adr_num};
ghost use Rattle.cdf_format.specs.Shape.{adrs, shape};
ghost use Rattle.cdf_format.specs.Tiles.{In};
ghost use Rattle.cdf_format.specs.WellFormed.{Good};
ghost use Rattle.cdf_model.specs.Limits.{image_limit};
ghost use Rattle.cdf_model.specs.Turns.{is_refused};
ghost use Rattle.cdf_model.specs.declared.command.Command.TheVariants.{DelAttr};

use crate::attrs::Attrs;
use crate::numbering::{Numbered, set_numbers};
use cdf_area::{Area, AreaError};
use cdf_format::fields::{ADR_NUM, AEDR_ATTR_NUM};
use cdf_model::{Outcome, Reason, Reply};
use cdf_space::{Chain, free_records, read_chain, take_out};
use std::alloc::{AllocError, Global};

/// The entries of an attribute in the order of its chains, gr before z.
fn read_entries<A: Area>(alloc: Global, area: &mut A, adr: u64) -> Result<Vec<u64>, AreaError>
    requires good { Good (A.image area.old) }
    requires adr { In adr (adrs (shape (A.image area.old))) }
    ensures entries { IfOk result (λ entries. entries.items ≡ members_of (A.image area.old) (Chain.GrEntries adr) ++ members_of (A.image area.old) (Chain.ZEntries adr)) }
    ensures area { Reads A.image A.frame A.faults A.edited area.old area.new result }
{
    let mut entries = read_chain(alloc, area, Chain::GrEntries { adr })?;
    let z_entries = read_chain(alloc, area, Chain::ZEntries { adr })?;
    entries.extend_from_slice(&z_entries)?;
    Ok(entries)
}

/// The records of an attribute in the order in which they are freed: its entries, and then its descriptor.
fn read_records<A: Area>(alloc: Global, area: &mut A, adr: u64) -> Result<Vec<u64>, AreaError>
    requires good { Good (A.image area.old) }
    requires adr { In adr (adrs (shape (A.image area.old))) }
    ensures records { IfOk result (λ records. records.items ≡ members_of (A.image area.old) (Chain.GrEntries adr) ++ members_of (A.image area.old) (Chain.ZEntries adr) ++ adr ∷ []) }
    ensures area { Reads A.image A.frame A.faults A.edited area.old area.new result }
{
    let mut records = read_entries(alloc, area, adr)?;
    records.push(adr)?;
    Ok(records)
}

/// Adds that an attribute and its entries say a number.
fn push_numbers(
    numbers: &mut Vec<Numbered>,
    adr: u64,
    entries: &[u64],
    number: u32,
) -> Result<(), AllocError>
    ensures { OnOk result (map write_of numbers.new.items ≡ map write_of numbers.old.items ++ write adr adr_num number ∷ entry_numbers entries.now number) }
{
    numbers.push(Numbered {
        at: adr,
        field: ADR_NUM,
        number,
    })?;
    for entry in entries {
        numbers.push(Numbered {
            at: *entry,
            field: AEDR_ATTR_NUM,
            number,
        })?;
    }
    Ok(())
}

/// What the attributes behind one have to say of their numbers, which are one lower, in the order of the chain.
fn read_numbers<A: Area>(
    alloc: Global,
    area: &mut A,
    places: &[u64],
    number: usize,
) -> Result<Vec<Numbered>, AreaError>
    requires good { Good (A.image area.old) }
    requires places { places.now ≡ adrs (shape (A.image area.old)) }
    requires within { number < length places.now }
    ensures numbers { IfOk result (λ numbers. map write_of numbers.items ≡ numbers_from number (drop (number + 1) (shape (A.image area.old)).attributes)) }
    ensures area { Reads A.image A.frame A.faults A.edited area.old area.new result }
{
    let mut numbers = Vec::new(alloc);
    for i in number + 1..places.len() {
        let entries = read_entries(alloc, area, places[i])?;
        push_numbers(&mut numbers, places[i], &entries, (i - 1) as u32)?;
    }
    Ok(numbers)
}

/// Takes an attribute with its entries out of the area.
fn delete<A: Area>(
    alloc: Global,
    area: &mut A,
    places: &[u64],
    number: usize,
) -> Result<(), AreaError>
    requires good { Good (A.image area.old) }
    requires places { places.now ≡ adrs (shape (A.image area.old)) }
    requires within { number < length places.now }
    requires short { length (A.image area.old) ≤ image_limit }
    ensures deleted { OnOk result (Deletes (A.image area.old) (A.image area.new) number) }
    ensures area { Edits A.frame A.faults area.old area.new result }
{
    let records = read_records(alloc, area, places[number])?;
    let numbers = read_numbers(alloc, area, places, number)?;
    take_out(area, Chain::Attrs, places, number)?;
    set_numbers(area, &numbers)?;
    free_records(area, &records)
}

impl Attrs {
    /// Deletes an attribute with its entries: the command `del-attr`. The numbers of those behind it fall by one. After an error a part
    /// of this may have been done in the area.
    pub fn remove<A: Area>(&mut self, area: &mut A, name: &[u8]) -> Result<Outcome, AreaError>
        requires good { Good (A.image area.old) }
        requires known { Knows (A.image area.old) self.old }
        requires fits { length (A.image area.old) ≤ (A.frame area.old).limit }
        requires limit { (A.frame area.old).limit ≤ image_limit }
        ensures answers { IfOk result (λ o. Answers (A.frame area.old).limit (A.image area.old) (DelAttr name.now) o (A.image area.new)) }
        ensures known { OnOk result (Knows (A.image area.new) self.new) }
        ensures stays { OnErr result (Knows (A.image area.old) self.new) }
        ensures refused { IfOk result (λ o. IsTrue (is_refused o) → A.edited area.new ≡ A.edited area.old) }
        ensures area { Edits A.frame A.faults area.old area.new result }
    {
        let Some(number) = self.names.find(name) else {
            return Ok(Outcome::Refused {
                reason: Reason::NoSuchAttr,
            });
        };
        self.entries.clear();
        self.order = None;
        delete(self.alloc, area, &self.places, number as usize)?;
        self.names.remove(number);
        self.places.remove(number as usize);
        Ok(Outcome::Done {
            reply: Reply::Plain,
        })
    }
}
