//! The command `rename-var`: a variable gets another name.

ghost use Rattle.std.specs.Prelude.{◌≡◌, ◌≤◌, length, slice_index, slice_set, IfOk, OnOk, OnErr, IsTrue};
ghost use Rattle.cdf_area.specs.Calls.{Edits};
ghost use Rattle.cdf_edits.specs.Answers.{Answers};
ghost use Rattle.cdf_format.specs.Fields.{with_name};
ghost use Rattle.cdf_format.specs.Records.{vdr_name};
ghost use Rattle.cdf_format.specs.WellFormed.{Good};
ghost use Rattle.cdf_model.specs.Limits.{image_limit};
ghost use Rattle.cdf_model.specs.Turns.{is_refused};
ghost use Rattle.cdf_model.specs.declared.command.Command.TheVariants.{RenameVar};
ghost use Rattle.cdf_vars.specs.Known.{Knows, MayRename};

use crate::vars::{VarTable, Vars};
use cdf_area::{Area, AreaError};
use cdf_model::{Bytes, Kind, Outcome, Reason, Reply};
use cdf_names::is_bad_name;
use cdf_records::set_vdr_name;
use std::alloc::Global;

/// Gives the variable of a number another name, where its descriptor stands and in the table of its kind, which stays after an error.
fn rename_in<A: Area>(
    alloc: Global,
    area: &mut A,
    table: &mut VarTable,
    num: u32,
    to: &[u8],
) -> Result<(), AreaError>
    requires may { MayRename (A.image area.old) table.old num to.now }
    requires fits { length to.now ≤ vdr_name.width }
    ensures written { OnOk result (A.image area.new ≡ with_name (A.image area.old) (slice_index table.old.places num) vdr_name to.now) }
    ensures renamed { OnOk result (table.new ≡ record table.old { names = slice_set table.old.names num to.now }) }
    ensures stays { OnErr result (table.new ≡ table.old) }
    ensures area { Edits A.frame A.faults area.old area.new result }
{
    let last = table.names.len();
    table.names.add(Bytes::new(to.to_vec(alloc)?))?;
    let places = table.places.as_slice();
    match set_vdr_name(area, places[num as usize], to) {
        Ok(()) => {
            table.names.last_to(num);
            Ok(())
        }
        Err(error) => {
            table.names.remove(last);
            Err(error)
        }
    }
}

impl Vars {
    /// Gives a variable another name: the command `rename-var`. After an error a part of this may have been done in the area.
    pub fn rename<A: Area>(
        &mut self,
        area: &mut A,
        from: &[u8],
        to: &[u8],
    ) -> Result<Outcome, AreaError>
        requires good { Good (A.image area.old) }
        requires known { Knows (A.image area.old) self.old }
        requires fits { length (A.image area.old) ≤ (A.frame area.old).limit }
        requires limit { (A.frame area.old).limit ≤ image_limit }
        ensures answers { IfOk result (λ o. Answers (A.frame area.old).limit (A.image area.old) (RenameVar from.now to.now) o (A.image area.new)) }
        ensures known { OnOk result (Knows (A.image area.new) self.new) }
        ensures stays { OnErr result (Knows (A.image area.old) self.new) }
        ensures refused { IfOk result (λ o. IsTrue (is_refused o) → A.edited area.new ≡ A.edited area.old) }
        ensures area { Edits A.frame A.faults area.old area.new result }
    {
        let Some(found) = self.find(from) else {
            return Ok(Outcome::Refused {
                reason: Reason::NoSuchVar,
            });
        };
        if is_bad_name(to) {
            return Ok(Outcome::Refused {
                reason: Reason::BadName,
            });
        }
        if self.find(to).is_some() {
            return Ok(Outcome::Refused {
                reason: Reason::NameTaken,
            });
        }
        match found.kind {
            Kind::R => rename_in(self.alloc, area, &mut self.r, found.num, to)?,
            Kind::Z => rename_in(self.alloc, area, &mut self.z, found.num, to)?,
        }
        Ok(Outcome::Done {
            reply: Reply::Plain,
        })
    }
}
