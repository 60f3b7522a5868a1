//! The command `reindex`: the index of a variable is made anew, in as few nodes as can be.

ghost use Rattle.std.specs.Prelude.{◌≡◌, ◌+◌, ◌*◌, ◌≤◌, length, IfOk, OnOk, OnErr, IsTrue};
ghost use Rattle.cdf_area.specs.Calls.{Edits, Reads};
ghost use Rattle.cdf_edits.specs.Answers.{Answers};
ghost use Rattle.cdf_edits.specs.Commands.Room.{nodes_above, reindex_room};
ghost use Rattle.cdf_format.specs.Fields.{LiesIn, number};
ghost use Rattle.cdf_format.specs.Records.{vdr_name, vdr_vxr_head};
ghost use Rattle.cdf_format.specs.Shape.{shape, variables, vdrs};
ghost use Rattle.cdf_format.specs.Tiles.{In};
ghost use Rattle.cdf_format.specs.WellFormed.{Good};
ghost use Rattle.cdf_index.specs.Finding.{index_at};
ghost use Rattle.cdf_model.specs.Limits.{image_limit, signed_limit};
ghost use Rattle.cdf_model.specs.Turns.{is_refused};
ghost use Rattle.cdf_model.specs.declared.command.Command.TheVariants.{Reindex};
ghost use Rattle.cdf_vars.specs.Known.{Knows};

use crate::vars::Vars;
use cdf_area::{Area, AreaError};
use cdf_format::fields::VDR_VXR_HEAD;
use cdf_index::index_size;
use cdf_model::limits::LEVEL_LIMIT;
use cdf_model::{Outcome, Reason, Reply};
use cdf_records::read_unsigned8;
use cdf_reindex::{NODE_ENTRIES, NODE_SIZE, reindex};

/// How many new nodes there are above so many entries, level by level until one is left, in as many levels at most.
fn nodes_above(levels: u64, entries: u64) -> u64
    requires { entries ≤ signed_limit + 1 }
    ensures value { result ≡ nodes_above levels entries }
    ensures few { result ≤ 2 * entries }
{
    if levels == 0 || entries == 0 {
        return 0;
    }
    let nodes = (entries + NODE_ENTRIES - 1) / NODE_ENTRIES;
    if nodes == 1 {
        1
    } else {
        nodes + nodes_above(levels - 1, nodes)
    }
}

/// How many bytes the nodes take of the index of the variable whose descriptor stands at a place, once it is made anew.
fn read_room<A: Area>(area: &mut A, vdr: u64) -> Result<u64, AreaError>
    requires good { Good (A.image area.old) }
    requires vdr { In vdr (vdrs (variables (shape (A.image area.old)))) }
    requires lies { LiesIn (A.image area.old) vdr vdr_name }
    requires short { length (A.image area.old) ≤ image_limit }
    ensures room { IfOk result (λ n. n ≡ reindex_room (index_at (A.image area.old) (number (A.image area.old) vdr vdr_vxr_head))) }
    ensures area { Reads A.image A.frame A.faults A.edited area.old area.new result }
{
    // An image has fewer than 2^64 bytes, so no place in it overflows.
    let _size = area.size();
    let head = read_unsigned8(area, vdr + VDR_VXR_HEAD)?;
    let size = index_size(area, head)?;
    Ok(NODE_SIZE * nodes_above(LEVEL_LIMIT, size.leaves))
}

impl Vars {
    /// Makes the index of a variable anew: the command `reindex`. After an error a part of this may have been done in the area.
    pub fn reindex<A: Area>(&mut self, area: &mut A, name: &[u8]) -> Result<Outcome, AreaError>
        requires good { Good (A.image area.old) }
        requires known { Knows (A.image area.old) self.old }
        requires fits { length (A.image area.old) ≤ (A.frame area.old).limit }
        requires limit { (A.frame area.old).limit ≤ image_limit }
        ensures answers { IfOk result (λ o. Answers (A.frame area.old).limit (A.image area.old) (Reindex name.now) o (A.image area.new)) }
        ensures known { OnOk result (Knows (A.image area.new) self.new) }
        ensures stays { OnErr result (Knows (A.image area.old) self.new) }
        ensures refused { IfOk result (λ o. IsTrue (is_refused o) → A.edited area.new ≡ A.edited area.old) }
        ensures area { Edits A.frame A.faults area.old area.new result }
    {
        let Some(found) = self.find(name) else {
            return Ok(Outcome::Refused {
                reason: Reason::NoSuchVar,
            });
        };
        let vdr = self.place_of(found);
        let need = read_room(area, vdr)?;
        if area.limit() - area.size() < need {
            return Ok(Outcome::Refused {
                reason: Reason::TooLarge,
            });
        }
        reindex(self.alloc, area, vdr)?;
        Ok(Outcome::Done {
            reply: Reply::Plain,
        })
    }
}
