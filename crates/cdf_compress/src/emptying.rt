//! All blocks and nodes of a variable freed, packed or not.

ghost use Rattle.std.specs.Prelude.{◌≡◌, ◌≤◌, List, length, OnOk};
ghost use Rattle.cdf_area.specs.Calls.{Edits};
ghost use Rattle.cdf_compress.specs.Emptying.{Emptied};
ghost use Rattle.cdf_edits.specs.Edits.Standing.{StandsAmong};
ghost use Rattle.cdf_format.specs.Shape.{VariableShape, shape, variables, vdrs};
ghost use Rattle.cdf_format.specs.Tiles.{In};
ghost use Rattle.cdf_format.specs.WellFormed.{Good};
ghost use Rattle.cdf_model.specs.Limits.{image_limit};
ghost use Rattle.cdf_model.specs.declared.kinds.Kind.{Kind};

use cdf_area::{Area, AreaError};
use cdf_cuts::{Span, cut_index};
use cdf_model::limits::RECORD_NUMBER_LIMIT;
use std::alloc::Global;

/// Frees all blocks and nodes of the variable whose descriptor stands at a place, packed or not. After an error a part of this may have been done.
pub fn cut_all<A: Area>(alloc: Global, area: &mut A, vdr: u64) -> Result<(), AreaError>
    requires good { Good (A.image area.old) }
    requires vdr { In vdr (vdrs (variables (shape (A.image area.old)))) }
    requires short { length (A.image area.old) ≤ image_limit }
    ensures emptied { OnOk result ((kind : Kind) (before : List VariableShape) (own : VariableShape) (after : List VariableShape) → StandsAmong (A.image area.old) kind before own after → own.vdr ≡ vdr → Emptied (A.image area.old) (A.image area.new) kind before own after) }
    ensures area { Edits A.frame A.faults area.old area.new result }
{
    let span = Span {
        first: 0,
        last: RECORD_NUMBER_LIMIT,
        close: false,
    };
    cut_index(alloc, area, vdr, span)
}
