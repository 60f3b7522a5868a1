//! The data set that a file tells, written as its compact image.

ghost use Rattle.std.specs.Prelude.{◌≡◌, ◌≤◌, ◌++◌, ◌∷◌, [], ℕ, List, length, IfErr, OnOk};
ghost use Rattle.cdf_base.specs.Causes.{HasCauseOf};
ghost use Rattle.cdf_convert.specs.Errors.{EndsBefore, NamesRecord, PassesLimit};
ghost use Rattle.cdf_convert.specs.declared.error.ConvertError.TheVariants.{SourceFault, TargetFault};
ghost use Rattle.cdf_format.specs.Content.{content};
ghost use Rattle.cdf_format.specs.NotRead.{IsRead};
ghost use Rattle.cdf_format.specs.WellFormed.{Good};
ghost use Rattle.cdf_model.specs.DataSet.{DataSet};
ghost use Rattle.cdf_model.specs.Events.{events_of};
ghost use Rattle.cdf_model.specs.Limits.{image_limit};
ghost use Rattle.cdf_model.specs.declared.event.Event.{Event as EventValue};
ghost use Rattle.cdf_writer.specs.Compact.{compact};
ghost use Rattle.cdf_writer.specs.Fine.{Fine, PlainVariables};
ghost use Rattle.cdf_writer.specs.Taken.{BeginsFine, Took, area_of};

use crate::error::ConvertError;
use cdf_area::Area;
use cdf_model::Event;
use cdf_walk::{Parts, Walk, next_event};
use cdf_writer::Writer;
use std::alloc::Global;

/// An area into which an image was to be written, and whether it was.
#[derive(Drop)]
pub struct Copied<B> {
    /// After an error it has a part of the image.
    pub area: B,
    pub done: Result<(), ConvertError>,
}

/// Puts the next event of a data set into a writer.
fn put_event<B: Area>(writer: &mut Writer<B>, event: Event) -> Result<(), ConvertError>
    requires { (taken : List EventValue) × Took B.image B.frame writer.old taken × BeginsFine (taken ++ event ∷ []) }
    ensures took { (taken : List EventValue) → Took B.image B.frame writer.old taken → OnOk result (Took B.image B.frame writer.new (taken ++ event ∷ [])) }
    ensures named { (taken : List EventValue) (d : DataSet) (rest : List EventValue) → Took B.image B.frame writer.old taken → Fine d → events_of d ≡ taken ++ event ∷ rest → IfErr result (NamesRecord (B.frame (area_of writer.old)).limit d) }
    ensures ends { IfErr result (EndsBefore (B.image (area_of writer.new))) }
    ensures frame { B.frame (area_of writer.new) ≡ B.frame (area_of writer.old) }
    ensures source { (faults : ℕ) → HasCauseOf SourceFault faults faults result }
    ensures target { HasCauseOf TargetFault (B.faults (area_of writer.old)) (B.faults (area_of writer.new)) result }
{
    writer.put(&event)?;
    Ok(())
}

/// Puts all events of a data set into a writer that took none.
fn put_all<P: Parts, B: Area>(parts: &mut P, writer: &mut Writer<B>) -> Result<(), ConvertError>
    requires fine { Fine (P.told parts.old) }
    requires took { Took B.image B.frame writer.old [] }
    ensures took { OnOk result (Took B.image B.frame writer.new (events_of (P.told parts.old))) }
    ensures named { IfErr result (NamesRecord (B.frame (area_of writer.old)).limit (P.told parts.old)) }
    ensures ends { IfErr result (EndsBefore (B.image (area_of writer.new))) }
    ensures frame { B.frame (area_of writer.new) ≡ B.frame (area_of writer.old) }
    ensures told { P.told parts.new ≡ P.told parts.old }
    ensures under { P.under parts.new ≡ P.under parts.old }
    ensures source { HasCauseOf SourceFault (P.faults parts.old) (P.faults parts.new) result }
    ensures target { HasCauseOf TargetFault (B.faults (area_of writer.old)) (B.faults (area_of writer.new)) result }
{
    let mut walk = Walk::new();
    while let Some(event) = next_event(parts, &mut walk)? {
        put_event(writer, event)?;
    }
    Ok(())
}

/// Writes the data set that a file tells into an empty area, as its compact image.
///
/// It keeps of the file one event, and what the writer keeps.
pub fn write_compact<P: Parts, B: Area>(alloc: Global, parts: &mut P, area: B) -> Copied<B>
    requires fine { Fine (P.told parts.old) }
    requires empty { B.image area ≡ [] }
    requires least { 404 ≤ (B.frame area).limit }
    requires most { (B.frame area).limit ≤ image_limit }
    ensures written { OnOk result.done (B.image result.area ≡ compact (P.told parts.old)) }
    ensures content { OnOk result.done (content (B.image result.area) ≡ P.told parts.old) }
    ensures good { OnOk result.done (Good (B.image result.area)) }
    ensures read { PlainVariables (P.told parts.old) → OnOk result.done (IsRead (B.image result.area)) }
    ensures fits { OnOk result.done (length (compact (P.told parts.old)) ≤ (B.frame area).limit) }
    ensures too_large { IfErr result.done (PassesLimit (B.frame area).limit (P.told parts.old)) }
    ensures named { IfErr result.done (NamesRecord (B.frame area).limit (P.told parts.old)) }
    ensures ends { IfErr result.done (EndsBefore (B.image result.area)) }
    ensures frame { B.frame result.area ≡ B.frame area }
    ensures told { P.told parts.new ≡ P.told parts.old }
    ensures under { P.under parts.new ≡ P.under parts.old }
    ensures source { HasCauseOf SourceFault (P.faults parts.old) (P.faults parts.new) result.done }
    ensures target { HasCauseOf TargetFault (B.faults area) (B.faults result.area) result.done }
{
    let mut writer = Writer::new(alloc, area);
    let done = put_all(parts, &mut writer);
    Copied {
        area: writer.into_area(),
        done,
    }
}
