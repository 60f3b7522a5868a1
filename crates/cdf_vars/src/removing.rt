//! A variable that goes: it leaves the chain of its kind, those behind it get numbers less by one, its descriptor leads to no index any
//! more, and its records are freed.

ghost use Rattle.std.specs.Prelude.{◌≡◌, ◌≤◌, ◌<◌, ◌+◌, ◌++◌, ◌^◌, length, max, map, IfOk, OnOk, OnErr};
ghost use Rattle.std.specs.List.{fold, remove};
ghost use Rattle.cdf_area.specs.Calls.{Edits, Reads};
ghost use Rattle.cdf_edits.specs.Commands.Allowances.{shapes_of};
ghost use Rattle.cdf_edits.specs.Edits.RemovesVariable.{RemovesVariable, empty_writes, greatest_at, numbers_on, r_max_writes};
ghost use Rattle.cdf_edits.specs.Edits.Writes.{with_writes};
ghost use Rattle.cdf_format.specs.Fields.{LiesIn, gdr_offset};
ghost use Rattle.cdf_format.specs.Records.{gdr_r_max_rec, vdr_name, cdr_gdr_offset, cdr_place, past};
ghost use Rattle.cdf_format.specs.Shape.{cpr_of, shape, variables, vdrs};
ghost use Rattle.cdf_format.specs.Tiles.{In};
ghost use Rattle.cdf_format.specs.VariableFields.{max_rec_at};
ghost use Rattle.cdf_format.specs.WellFormed.{Good};
ghost use Rattle.cdf_model.specs.DataSet.{extent};
ghost use Rattle.cdf_model.specs.Limits.{image_limit};
ghost use Rattle.cdf_model.specs.RecordSteps.{last_number};
ghost use Rattle.cdf_model.specs.declared.kinds.Kind.TheVariants as kinds;
ghost use Rattle.cdf_vars.specs.Known.{Knows, KnowsKind, known_of};
ghost use Rattle.cdf_vars.specs.Removing.{AreRecordsAt, VdrsLie};

use crate::chain::chain_of;
use crate::vars::{VarId, VarTable, Vars};
use cdf_area::{Area, AreaError};
use cdf_format::fields::{
    CDR_GDR_OFFSET, CDR_PLACE, VDR_COMPRESSION_BIT, VDR_CPR_OR_SPR_OFFSET, VDR_FLAGS, VDR_VXR_HEAD,
};
use cdf_format::flags::has_bit;
use cdf_index::index_records;
use cdf_model::Kind;
use cdf_records::{
    read_unsigned4, read_unsigned8, set_gdr_r_max_rec, set_vdr_num, set_vdr_vxr_head,
    set_vdr_vxr_tail,
};
use cdf_space::{free_records, take_out};
use cdf_var_records::read_extent;
use std::alloc::Global;

/// The number of the last of so many records, -1 where there is none.
pub fn last_number(extent: u32) -> i32
    requires { extent ≤ 2 ^ 31 }
    ensures { result ≡ last_number extent }
{
    if extent == 0 { -1 } else { (extent - 1) as i32 }
}

/// The most records that one of the variables has whose descriptors stand at these places, but no fewer than so many.
pub fn greatest_extent<A: Area>(area: &mut A, least: u32, places: &[u64]) -> Result<u32, AreaError>
    requires lie { VdrsLie (A.image area.old) places.now }
    requires few { least ≤ 2 ^ 31 }
    ensures greatest { IfOk result (λ n. n ≡ fold max least (map (λ vdr. extent (max_rec_at (A.image area.old) vdr)) places.now)) }
    ensures few { IfOk result (λ n. n ≤ 2 ^ 31) }
    ensures area { Reads A.image A.frame A.faults A.edited area.old area.new result }
{
    let mut greatest = least;
    for place in places {
        let extent = read_extent(area, *place)?;
        greatest = greatest.max(extent);
    }
    Ok(greatest)
}

/// What rMaxRec is without the variable of a number: of r variables their greatest MaxRec, -1 where there is none.
fn greatest_left<A: Area>(
    area: &mut A,
    kind: Kind,
    places: &[u64],
    number: usize,
) -> Result<i32, AreaError>
    requires lie { VdrsLie (A.image area.old) places.now }
    requires within { number < length places.now }
    ensures greatest { IfOk result (λ greatest. kind ≡ kinds.R → greatest ≡ greatest_at (A.image area.old) (remove places.now number)) }
    ensures area { Reads A.image A.frame A.faults A.edited area.old area.new result }
{
    match kind {
        Kind::R => {
            let front = greatest_extent(area, 0, &places[..number])?;
            let greatest = greatest_extent(area, front, &places[number + 1..])?;
            Ok(last_number(greatest))
        }
        Kind::Z => Ok(-1),
    }
}

/// Gives the variables whose descriptors stand at these places the numbers from one on.
/// After an error a part of them may have been written.
fn set_numbers<A: Area>(area: &mut A, first: u32, places: &[u64]) -> Result<(), AreaError>
    requires lie { VdrsLie (A.image area.old) places.now }
    requires few { first + length places.now ≤ 2 ^ 31 }
    ensures written { OnOk result (A.image area.new ≡ with_writes (A.image area.old) (numbers_on first places.now)) }
    ensures area { Edits A.frame A.faults area.old area.new result }
{
    for (i, place) in places.iter().enumerate() {
        set_vdr_num(area, *place, (first + i as u32) as i32)?;
    }
    Ok(())
}

/// Writes rMaxRec, where a variable of this kind went.
pub fn set_greatest<A: Area>(area: &mut A, kind: Kind, greatest: i32) -> Result<(), AreaError>
    requires cdr { cdr_place + past cdr_gdr_offset ≤ length (A.image area.old) }
    requires field { LiesIn (A.image area.old) (gdr_offset (A.image area.old)) gdr_r_max_rec }
    ensures written { OnOk result (A.image area.new ≡ with_writes (A.image area.old) (r_max_writes kind (gdr_offset (A.image area.old)) greatest)) }
    ensures area { Edits A.frame A.faults area.old area.new result }
{
    match kind {
        Kind::R => {
            let gdr = read_unsigned8(area, CDR_PLACE + CDR_GDR_OFFSET)?;
            set_gdr_r_max_rec(area, gdr, greatest)
        }
        Kind::Z => Ok(()),
    }
}

/// Empties the links of the descriptor at a place to the index. After an error a part of this may have been done.
fn unlink_index<A: Area>(area: &mut A, vdr: u64) -> Result<(), AreaError>
    requires lies { LiesIn (A.image area.old) vdr vdr_name }
    ensures emptied { OnOk result (A.image area.new ≡ with_writes (A.image area.old) (empty_writes vdr)) }
    ensures area { Edits A.frame A.faults area.old area.new result }
{
    set_vdr_vxr_head(area, vdr, 0)?;
    set_vdr_vxr_tail(area, vdr, 0)
}

/// Adds the record of the parameters by which the variable is packed whose descriptor stands at a place, if it is packed.
fn push_parameters<A: Area>(area: &mut A, vdr: u64, records: &mut Vec<u64>) -> Result<(), AreaError>
    requires lies { LiesIn (A.image area.old) vdr vdr_name }
    ensures records { OnOk result (records.new.items ≡ records.old.items ++ cpr_of (A.image area.old) vdr) }
    ensures area { Reads A.image A.frame A.faults A.edited area.old area.new result }
{
    // An image has fewer than 2^64 bytes, so no place in it overflows.
    let _size = area.size();
    let flags = read_unsigned4(area, vdr + VDR_FLAGS)?;
    if !has_bit(flags, VDR_COMPRESSION_BIT) {
        return Ok(());
    }
    let cpr = read_unsigned8(area, vdr + VDR_CPR_OR_SPR_OFFSET)?;
    records.push(cpr)?;
    Ok(())
}

/// The records that go with the variable whose descriptor stands at a place, in the order in which they are freed: the blocks by record
/// number, the nodes of the index, the parameters of its packing, and the descriptor.
fn read_records<A: Area>(alloc: Global, area: &mut A, vdr: u64) -> Result<Vec<u64>, AreaError>
    requires good { Good (A.image area.old) }
    requires vdr { In vdr (vdrs (variables (shape (A.image area.old)))) }
    requires lies { LiesIn (A.image area.old) vdr vdr_name }
    requires short { length (A.image area.old) ≤ image_limit }
    ensures records { IfOk result (λ records. AreRecordsAt (A.image area.old) vdr records.items) }
    ensures area { Reads A.image A.frame A.faults A.edited area.old area.new result }
{
    // An image has fewer than 2^64 bytes, so no place in it overflows.
    let _size = area.size();
    let head = read_unsigned8(area, vdr + VDR_VXR_HEAD)?;
    let mut records = index_records(alloc, area, head)?;
    push_parameters(area, vdr, &mut records)?;
    records.push(vdr)?;
    Ok(records)
}

/// Takes the variable of a number out of the area. After an error a part of this may have been done.
fn remove_at<A: Area>(
    alloc: Global,
    area: &mut A,
    kind: Kind,
    places: &[u64],
    number: usize,
) -> Result<(), AreaError>
    requires good { Good (A.image area.old) }
    requires places { places.now ≡ vdrs (shapes_of (shape (A.image area.old)) kind) }
    requires within { number < length places.now }
    requires short { length (A.image area.old) ≤ image_limit }
    ensures removed { OnOk result (RemovesVariable (A.image area.old) (A.image area.new) kind number) }
    ensures area { Edits A.frame A.faults area.old area.new result }
{
    let records = read_records(alloc, area, places[number])?;
    let greatest = greatest_left(area, kind, places, number)?;
    take_out(area, chain_of(kind), places, number)?;
    set_numbers(area, number as u32, &places[number + 1..])?;
    set_greatest(area, kind, greatest)?;
    unlink_index(area, places[number])?;
    free_records(area, &records)
}

impl VarTable {
    /// Takes the variable of a number out of the area and out of the table, which stays after an error.
    fn remove<A: Area>(
        &mut self,
        alloc: Global,
        area: &mut A,
        kind: Kind,
        num: u32,
    ) -> Result<(), AreaError>
        requires good { Good (A.image area.old) }
        requires known { KnowsKind (A.image area.old) kind self.old }
        requires within { num < length self.old.places }
        requires short { length (A.image area.old) ≤ image_limit }
        ensures removed { OnOk result (RemovesVariable (A.image area.old) (A.image area.new) kind num) }
        ensures known { OnOk result (KnowsKind (A.image area.new) kind self.new) }
        ensures stays { OnErr result (self.new ≡ self.old) }
        ensures area { Edits A.frame A.faults area.old area.new result }
    {
        remove_at(alloc, area, kind, &self.places, num as usize)?;
        self.names.remove(num);
        self.places.remove(num as usize);
        Ok(())
    }
}

impl Vars {
    /// Takes a variable out of the file, whose entries have gone before. The numbers of those behind it fall by one.
    /// After an error a part of this may have been done in the area.
    pub fn remove<A: Area>(&mut self, area: &mut A, id: VarId) -> Result<(), AreaError>
        requires good { Good (A.image area.old) }
        requires known { Knows (A.image area.old) self.old }
        requires within { id.num < length (known_of self.old id.kind).places }
        requires short { length (A.image area.old) ≤ image_limit }
        ensures removed { OnOk result (RemovesVariable (A.image area.old) (A.image area.new) id.kind id.num) }
        ensures known { OnOk result (Knows (A.image area.new) self.new) }
        ensures stays { OnErr result (Knows (A.image area.old) self.new) }
        ensures area { Edits A.frame A.faults area.old area.new result }
    {
        match id.kind {
            Kind::R => self.r.remove(self.alloc, area, Kind::R, id.num),
            Kind::Z => self.z.remove(self.alloc, area, Kind::Z, id.num),
        }
    }
}
