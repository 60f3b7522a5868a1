//! The fields of a variable that its rules read.

ghost use Rattle.std.specs.Prelude.{IfOk};
ghost use Rattle.cdf_area.specs.Calls.{Reads};
ghost use Rattle.cdf_check.specs.Variables.{AreFields, IsVariable};

use cdf_area::{Area, AreaError};
use cdf_model::DataType;
use cdf_records::read_vdr;

/// Fields of the record of a variable without their sign, and its DataType if that is known.
#[derive(Clone, Copy)]
pub struct Fields {
    pub record_size: u64,
    pub record_type: u32,
    pub data_type: Option<DataType>,
    pub max_rec: u32,
    pub vxr_head: u64,
    pub flags: u32,
    pub s_records: u32,
    pub num_elems: u32,
    pub cpr_or_spr_offset: u64,
}

/// The fields of a variable, in one read.
pub fn read_fields<A: Area>(area: &mut A, vdr: u64) -> Result<Fields, AreaError>
    requires variable { IsVariable (A.image area.old) vdr }
    ensures fields { IfOk result (AreFields (A.image area.old) vdr) }
    ensures area { Reads A.image A.frame A.faults A.edited area.old area.new result }
{
    let head = read_vdr(area, vdr)?;
    Ok(Fields {
        record_size: head.record_size,
        record_type: head.record_type.cast_unsigned(),
        data_type: DataType::of_code(head.data_type),
        max_rec: head.max_rec.cast_unsigned(),
        vxr_head: head.vxr_head,
        flags: head.flags,
        s_records: head.s_records.cast_unsigned(),
        num_elems: head.num_elems.cast_unsigned(),
        cpr_or_spr_offset: head.cpr_or_spr_offset.cast_unsigned(),
    })
}
