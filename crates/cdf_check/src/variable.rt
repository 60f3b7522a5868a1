//! The rules on a variable by itself.

ghost use Rattle.std.specs.Prelude.{◌≡◌, ◌&&◌, ◌||◌, ◌==◌, ℕ, List, [], length, IfOk};
ghost use Rattle.cdf_area.specs.Calls.{Reads};
ghost use Rattle.cdf_model.specs.Values.{notation_of};
ghost use Rattle.cdf_model.specs.VariableSteps.{is_characters};
ghost use Rattle.cdf_format.specs.Fields.{gdr_offset, is_positive, name_in};
ghost use Rattle.cdf_format.specs.Records.{cdr_place, vdr_name};
ghost use Rattle.cdf_format.specs.Tiles.{AreTiles};
ghost use Rattle.cdf_format.specs.VariableRules.{variable_rows};
ghost use Rattle.cdf_check.specs.Variables.{AreFields, AreValues, HasSizes, IsVariable, IsVariableOf, packing_rows, records_rows, value_rows};
ghost use Rattle.cdf_structure.specs.Findings.{Finds, Yields};
ghost use Rattle.cdf_structure.specs.Indexes.{cpr_at};

use crate::parameters::{is_cpr, is_known_packing};
use crate::variable_fields::{Fields, read_fields};
use crate::variable_shape::{Value, check_shape};
use cdf_area::{Area, AreaError};
use cdf_format::fields::VDR_COMPRESSION_BIT;
use cdf_format::flags::has_bit;
use cdf_model::limits::{RECORD_NUMBER_LIMIT, SIGNED_LIMIT};
use cdf_model::{Bytes, DataType};
use cdf_records::read_name;
use cdf_structure::Finding;
use std::alloc::Global;

/// SRecords: the greatest number that stands for a rule on records that are not there.
const LAST_SPARSE: u32 = 2;
/// MaxRec of a variable without records.
const NO_RECORD: u32 = u32::MAX;

/// What a variable that keeps its rules has: its Name, the place of its CPR if it is compressed, how many bytes a record takes, and the
/// link to its index.
#[derive(Drop)]
pub struct Variable {
    pub name: Bytes,
    pub cpr: Option<u64>,
    pub record_bytes: u64,
    pub vxr_head: u64,
}

/// The Name of a variable.
#[tactic(auto, using(crate::proofs::VariableSteps::name_lies, crate::proofs::VariableSteps::name_is))]
fn read_variable_name<A: Area>(alloc: Global, area: &mut A, vdr: u64) -> Result<Bytes, AreaError>
    requires { IsVariable (A.image area.old) vdr }
    ensures value { IfOk result (λ name. name ≡ name_in (A.image area.old) vdr vdr_name) }
    ensures area { Reads A.image A.frame A.faults A.edited area.old area.new result }
{
    read_name(alloc, area, vdr)
}

/// Whether the elements of a type are characters.
fn is_characters(data_type: DataType) -> bool
    ensures { result ≡ is_characters (notation_of data_type) }
{
    match data_type {
        DataType::Char | DataType::UChar => true,
        DataType::Int1 | DataType::Int2 | DataType::Int4 => false,
        DataType::Int8 | DataType::TimeTt2000 | DataType::Byte => false,
        DataType::UInt1 | DataType::UInt2 | DataType::UInt4 => false,
        DataType::Real4 | DataType::Real8 | DataType::Epoch => false,
        DataType::Epoch16 | DataType::Float | DataType::Double => false,
    }
}

/// Whether a value may have so many elements of a type.
fn has_elements(data_type: DataType, elements: u32) -> bool
    ensures { result ≡ (is_positive elements && ((elements == 1) || is_characters (notation_of data_type))) }
{
    let is_text = is_characters(data_type);
    elements >= 1 && elements <= SIGNED_LIMIT && (elements == 1 || is_text)
}

/// What the values of a variable are made of, or a rule on them that is broken.
fn check_values(vdr: u64, fields: &Fields) -> Result<Value, Finding>
    ensures { (b : List ℕ) → AreFields b vdr fields.now → Yields (value_rows b vdr) (AreValues b vdr) result }
{
    let place = vdr;
    let elements = fields.num_elems;
    let Some(data_type) = fields.data_type else {
        // 7.3
        return Err(Finding { rule: 3, place });
    };
    if !has_elements(data_type, elements) {
        // 7.4
        return Err(Finding { rule: 4, place });
    }
    Ok(Value {
        data_type,
        elements,
    })
}

/// The rules on the numbers of a variable's records.
fn check_records(vdr: u64, fields: &Fields) -> Option<Finding>
    ensures { (b : List ℕ) → AreFields b vdr fields.now → Finds (records_rows b vdr) result }
{
    let place = vdr;
    if fields.max_rec > RECORD_NUMBER_LIMIT && fields.max_rec != NO_RECORD {
        // 7.8
        return Some(Finding { rule: 8, place });
    }
    if fields.s_records > LAST_SPARSE {
        // 7.9
        return Some(Finding { rule: 9, place });
    }
    None
}

/// Where the parameters of a variable stand if it is compressed, or a rule on how its records are packed that is broken.
fn check_packing<A: Area>(
    area: &mut A,
    tiles: &[u64],
    vdr: u64,
    fields: &Fields,
) -> Result<Result<Option<u64>, Finding>, AreaError>
    requires tiled { AreTiles (A.image area.old) cdr_place (length (A.image area.old)) tiles.now }
    requires fields { AreFields (A.image area.old) vdr fields.now }
    ensures found { IfOk result (Yields (packing_rows (A.image area.old) tiles.now vdr) (λ cpr. cpr ≡ cpr_at (A.image area.old) vdr)) }
    ensures area { Reads A.image A.frame A.faults A.edited area.old area.new result }
{
    let place = vdr;
    let link = fields.cpr_or_spr_offset;
    if !has_bit(fields.flags, VDR_COMPRESSION_BIT) {
        if link != u64::MAX && link != 0 {
            // 7.10
            return Ok(Err(Finding { rule: 10, place }));
        }
        return Ok(Ok(None));
    }
    if !is_cpr(area, tiles, link)? {
        // 7.11
        return Ok(Err(Finding { rule: 11, place }));
    }
    if !is_known_packing(area, link)? {
        // 7.12
        return Ok(Err(Finding {
            rule: 12,
            place: link,
        }));
    }
    Ok(Ok(Some(link)))
}

/// What a variable has, or a rule on it that is broken, but for those that compare it with others.
pub fn check_variable<A: Area>(
    alloc: Global,
    area: &mut A,
    tiles: &[u64],
    gdr: u64,
    vdr: u64,
) -> Result<Result<Variable, Finding>, AreaError>
    requires gdr { gdr ≡ gdr_offset (A.image area.old) }
    requires sizes { HasSizes (A.image area.old) }
    requires tiled { AreTiles (A.image area.old) cdr_place (length (A.image area.old)) tiles.now }
    requires variable { IsVariable (A.image area.old) vdr }
    ensures found { IfOk result (Yields (variable_rows (A.image area.old) tiles.now [] vdr) (IsVariableOf (A.image area.old) vdr)) }
    ensures area { Reads A.image A.frame A.faults A.edited area.old area.new result }
{
    let name = read_variable_name(alloc, area, vdr)?;
    if name.as_slice().is_empty() {
        // 7.1
        return Ok(Err(Finding {
            rule: 1,
            place: vdr,
        }));
    }
    let fields = read_fields(area, vdr)?;
    let value = match check_values(vdr, &fields) {
        Ok(value) => value,
        Err(broken) => return Ok(Err(broken)),
    };
    let record_bytes = match check_shape(alloc, area, gdr, vdr, &fields, value)? {
        Ok(bytes) => bytes,
        Err(broken) => return Ok(Err(broken)),
    };
    if let Some(broken) = check_records(vdr, &fields) {
        return Ok(Err(broken));
    }
    let cpr = match check_packing(area, tiles, vdr, &fields)? {
        Ok(cpr) => cpr,
        Err(broken) => return Ok(Err(broken)),
    };
    let vxr_head = fields.vxr_head;
    Ok(Ok(Variable {
        name,
        cpr,
        record_bytes,
        vxr_head,
    }))
}
