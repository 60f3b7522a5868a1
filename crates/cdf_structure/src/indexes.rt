//! The rules on the indexes of variables.

ghost use Rattle.std.specs.Prelude.{◌≡◌, ◌<◌, ◌^◌, length, map, None, IfOk};
ghost use Rattle.std.specs.List.{flat_map};
ghost use Rattle.cdf_area.specs.Calls.{Reads};
ghost use Rattle.cdf_format.specs.Fields.{number};
ghost use Rattle.cdf_format.specs.IndexRules.{met_rows, phase8};
ghost use Rattle.cdf_format.specs.Owners.{variable_records};
ghost use Rattle.cdf_format.specs.Records.{vdr_vxr_head, cdr_place};
ghost use Rattle.cdf_format.specs.Rules.{Hold};
ghost use Rattle.cdf_format.specs.Shape.{index_of, variable_shape};
ghost use Rattle.cdf_format.specs.Tiles.{AreTiles};
ghost use Rattle.cdf_format.specs.VariableFields.{record_bytes};
ghost use Rattle.cdf_format.specs.VariableRules.{phase7};
ghost use Rattle.cdf_structure.specs.Indexes.{cpr_at, index_records, WalksIndex};
ghost use Rattle.cdf_structure.specs.Findings.{Finds, Yields};
ghost use Rattle.cdf_structure.specs.Known.{IsIndexed, IsRightOf, KnowsIndexes};
ghost use Rattle.cdf_structure.specs.Owners.{IsFor, IsToldOf};
ghost use Rattle.cdf_structure.specs.Walked.{Climbs};

use crate::blocks::check_blocks;
use crate::finding::Finding;
use crate::index_walk::{Between, Chain, Index, walk_nodes};
use crate::known::KnownIndexes;
use crate::owners::Owners;
use crate::room::Room;
use cdf_area::{Area, AreaError};
use cdf_model::limits::{LEVEL_LIMIT, RECORD_NUMBER_LIMIT};
use std::alloc::Global;

/// The index from the VXRhead of a variable, which is given; or the place of a record with a link that leads wrong.
fn walk_index<A: Area>(
    alloc: Global,
    area: &mut A,
    tiles: &[u64],
    vdr: u64,
    head: u64,
) -> Result<Result<Index, u64>, AreaError>
    requires tiled { AreTiles (A.image area.old) cdr_place (length (A.image area.old)) tiles.now }
    requires small { length (A.image area.old) < 2 ^ 31 }
    requires head { head ≡ number (A.image area.old) vdr vdr_vxr_head }
    ensures walk { IfOk result (WalksIndex (A.image area.old) tiles.now vdr) }
    ensures area { Reads A.image A.frame A.faults A.edited area.old area.new result }
{
    let chain = Chain {
        holder: vdr,
        link: head,
    };
    let between = Between {
        low: -1,
        high: i64::from(RECORD_NUMBER_LIMIT),
    };
    let mut index = Index::new(alloc);
    match walk_nodes(area, tiles, LEVEL_LIMIT, chain, between, &mut index)? {
        Ok(()) => Ok(Ok(index)),
        Err(place) => Ok(Err(place)),
    }
}

/// A variable whose index is checked: the place of its VDR, its CPR if it is compressed, how many bytes a record takes, and the link to
/// the index.
#[derive(Clone, Copy)]
struct Indexed {
    vdr: u64,
    cpr: Option<u64>,
    rec_bytes: u64,
    head: u64,
}

/// An index that keeps all rules, and how many bytes a record may take for that.
#[derive(Drop)]
struct RightIndex {
    index: Index,
    room: Room,
}

/// The index of a variable, or a rule on it that is broken.
fn check_index<A: Area>(
    alloc: Global,
    area: &mut A,
    tiles: &[u64],
    variable: Indexed,
    known: &mut KnownIndexes,
) -> Result<Result<RightIndex, Finding>, AreaError>
    requires tiled { AreTiles (A.image area.old) cdr_place (length (A.image area.old)) tiles.now }
    requires small { length (A.image area.old) < 2 ^ 31 }
    requires variable { IsIndexed (A.image area.old) variable }
    requires known { KnowsIndexes (A.image area.old) tiles.now known.old }
    ensures found { IfOk result (Yields (met_rows (A.image area.old) tiles.now variable.vdr (index_of (A.image area.old) tiles.now variable.vdr)) (IsRightOf (A.image area.old) tiles.now variable)) }
    ensures known { KnowsIndexes (A.image area.old) tiles.now known.new }
    ensures area { Reads A.image A.frame A.faults A.edited area.old area.new result }
{
    let index = match walk_index(alloc, area, tiles, variable.vdr, variable.head)? {
        Ok(index) => index,
        // 8.1
        Err(place) => return Ok(Err(Finding { rule: 1, place })),
    };
    if let Some(broken) = index.broken {
        return Ok(Err(broken));
    }
    let is_compressed = variable.cpr.is_some();
    let rec_bytes = variable.rec_bytes;
    let blocks = &index.blocks;
    match check_blocks(alloc, area, tiles, known, is_compressed, rec_bytes, blocks)? {
        Ok(room) => Ok(Ok(RightIndex { index, room })),
        Err(broken) => Ok(Err(broken)),
    }
}

/// Tells of the records of a variable with this index.
fn own(owners: &mut Owners, tiles: &[u64], variable: Indexed, index: &Index)
    requires climbs { Climbs tiles.now }
    requires marks { IsFor tiles.now owners.old }
    ensures marks { IsFor tiles.now owners.new }
    ensures told { IsToldOf tiles.now (index_records variable index.now) owners.old owners.new }
{
    owners.add(tiles, variable.vdr);
    owners.add_all(tiles, &index.nodes.list);
    for block in &index.blocks {
        owners.add(tiles, block.place);
    }
    if let Some(cpr) = variable.cpr {
        owners.add(tiles, cpr);
    }
}

/// A rule on the index of a variable that is broken. Where none is, the records of the variable are told of.
fn check_indexed<A: Area>(
    alloc: Global,
    area: &mut A,
    tiles: &[u64],
    variable: Indexed,
    known: &mut KnownIndexes,
    owners: &mut Owners,
) -> Result<Option<Finding>, AreaError>
    requires tiled { AreTiles (A.image area.old) cdr_place (length (A.image area.old)) tiles.now }
    requires small { length (A.image area.old) < 2 ^ 31 }
    requires variable { IsIndexed (A.image area.old) variable }
    requires known { KnowsIndexes (A.image area.old) tiles.now known.old }
    requires marks { IsFor tiles.now owners.old }
    ensures found { IfOk result (Finds (met_rows (A.image area.old) tiles.now variable.vdr (index_of (A.image area.old) tiles.now variable.vdr))) }
    ensures known { KnowsIndexes (A.image area.old) tiles.now known.new }
    ensures marks { IsFor tiles.now owners.new }
    ensures told { result ≡ Ok None → IsToldOf tiles.now (variable_records (variable_shape (A.image area.old) tiles.now variable.vdr)) owners.old owners.new }
    ensures area { Reads A.image A.frame A.faults A.edited area.old area.new result }
{
    // Once a record has two owners, nothing more of owners is asked, so an index that is known is not walked again.
    if owners.is_shared() && known.has(variable.head, variable.cpr.is_some(), variable.rec_bytes) {
        return Ok(None);
    }
    match check_index(alloc, area, tiles, variable, known)? {
        Ok(right) => {
            own(owners, tiles, variable, &right.index);
            known.add(variable.head, right.room);
            Ok(None)
        }
        Err(broken) => Ok(Some(broken)),
    }
}

/// A rule on the indexes of the variables of an image that is broken; the variables keep their own rules, and have records of so many
/// bytes each, and a CPR each that is compressed. Where none is, the records of all of them are told of.
pub fn check_indexes<A: Area>(
    alloc: Global,
    area: &mut A,
    tiles: &[u64],
    vdrs: &[u64],
    cprs: &[Option<u64>],
    record_sizes: &[u64],
    vxr_heads: &[u64],
    owners: &mut Owners,
) -> Result<Option<Finding>, AreaError>
    requires tiled { AreTiles (A.image area.old) cdr_place (length (A.image area.old)) tiles.now }
    requires small { length (A.image area.old) < 2 ^ 31 }
    requires described { Hold (phase7 (A.image area.old) tiles.now vdrs.now) }
    requires cprs { cprs.now ≡ map (cpr_at (A.image area.old)) vdrs.now }
    requires sizes { record_sizes.now ≡ map (record_bytes (A.image area.old)) vdrs.now }
    requires heads { vxr_heads.now ≡ map (λ vdr. number (A.image area.old) vdr vdr_vxr_head) vdrs.now }
    requires marks { IsFor tiles.now owners.old }
    ensures found { IfOk result (Finds (phase8 (A.image area.old) tiles.now vdrs.now)) }
    ensures marks { IsFor tiles.now owners.new }
    ensures told { result ≡ Ok None → IsToldOf tiles.now (flat_map variable_records (map (variable_shape (A.image area.old) tiles.now) vdrs.now)) owners.old owners.new }
    ensures area { Reads A.image A.frame A.faults A.edited area.old area.new result }
{
    let mut known = KnownIndexes::new(alloc);
    for i in 0..vdrs.len() {
        let variable = Indexed {
            vdr: vdrs[i],
            cpr: cprs[i],
            rec_bytes: record_sizes[i],
            head: vxr_heads[i],
        };
        let found = check_indexed(alloc, area, tiles, variable, &mut known, owners)?;
        if let Some(broken) = found {
            return Ok(Some(broken));
        }
    }
    Ok(None)
}
