//! An index built anew: nodes of 64 entries name its leaves, and others name these, level by level, until one is left.

ghost use Rattle.std.specs.Prelude.{◌≡◌, ◌+◌, ◌*◌, ◌≤◌, List, length, map, IfOk, OnOk};
ghost use Rattle.cdf_area.specs.Calls.{Edits};
ghost use Rattle.cdf_edits.specs.Commands.Room.{node_entries, node_size, nodes_above, quotient_up};
ghost use Rattle.cdf_format.specs.Fields.{eof, gdr_offset};
ghost use Rattle.cdf_format.specs.Index.{Entries, Leaf};
ghost use Rattle.cdf_format.specs.Shape.{shape};
ghost use Rattle.cdf_format.specs.Sound.{IsSound};
ghost use Rattle.cdf_model.specs.Limits.{image_limit, level_limit};
ghost use Rattle.cdf_index.specs.Whole.{leaf_words};
ghost use Rattle.cdf_reindex.specs.Rebuilding.{LevelMade, NodeMade, PyramidMade, naming, words_of};

use cdf_area::{Area, AreaError};
use cdf_format::fields::{VXR_ENTRY_SIZE, VXR_FIRST};
use cdf_index::{Entry, write_node};
use cdf_space::alloc_record;
use std::alloc::Global;

/// How many entries a new node has.
pub const NODE_ENTRIES: u64 = 64;

/// The bytes of a node with as many entries.
pub const NODE_SIZE: u64 = VXR_FIRST + VXR_ENTRY_SIZE * NODE_ENTRIES;

/// Takes a record and makes a node of it, with these entries and none behind it. Gives its place.
/// After an error a part of this may have been done.
#[tactic(auto, using(crate::proofs::PyramidBuilt::node_made, crate::proofs::PyramidBuilt::node_eof))]
fn place_node<A: Area>(area: &mut A, entries: &[Entry]) -> Result<u64, AreaError>
    requires sound { IsSound (A.image area.old) (shape (A.image area.old)) }
    requires eof { eof (A.image area.old) (gdr_offset (A.image area.old)) ≡ length (A.image area.old) }
    requires few { length entries.now ≤ node_entries }
    requires room { length (A.image area.old) + node_size ≤ (A.frame area.old).limit }
    requires limit { (A.frame area.old).limit ≤ image_limit }
    ensures made { IfOk result (NodeMade (A.image area.old) (A.image area.new) entries.now) }
    ensures sound { OnOk result (IsSound (A.image area.new) (shape (A.image area.new))) }
    ensures eof { OnOk result (eof (A.image area.new) (gdr_offset (A.image area.new)) ≡ length (A.image area.new)) }
    ensures area { Edits A.frame A.faults area.old area.new result }
{
    let place = alloc_record(area, NODE_SIZE)?;
    write_node(area, place, NODE_ENTRIES, 0, entries)?;
    Ok(place)
}

/// The entry that names a node with these entries.
fn naming(place: u64, entries: &[Entry]) -> Entry
    requires some { 1 ≤ length entries.now }
    ensures { result ≡ naming place entries.now }
{
    Entry {
        first: entries[0].first,
        last: entries[entries.len() - 1].last,
        place,
    }
}

/// Makes the nodes of a level, which have these entries. Gives the entries that name them.
/// After an error a part of this may have been done.
fn write_level<A: Area>(
    alloc: Global,
    area: &mut A,
    entries: &[Entry],
) -> Result<Vec<Entry>, AreaError>
    requires sound { IsSound (A.image area.old) (shape (A.image area.old)) }
    requires eof { eof (A.image area.old) (gdr_offset (A.image area.old)) ≡ length (A.image area.old) }
    requires room { length (A.image area.old) + node_size * quotient_up (length entries.now) node_entries ≤ (A.frame area.old).limit }
    requires limit { (A.frame area.old).limit ≤ image_limit }
    ensures made { IfOk result (λ uppers. (below : Entries) → words_of below ≡ entries.now → LevelMade (A.image area.old) (A.image area.new) below uppers.items) }
    ensures count { IfOk result (λ uppers. length uppers.items ≡ quotient_up (length entries.now) node_entries) }
    ensures longest { IfOk result (λ uppers. length (A.image area.new) ≤ length (A.image area.old) + node_size * length uppers.items) }
    ensures sound { OnOk result (IsSound (A.image area.new) (shape (A.image area.new))) }
    ensures eof { OnOk result (eof (A.image area.new) (gdr_offset (A.image area.new)) ≡ length (A.image area.new)) }
    ensures area { Edits A.frame A.faults area.old area.new result }
{
    let mut uppers = Vec::new(alloc);
    for node in entries.chunks(NODE_ENTRIES as usize) {
        let place = place_node(area, node)?;
        uppers.push(naming(place, node))?;
    }
    Ok(uppers)
}

/// Makes the nodes over entries, a level over the other, until one node is left. Gives its place.
/// After an error a part of this may have been done.
#[tactic(auto, using(crate::proofs::LevelSteps::room_first))]
pub fn write_levels<A: Area>(
    alloc: Global,
    area: &mut A,
    entries: &[Entry],
) -> Result<u64, AreaError>
    requires sound { IsSound (A.image area.old) (shape (A.image area.old)) }
    requires eof { eof (A.image area.old) (gdr_offset (A.image area.old)) ≡ length (A.image area.old) }
    requires some { 1 ≤ length entries.now }
    requires few { length entries.now ≤ 2147483648 }
    requires room { length (A.image area.old) + node_size * nodes_above level_limit (length entries.now) ≤ (A.frame area.old).limit }
    requires limit { (A.frame area.old).limit ≤ image_limit }
    ensures made { IfOk result (λ top. (leaves : List Leaf) → entries.now ≡ map leaf_words leaves → PyramidMade (A.image area.old) (A.image area.new) leaves top) }
    ensures area { Edits A.frame A.faults area.old area.new result }
{
    let mut level = write_level(alloc, area, entries)?;
    while level.len() > 1 {
        level = write_level(alloc, area, &level)?;
    }
    Ok(level[0].place)
}
