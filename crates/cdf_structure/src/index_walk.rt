//! The walk over the nodes of an index, and the rules that are asked of each.

ghost use Rattle.std.specs.Prelude.{◌≡◌, ◌+◌, ◌++◌, ◌∷◌, [], ◌≤◌, ◌<◌, ◌^◌, length, true, false, IfOk, OnOk, None};
ghost use Rattle.cdf_area.specs.Calls.{Reads};
ghost use Rattle.cdf_model.specs.Limits.{level_limit};
ghost use Rattle.cdf_format.specs.Chains.{is_linkable};
ghost use Rattle.cdf_format.specs.IndexRules.{is_between, is_block};
ghost use Rattle.cdf_format.specs.Rules.{row};
ghost use Rattle.cdf_format.specs.Tiles.{AreTiles};
ghost use Rattle.cdf_format.specs.Fields.{size_at};
ghost use Rattle.cdf_format.specs.Records.{cdr_place};
ghost use Rattle.cdf_structure.specs.Met.{Agrees};
ghost use Rattle.cdf_structure.specs.Indexes.{IsNodeAt, WalksNodes, WalksEntries, FindsMore, Enters, EndsAt, block_in};

use crate::finding::Finding;
use crate::links::{goes_on, is_a, is_linkable};
use crate::met::Met;
use crate::nodes::{Entry, Node, read_entry, read_node, with_sign};
use cdf_area::{Area, AreaError};
use cdf_format::fields::{CVVR_TYPE, VVR_TYPE, VXR_TYPE};
use std::alloc::Global;

/// A block of an index: its records from a first to a last, and where it stands.
#[derive(Clone, Copy)]
pub struct Block {
    pub first: u32,
    pub last: u32,
    pub place: u64,
}

/// What was met of an index: its nodes and its blocks in order, and the first rule that is broken, but for those on links.
#[derive(Drop)]
pub struct Index {
    pub nodes: Met,
    pub blocks: Vec<Block>,
    pub broken: Option<Finding>,
}

/// The numbers between which entries lie. Of these only the greater one may be taken.
#[derive(Clone, Copy)]
pub struct Between {
    pub low: i64,
    pub high: i64,
}

/// A chain of nodes: the record that has the link to it, and the link.
#[derive(Clone, Copy)]
pub struct Chain {
    pub holder: u64,
    pub link: u64,
}

impl Index {
    pub fn new(alloc: Global) -> Index
        ensures agrees { Agrees result.nodes }
        ensures no_nodes { result.nodes.list.items ≡ [] }
        ensures no_blocks { result.blocks.items ≡ [] }
        ensures none { result.broken ≡ None }
    {
        Index {
            nodes: Met::new(alloc),
            blocks: Vec::new(alloc),
            broken: None,
        }
    }

    /// Keeps in mind a rule that is broken, if none is yet.
    fn ask(&mut self, rule: u8, place: u64, holds: bool)
        ensures nodes { self.new.nodes ≡ self.old.nodes }
        ensures blocks { self.new.blocks ≡ self.old.blocks }
        ensures found { FindsMore self.old.broken self.new.broken (row rule place holds ∷ []) }
    {
        if !holds && self.broken.is_none() {
            self.broken = Some(Finding { rule, place });
        }
    }
}

/// Whether First and Last of an entry are in order and between the numbers.
fn is_between(between: Between, entry: Entry) -> bool
    ensures { result ≡ is_between between.low between.high entry.first entry.last }
{
    let first = with_sign(entry.first);
    let last = with_sign(entry.last);
    between.low < first && first <= last && last <= between.high
}

/// Whether the block of records stands at a place.
fn is_block<A: Area>(area: &mut A, tiles: &[u64], place: u64) -> Result<bool, AreaError>
    requires tiled { AreTiles (A.image area.old) cdr_place (length (A.image area.old)) tiles.now }
    ensures value { IfOk result (λ is. is ≡ is_block (A.image area.old) tiles.now place) }
    ensures area { Reads A.image A.frame A.faults A.edited area.old area.new result }
{
    if is_a(area, tiles, VVR_TYPE, place)? {
        return Ok(true);
    }
    is_a(area, tiles, CVVR_TYPE, place)
}

/// Meets the node at a place, to which its chain leads.
fn enter<A: Area>(
    area: &mut A,
    _tiles: &[u64],
    index: &mut Index,
    place: u64,
) -> Result<Node, AreaError>
    requires tiled { AreTiles (A.image area.old) cdr_place (length (A.image area.old)) _tiles.now }
    requires linkable { is_linkable (A.image area.old) _tiles.now 6 place ≡ true }
    requires agrees { Agrees index.old.nodes }
    ensures node { IfOk result (Enters (A.image area.old) index.old index.new place) }
    ensures area { Reads A.image A.frame A.faults A.edited area.old area.new result }
{
    let node = read_node(area, place)?;
    index.nodes.add(place)?;
    // 8.2
    index.ask(2, place, node.has_room);
    Ok(node)
}

/// Meets an entry of a node that names no other node, but a block.
fn add_block<A: Area>(
    area: &mut A,
    tiles: &[u64],
    index: &mut Index,
    node: u64,
    entry: Entry,
    is_ordered: bool,
) -> Result<(), AreaError>
    requires tiled { AreTiles (A.image area.old) cdr_place (length (A.image area.old)) tiles.now }
    ensures nodes { index.new.nodes ≡ index.old.nodes }
    ensures blocks { OnOk result (index.new.blocks.items ≡ index.old.blocks.items ++ block_in entry ∷ []) }
    ensures found { OnOk result (FindsMore index.old.broken index.new.broken (row 3 node (is_block (A.image area.old) tiles.now entry.offset) ∷ row 4 node is_ordered ∷ [])) }
    ensures area { Reads A.image A.frame A.faults A.edited area.old area.new result }
{
    let is = is_block(area, tiles, entry.offset)?;
    index.blocks.push(Block {
        first: entry.first,
        last: entry.last,
        place: entry.offset,
    })?;
    // 8.3
    index.ask(3, node, is);
    // 8.4
    index.ask(4, node, is_ordered);
    Ok(())
}

/// Walks an entry of a node, with all that is below it, and gives its Last; or the place of a record with a link that leads wrong.
#[cycle(walking)]
fn walk_entry<A: Area>(
    area: &mut A,
    tiles: &[u64],
    levels: u64,
    node: &Node,
    i: u64,
    between: Between,
    index: &mut Index,
) -> Result<Result<i64, u64>, AreaError>
    requires tiled { AreTiles (A.image area.old) cdr_place (length (A.image area.old)) tiles.now }
    requires small { length (A.image area.old) < 2 ^ 31 }
    requires few { levels ≤ level_limit }
    requires node { IsNodeAt (A.image area.old) node.now.place node.now }
    requires fits { node.now.place + size_at (A.image area.old) node.now.place ≤ length (A.image area.old) }
    requires used { i < node.now.used }
    requires agrees { Agrees index.old.nodes }
    ensures walk { IfOk result (WalksEntries (A.image area.old) tiles.now levels node.now.place i 1 between index.old index.new) }
    ensures area { Reads A.image A.frame A.faults A.edited area.old area.new result }
{
    let entry = read_entry(area, node, i)?;
    let is_ordered = is_between(between, entry);
    let last = with_sign(entry.last);
    if !is_linkable(area, tiles, VXR_TYPE, entry.offset)? {
        add_block(area, tiles, index, node.place, entry, is_ordered)?;
        return Ok(Ok(last));
    }
    // 8.4
    index.ask(4, node.place, is_ordered);
    let chain = Chain {
        holder: node.place,
        link: entry.offset,
    };
    let within = Between {
        low: with_sign(entry.first) - 1,
        high: last,
    };
    match walk_nodes(area, tiles, levels, chain, within, index)? {
        Ok(()) => Ok(Ok(last)),
        Err(place) => Ok(Err(place)),
    }
}

/// Walks the entries of a node, and gives Last of the last one, or the lesser number where there is none; or the place of a record
/// with a link that leads wrong.
#[cycle(walking)]
fn walk_entries<A: Area>(
    area: &mut A,
    tiles: &[u64],
    levels: u64,
    node: &Node,
    between: Between,
    index: &mut Index,
) -> Result<Result<i64, u64>, AreaError>
    requires tiled { AreTiles (A.image area.old) cdr_place (length (A.image area.old)) tiles.now }
    requires small { length (A.image area.old) < 2 ^ 31 }
    requires few { levels ≤ level_limit }
    requires node { IsNodeAt (A.image area.old) node.now.place node.now }
    requires fits { node.now.place + size_at (A.image area.old) node.now.place ≤ length (A.image area.old) }
    requires agrees { Agrees index.old.nodes }
    ensures walk { IfOk result (WalksEntries (A.image area.old) tiles.now levels node.now.place 0 node.now.used between index.old index.new) }
    ensures area { Reads A.image A.frame A.faults A.edited area.old area.new result }
{
    let high = between.high;
    let mut low = between.low;
    for i in 0..node.used {
        let rest = Between { low, high };
        match walk_entry(area, tiles, levels, node, i, rest, index)? {
            Ok(last) => {
                low = last;
            }
            Err(place) => return Ok(Err(place)),
        }
    }
    Ok(Ok(low))
}

/// Whether a chain ends at a link; else the record with the link.
fn end_of(chain: Chain) -> Result<(), u64>
    ensures { EndsAt chain result }
{
    if chain.link == 0 {
        Ok(())
    } else {
        Err(chain.holder)
    }
}

/// Walks a chain of nodes of at most so many levels; or gives the place of a record with a link that leads wrong.
#[cycle(walking)]
pub fn walk_nodes<A: Area>(
    area: &mut A,
    tiles: &[u64],
    levels: u64,
    chain: Chain,
    between: Between,
    index: &mut Index,
) -> Result<Result<(), u64>, AreaError>
    requires tiled { AreTiles (A.image area.old) cdr_place (length (A.image area.old)) tiles.now }
    requires small { length (A.image area.old) < 2 ^ 31 }
    requires few { levels ≤ level_limit }
    requires agrees { Agrees index.old.nodes }
    ensures walk { IfOk result (WalksNodes (A.image area.old) tiles.now levels chain between index.old index.new) }
    ensures area { Reads A.image A.frame A.faults A.edited area.old area.new result }
{
    if levels == 0 {
        return Ok(end_of(chain));
    }
    let mut rest = chain;
    let mut low = between.low;
    let high = between.high;
    for turn in 0..tiles.len() {
        if rest.link == 0 {
            return Ok(Ok(()));
        }
        let place = rest.link;
        if !goes_on(area, tiles, VXR_TYPE, &index.nodes, place)? {
            return Ok(Err(rest.holder));
        }
        let node = enter(area, tiles, index, place)?;
        match walk_entries(area, tiles, levels - 1, &node, Between { low, high }, index)? {
            Ok(last) => {
                low = last;
            }
            Err(lost) => return Ok(Err(lost)),
        }
        rest = Chain {
            holder: place,
            link: node.next,
        };
    }
    Ok(end_of(rest))
}
