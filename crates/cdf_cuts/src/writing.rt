//! The nodes that a cut leaves, written.

ghost use Rattle.std.specs.Prelude.{◌≡◌, ◌≤◌, length, map, OnOk};
ghost use Rattle.cdf_area.specs.Calls.{Edits};
ghost use Rattle.cdf_format.specs.Index.{room_at, used_count};
ghost use Rattle.cdf_format.specs.Records.{cdr_place};
ghost use Rattle.cdf_format.specs.Shape.{Each};
ghost use Rattle.cdf_format.specs.Tiles.{AreTiles, Distinct, tiles};
ghost use Rattle.cdf_index.specs.Finding.{NodeInside};
ghost use Rattle.cdf_model.specs.Limits.{image_limit};
ghost use Rattle.cdf_cuts.specs.Planning.{node_told};
ghost use Rattle.cdf_cuts.specs.Writing.{MayRelink, MayRewrite, NodeRewritten, Relinked, Rewritten, link_places, rewrite_places};

use crate::planning::{NodeCut, NodeLink};
use cdf_area::{Area, AreaError};
use cdf_index::write_entries;
use cdf_records::{set_vxr_n_used_entries, set_vxr_vxr_next};

/// Gives a node the entries that it is to have.
fn rewrite_node<A: Area>(area: &mut A, node: &NodeCut) -> Result<(), AreaError>
    requires inside { NodeInside (A.image area.old) node.now.place }
    requires room { node.now.room ≡ room_at (A.image area.old) node.now.place }
    requires used { node.now.used ≡ used_count (A.image area.old) node.now.place }
    requires few { length node.now.entries.items ≤ node.now.used }
    requires short { length (A.image area.old) ≤ image_limit }
    ensures rewritten { OnOk result (NodeRewritten (A.image area.old) (A.image area.new) (node_told node.now)) }
    ensures area { Edits A.frame A.faults area.old area.new result }
{
    write_entries(area, node.place, node.room, 0, node.used, &node.entries)?;
    set_vxr_n_used_entries(area, node.place, node.entries.len() as i32)
}

/// Gives nodes the entries that they are to have.
#[tactic(auto, using(crate::proofs::Rewriting::begin))]
pub fn rewrite_nodes<A: Area>(area: &mut A, nodes: &[NodeCut]) -> Result<(), AreaError>
    requires tiled { AreTiles (A.image area.old) cdr_place (length (A.image area.old)) (tiles (A.image area.old)) }
    requires may { Each (MayRewrite (A.image area.old) (tiles (A.image area.old))) (map node_told nodes.now) }
    requires once { Distinct (rewrite_places (map node_told nodes.now)) }
    requires short { length (A.image area.old) ≤ image_limit }
    ensures rewritten { OnOk result (Rewritten (A.image area.old) (A.image area.new) (tiles (A.image area.old)) (map node_told nodes.now)) }
    ensures area { Edits A.frame A.faults area.old area.new result }
{
    for node in nodes {
        rewrite_node(area, node)?;
    }
    Ok(())
}

/// Lets other nodes follow nodes.
#[tactic(auto, using(crate::proofs::Relinking::begin))]
pub fn relink_nodes<A: Area>(area: &mut A, links: &[NodeLink]) -> Result<(), AreaError>
    requires tiled { AreTiles (A.image area.old) cdr_place (length (A.image area.old)) (tiles (A.image area.old)) }
    requires may { Each (MayRelink (A.image area.old) (tiles (A.image area.old))) links.now }
    requires once { Distinct (link_places links.now) }
    requires short { length (A.image area.old) ≤ image_limit }
    ensures relinked { OnOk result (Relinked (A.image area.old) (A.image area.new) (tiles (A.image area.old)) links.now) }
    ensures area { Edits A.frame A.faults area.old area.new result }
{
    for link in links {
        set_vxr_vxr_next(area, link.place, link.next)?;
    }
    Ok(())
}
