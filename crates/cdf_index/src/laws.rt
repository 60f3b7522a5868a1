//! What holds of an index, each law as the clause of a function.

ghost use Rattle.std.specs.Prelude.{◌≡◌, ◌∷◌, ◌++◌, ◌≤◌, ℕ, List, Some, false, ◌≢◌, ◌+◌, ◌<◌, true, length, map};
ghost use Rattle.cdf_format.specs.Content.{variable_of};
ghost use Rattle.cdf_format.specs.Fields.{number};
ghost use Rattle.cdf_format.specs.GoodImage.{IsGoodImage};
ghost use Rattle.cdf_format.specs.Index.{Leaf as TreeLeaf, Nodes, leaves_of, nodes_of, room_at, used_count};
ghost use Rattle.cdf_edits.specs.Index.Blocks.{range, ranges_of, with_range};
ghost use Rattle.cdf_edits.specs.Index.Grown.{with_leaf};
ghost use Rattle.cdf_edits.specs.Frame.Kept.{SameHeads, Kept};
ghost use Rattle.cdf_edits.specs.Index.Redone.{redo};
ghost use Rattle.cdf_format.specs.Chains.{is_linkable};
ghost use Rattle.cdf_format.specs.IndexOf.{HasNodes};
ghost use Rattle.cdf_format.specs.Records.{vdr_vxr_head};
ghost use Rattle.cdf_format.specs.RecordTypes.{vxr_type};
ghost use Rattle.cdf_format.specs.Shape.{VariableShape, Shape, is_compressed, variables};
ghost use Rattle.cdf_format.specs.Sound.{IsSound, NodeFits};
ghost use Rattle.cdf_format.specs.Tiles.{In, Distinct};
ghost use Rattle.cdf_format.specs.VariableFields.{record_bytes};
ghost use Rattle.cdf_model.specs.Numbered.{item_at};
ghost use Rattle.cdf_index.specs.Finding.{index_at, HasIndex};
ghost use Rattle.cdf_index.specs.Growing.{with_new, Begins, MayName};
ghost use Rattle.cdf_index.specs.Order.{leaf_of};
ghost use Rattle.cdf_index.specs.Reading.{HoldsRecords, stored_in};
ghost use Rattle.cdf_index.specs.Sight.{seen};
ghost use Rattle.cdf_index.specs.Way.{way, spot, placed, widen_all};
ghost use Rattle.cdf_index.specs.Writing.{Inserted, Split, Chained};
ghost use Rattle.cdf_index.specs.declared.nodes.Leaf.{Leaf};

/// The index of a variable of a good image can be searched from the VXRhead of its VDR, and is the one that the shape has.
pub fn good_index()
    ensures { (b : List ℕ) (s : Shape) (before : List VariableShape) (v : VariableShape) (after : List VariableShape) → IsGoodImage b s → IsSound b s → variables s ≡ before ++ v ∷ after → HasIndex b (number b v.vdr vdr_vxr_head) × (index_at b (number b v.vdr vdr_vxr_head) ≡ v.index) }
{}

/// A block that is not packed, found in the index of a variable of a good image, has its records, as many bytes each as the variable says.
pub fn good_block()
    ensures { (b : List ℕ) (s : Shape) (before : List VariableShape) (v : VariableShape) (after : List VariableShape) → IsGoodImage b s → IsSound b s → variables s ≡ before ++ v ∷ after → (rec : ℕ) (leaf : Leaf) → leaf_of rec (leaves_of v.index) ≡ Some (seen leaf) → leaf.packed ≡ false → HoldsRecords b leaf (record_bytes b v.vdr) × (leaf.first ≤ rec) × (rec ≤ leaf.last) }
{}

/// The record of a number that a variable of a good image has is one of the records of the leaf that has it. Past MaxRec, and where no leaf has it, there is none.
#[tactic(auto, using(crate::proofs::StoredRecords::stored_record))]
pub fn stored_record()
    ensures { (b : List ℕ) (s : Shape) (before : List VariableShape) (v : VariableShape) (after : List VariableShape) → IsGoodImage b s → IsSound b s → variables s ≡ before ++ v ∷ after → (rec : ℕ) → item_at rec (variable_of b v).recs ≡ stored_in b v.vdr rec (leaf_of rec (leaves_of v.index)) }
{}

/// The block that has a record of a variable of a good image is not packed, where the variable is not compressed.
#[tactic(auto, using(crate::proofs::PlainBlocks::plain_block))]
pub fn plain_block()
    ensures { (b : List ℕ) (s : Shape) (before : List VariableShape) (v : VariableShape) (after : List VariableShape) → IsGoodImage b s → IsSound b s → variables s ≡ before ++ v ∷ after → is_compressed b v.vdr ≡ false → (rec : ℕ) (leaf : TreeLeaf) → leaf_of rec (leaves_of v.index) ≡ Some leaf → leaf.packed ≡ false }
{}

/// An index with one leaf more has the leaves that it had, and this one before the first that begins past it.
#[tactic(auto, using(crate::proofs::LeafMore::leaves_more, crate::proofs::LeafMore::ranges_new))]
pub fn leaf_more()
    ensures leaves { (b : List ℕ) (head at : ℕ) (l : TreeLeaf) → HasIndex b head → leaves_of (with_leaf l at (index_at b head)) ≡ with_new l (leaves_of (index_at b head)) }
    ensures ranges { (b : List ℕ) (head at : ℕ) (l : TreeLeaf) → HasIndex b head → ranges_of (with_leaf l at (index_at b head)) ≡ with_range (range l.first l.last) (ranges_of (index_at b head)) }
{}

/// Where a node gets the entry of a leaf, and a new node where it is full, and the other nodes stay, the new image has the tree with that node so edited.
pub fn node_grown()
    ensures with_room { (b now records records' : List ℕ) (at new used p levels : ℕ) (l : TreeLeaf) (nodes : Nodes) → SameHeads b now records records' → used ≡ used_count b at → Begins b at l.first p → MayName now records' l → used < room_at b at → Inserted b now at used p l.first l.last l.place → at + 28 ≤ length b → HasNodes b records levels nodes → Distinct (nodes_of nodes) → ((m : ℕ) → In m (nodes_of nodes) → m ≢ at → Kept b now m × NodeFits b m) → ((m : ℕ) → In m (map (λ leaf. leaf.place) (leaves_of nodes)) → In m records) → HasNodes now records' levels (redo at (placed l new at) nodes) }
    ensures split { (b now records records' : List ℕ) (at new used p levels : ℕ) (l : TreeLeaf) (nodes : Nodes) → SameHeads b now records records' → used ≡ used_count b at → Begins b at l.first p → MayName now records' l → room_at b at ≤ used → is_linkable now records' vxr_type new ≡ true → Split b now at new used p l.first l.last l.place → p < used → HasNodes b records levels nodes → Distinct (nodes_of nodes) → ((m : ℕ) → In m (nodes_of nodes) → m ≢ at → Kept b now m × NodeFits b m) → ((m : ℕ) → In m (map (λ leaf. leaf.place) (leaves_of nodes)) → In m records) → HasNodes now records' levels (redo at (placed l new at) nodes) }
    ensures behind { (b now records records' : List ℕ) (at new used p levels : ℕ) (l : TreeLeaf) (nodes : Nodes) → SameHeads b now records records' → used ≡ used_count b at → Begins b at l.first p → MayName now records' l → room_at b at ≤ used → is_linkable now records' vxr_type new ≡ true → Chained b now at new used l.first l.last l.place → p ≡ used → HasNodes b records levels nodes → Distinct (nodes_of nodes) → ((m : ℕ) → In m (nodes_of nodes) → m ≢ at → Kept b now m × NodeFits b m) → ((m : ℕ) → In m (map (λ leaf. leaf.place) (leaves_of nodes)) → In m records) → HasNodes now records' levels (redo at (placed l new at) nodes) }
{}

/// An index with one leaf more is what the edit of the node at the end of the way makes of it, and then one in each node on the way, from the bottom up.
#[tactic(auto, using(crate::proofs::WayDown::on_its_way))]
pub fn leaf_on_its_way()
    ensures { (b : List ℕ) (head at : ℕ) (l : TreeLeaf) → HasIndex b head → head ≢ 0 → widen_all l.last (way l.first (index_at b head)) (redo (spot l.first (index_at b head)) (placed l at (spot l.first (index_at b head))) (index_at b head)) ≡ with_leaf l at (index_at b head) }
{}
