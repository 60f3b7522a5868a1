//! Indexes that `reindex` does not make: the fewest nodes are made, filled from the left, and placed from the leaves up. Laws say it of any two images and any acts, whatever else the index has; and beside two of them stands a wrong image of a file with 65 leaves, the fewest of an index of two levels. Of such an image the index and its leaves are computed. Its content and the rules are not: that takes more than 4 GB.

ghost use Rattle.std.specs.Prelude.{◌≡◌, ◌≢◌, ℕ, Bool, List, [], ◌∷◌, length};
ghost use Rattle.cdf_edits.specs.Commands.Reindex.{MakesIndex, nodes_at, levels_up};
ghost use Rattle.cdf_edits.specs.Space.Acts.{Act, ActsFollow};
ghost use Rattle.cdf_edits.specs.Space.Placement.{unused};
ghost use Rattle.cdf_format.specs.Index.{no_node, node, no_entry, block, lower, leaves_of};
ghost use Rattle.cdf_format.specs.Shape.{VariableShape, shape};
ghost use Rattle.cdf_examples.specs.Claimed.{Refused};
ghost use Rattle.cdf_examples.specs.WideIndexes.{reindex_w, w_shape, wide_node_file, wide_node_index, from_the_right_file, from_the_right_index, root_first_file, root_first_index};

/// Of 65 leaves the first node has one, and the second has 64. No index with such a level, be it the lowest or another, is made.
pub fn not_from_the_left()
    ensures law { (b now : List ℕ) (before after : VariableShape) (acts : List Act) (levels first second : ℕ) → nodes_at levels after.index ≡ (first, 1) ∷ (second, 64) ∷ [] → MakesIndex b now before after acts → ⊥ }
    ensures index { (shape from_the_right_file).z_variables ≡ w_shape from_the_right_index ∷ [] }
    ensures leaves { leaves_of from_the_right_index ≡ leaves_of wide_node_index }
    ensures refused { Refused wide_node_file reindex_w from_the_right_file }
{}

/// Where nothing is unused, the first node of the lowest level stands at the old end. So the root of several levels does not. No index whose lowest level begins elsewhere is made, and so none whose root was taken first.
pub fn not_root_first()
    ensures law { (b now : List ℕ) (before after : VariableShape) (acts : List Act) (lowest : ℕ) (more : List ℕ) → levels_up 7 after.index ≡ lowest ∷ more → unused b (shape b) ≡ [] → lowest ≢ length b
        → ActsFollow b now acts → MakesIndex b now before after acts → ⊥ }
    ensures index { (shape root_first_file).z_variables ≡ w_shape root_first_index ∷ [] }
    ensures leaves { leaves_of root_first_index ≡ leaves_of wide_node_index }
    ensures refused { Refused wide_node_file reindex_w root_first_file }
{}

/// A root over a node that would do is a node too many. No index that has more nodes than its leaves ask for is made, and this is the least of them.
pub fn not_a_root_more()
    ensures { (b now : List ℕ) (before after : VariableShape) (acts : List Act) (root only first last place : ℕ) (packed : Bool) → after.index ≡ node root 64 (lower first last (node only 64 (block first last place packed no_entry) no_node) no_entry) no_node → MakesIndex b now before after acts → ⊥ }
{}
