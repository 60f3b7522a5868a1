//! What other bytes of a block leave of an image and its index, each law as the clause of a function.

ghost use Rattle.std.specs.Prelude.{◌≡◌, ◌<◌, ◌≤◌, ◌+◌, ◌-◌, ◌*◌, ℕ, List, length, true};
ghost use Rattle.cdf_edits.specs.Edits.Standing.{IsOneOf, StandsAmong};
ghost use Rattle.cdf_edits.specs.Index.Grown.{with_place};
ghost use Rattle.cdf_format.specs.Fields.{size_at};
ghost use Rattle.cdf_format.specs.Index.{Leaf, Nodes, leaves_of, nodes_of};
ghost use Rattle.cdf_format.specs.Shape.{VariableShape, is_compressed};
ghost use Rattle.cdf_format.specs.VariableFields.{record_bytes};
ghost use Rattle.cdf_format.specs.WellFormed.{Good};
ghost use Rattle.cdf_index.specs.Order.{InOrder};
ghost use Rattle.cdf_model.specs.Limits.{image_limit, record_number_limit};
ghost use Rattle.cdf_model.specs.declared.kinds.Kind.{Kind};
ghost use Rattle.cdf_blocks.specs.Blocks.{IsSite, LiesIn, StoredAs, stored_end};
ghost use Rattle.cdf_blocks.specs.declared.placing.Site.{Site};
ghost use Rattle.cdf_blocks.specs.Replaced.{BlockReplaced, Moved, Rewritten};
ghost use Rattle.cdf_blocks.specs.Shortened.{BlockShortened, with_range};

/// The nodes of an index stay where a leaf has some of its records alone, and so does its order; where it has all of them, only its place is another.
pub fn ranged_in_order()
    ensures nodes { (f : ℕ) (new : Leaf) (index : Nodes) → nodes_of (with_range f new index) ≡ nodes_of index }
    ensures order { (old new : Leaf) (index : Nodes) → InOrder 0 record_number_limit index → IsOneOf (leaves_of index) old → LiesIn old new.first new.last → InOrder 0 record_number_limit (with_range old.first new index) }
    ensures placed { (new : Leaf) (index : Nodes) → with_range new.first new index ≡ with_place new index }
{}

/// Where the bytes of a block are written in its record, and its entry has another range, the block is shortened.
pub fn rewritten_is_shortened()
    ensures { (b now : List ℕ) (kind : Kind) (before : List VariableShape) (own : VariableShape) (after : List VariableShape) (site : Site) (old new : Leaf) (bytes plain : List ℕ) → Good b → StandsAmong b kind before own after → IsOneOf (leaves_of own.index) old → IsSite b own.index site old → is_compressed b own.vdr ≡ true → LiesIn old new.first new.last → new.place ≡ old.place → new.packed ≡ old.packed → length plain ≡ (new.last + 1 - new.first) * record_bytes b own.vdr → StoredAs plain new.packed bytes → Rewritten b now site old new bytes → stored_end new.packed (length bytes) ≤ size_at b old.place → length b ≤ image_limit → BlockShortened b now kind before own after old new plain }
{}

/// Where a block got a new record, which its entry names, and the old one was freed, the block is shortened.
pub fn moved_is_shortened()
    ensures { (b now : List ℕ) (kind : Kind) (before : List VariableShape) (own : VariableShape) (after : List VariableShape) (site : Site) (old new : Leaf) (bytes plain : List ℕ) → Good b → StandsAmong b kind before own after → IsOneOf (leaves_of own.index) old → IsSite b own.index site old → is_compressed b own.vdr ≡ true → LiesIn old new.first new.last → length plain ≡ (new.last + 1 - new.first) * record_bytes b own.vdr → StoredAs plain new.packed bytes → Moved b now site old new bytes → length now ≤ image_limit → (old.packed ≡ new.packed → stored_end new.packed (length bytes) ≤ size_at b old.place → ⊥) → BlockShortened b now kind before own after old new plain }
{}

/// Where it keeps all its records, it is replaced.
pub fn shortened_is_replaced()
    ensures { (b now : List ℕ) (kind : Kind) (before : List VariableShape) (own : VariableShape) (after : List VariableShape) (old new : Leaf) (plain : List ℕ) → Good b → StandsAmong b kind before own after → IsOneOf (leaves_of own.index) old → new.first ≡ old.first → new.last ≡ old.last → BlockShortened b now kind before own after old new plain → BlockReplaced b now kind before own after old new plain }
{}
