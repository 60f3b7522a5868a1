//! What follows from the definitions, each law as the clause of a function.

ghost use Rattle.std.specs.Prelude.{◌≡◌, ◌≢◌, ◌⊎◌, ◌≤◌, ◌<◌, ◌+◌, ◌-◌, ℕ, List, length, nat_lt, take, drop, true};
ghost use Rattle.std.specs.List.{All};
ghost use Rattle.cdf_model.specs.DataSet.{extent, head_of, new_data_set};
ghost use Rattle.cdf_model.specs.Limits.{image_limit};
ghost use Rattle.cdf_format.specs.Sound.{IsSound};
ghost use Rattle.cdf_format.specs.Chains.{IsChain, chain};
ghost use Rattle.cdf_format.specs.Content.{content, content_of, head_by_fields, variable_of};
ghost use Rattle.cdf_format.specs.Fields.{word, number, size_at, type_at, eof, gdr_offset};
ghost use Rattle.cdf_format.specs.GoodImage.{IsGoodImage};
ghost use Rattle.cdf_format.specs.Index.{Nodes, nodes_of};
ghost use Rattle.cdf_format.specs.IndexOf.{IsIndex};
ghost use Rattle.cdf_format.specs.IndexWalk.{met, index_walk};
ghost use Rattle.cdf_format.specs.NotRead.{IsRead};
ghost use Rattle.cdf_format.specs.NewFile.{new_image, new_size};
ghost use Rattle.cdf_format.specs.Owners.{space_of, times, owned_records};
ghost use Rattle.cdf_format.specs.Phases.{first_phases, format_phases};
ghost use Rattle.cdf_format.specs.Records.{Field};
ghost use Rattle.cdf_format.specs.RecordTypes.{cdr_type};
ghost use Rattle.cdf_format.specs.Rules.{AllHold};
ghost use Rattle.cdf_format.specs.Sealed.{image_of, sealed};
ghost use Rattle.cdf_format.specs.Shape.{Shape, HasShape, VariableShape, shape};
ghost use Rattle.cdf_format.specs.Tiles.{In, AreTiles, tiling};
ghost use Rattle.cdf_format.specs.Walks.{whole};
ghost use Rattle.cdf_format.specs.WellFormed.{WellFormed, Breaks, Good, KeepsFormat};

/// A field that is read from a piece of the bytes is the field of the bytes.
pub fn word_of_piece()
    ensures { (b : List ℕ) (place n : ℕ) → word (take n (drop place b)) 0 n ≡ word b place n }
{}

/// A file that breaks a rule is not well formed.
pub fn broken_is_not_well_formed()
    ensures { (f : List ℕ) (phase rule place : ℕ) → WellFormed f → Breaks f phase rule place → ⊥ }
{}

/// A file is well formed exactly where it keeps the rules of the format and all of its image is read so far.
pub fn well_formed_is_read()
    ensures keeps { (f : List ℕ) → WellFormed f → KeepsFormat f }
    ensures read { (f : List ℕ) → WellFormed f → IsRead (image_of f) }
    ensures back { (f : List ℕ) → KeepsFormat f → IsRead (image_of f) → WellFormed f }
{}

/// A file that keeps the rules of the format is its image, sealed.
pub fn image_is_sealed()
    ensures { (f : List ℕ) → KeepsFormat f → sealed (image_of f) ≡ f }
{}

/// Two different records of an image share no byte.
pub fn tiles_apart()
    ensures { (b : List ℕ) (from upto : ℕ) (tiles : List ℕ) (one other : ℕ) → AreTiles b from upto tiles → In one tiles → In other tiles → one ≢ other → (one + size_at b one ≤ other) ⊎ (other + size_at b other ≤ one) }
{}

/// An image has at most one tiling, which is the one that is computed.
pub fn tiling_is_computed()
    ensures sound { (b tiles : List ℕ) → tiling b ≡ whole tiles → AreTiles b 8 (length b) tiles }
    ensures complete { (b tiles : List ℕ) → AreTiles b 8 (length b) tiles → tiling b ≡ whole tiles }
{}

/// From a link of an image with a tiling begins at most one chain, which is the one that is computed.
pub fn chain_is_computed()
    ensures sound { (b tiles : List ℕ) (type holder : ℕ) (head : Field) (members : List ℕ) → chain b tiles type holder head ≡ whole members → IsChain b tiles type (number b holder head) members }
    ensures complete { (b tiles : List ℕ) (upto type holder : ℕ) (head : Field) (members : List ℕ) → AreTiles b 8 upto tiles → IsChain b tiles type (number b holder head) members → chain b tiles type holder head ≡ whole members }
{}

/// From a link of an image with a tiling begins at most one index, which is the one that is computed.
pub fn index_is_computed()
    ensures sound { (b tiles : List ℕ) (upto holder : ℕ) (head : Field) (seen : List ℕ) (nodes : Nodes) → AreTiles b 8 upto tiles → index_walk b tiles holder head ≡ met seen nodes → IsIndex b tiles (number b holder head) nodes }
    ensures complete { (b tiles : List ℕ) (upto holder : ℕ) (head : Field) (nodes : Nodes) → AreTiles b 8 upto tiles → IsIndex b tiles (number b holder head) nodes → index_walk b tiles holder head ≡ met (nodes_of nodes) nodes }
{}

/// An image has at most one shape, which is the one that is computed.
pub fn shape_unique()
    ensures unique { (b : List ℕ) (s other : Shape) → HasShape b s → HasShape b other → s ≡ other }
    ensures computed { (b : List ℕ) (s : Shape) → HasShape b s → shape b ≡ s }
{}

/// An image with a shape means one data set.
pub fn content_unique()
    ensures unique { (b : List ℕ) (s other : Shape) → HasShape b s → HasShape b other → content_of b s ≡ content_of b other }
    ensures computed { (b : List ℕ) (s : Shape) → HasShape b s → content b ≡ content_of b s }
{}

/// The rules of phases 4 to 9 hold exactly where an image is good by its shape.
pub fn good_by_shape()
    ensures from_rules { (b : List ℕ) → 8 < length b → type_at b 8 ≡ cdr_type → AllHold (format_phases b) → IsGoodImage b (shape b) }
    ensures to_rules { (b : List ℕ) (s : Shape) → IsGoodImage b s → AllHold (format_phases b) }
{}

/// In the image of a file that keeps the rules of the format, each link that is followed leads to a record of the image; so do the entries of indexes and the links to parameters.
pub fn tile_of()
    ensures shaped { (f : List ℕ) → KeepsFormat f → HasShape (image_of f) (shape (image_of f)) }
    ensures owned { (f : List ℕ) (place : ℕ) → KeepsFormat f → In place (owned_records (image_of f) (shape (image_of f))) → In place (shape (image_of f)).records }
{}

/// In a good image each record, and nothing else, stands exactly once among the owned ones.
pub fn owned_once()
    ensures { (b : List ℕ) (s : Shape) (place : ℕ) → IsGoodImage b s → times place (owned_records b s) ≡ times place s.records }
{}

/// The image of a file that keeps the rules of the format has records that are long enough for what is read of them, and none is owned twice.
pub fn kept_rules_are_sound()
    ensures { (f : List ℕ) → KeepsFormat f → IsSound (image_of f) (shape (image_of f)) }
{}

/// The image of a sealed image is itself.
pub fn image_of_sealed()
    ensures { (b : List ℕ) → 44 ≤ length b → image_of (sealed b) ≡ b }
{}

/// A sealed image keeps the rules of the format exactly where it keeps those on its two first records, and is good by its shape.
pub fn sealed_keeps_all_rules()
    ensures from_shape { (b : List ℕ) (s : Shape) → AllHold (first_phases (sealed b)) → IsGoodImage b s → KeepsFormat (sealed b) }
    ensures to_shape { (b : List ℕ) → 44 ≤ length b → KeepsFormat (sealed b) → AllHold (first_phases (sealed b)) × IsGoodImage b (shape b) }
{}

/// What the records of an image take, and the 8 bytes before them, add up to the image.
pub fn space_adds_up()
    ensures { (b : List ℕ) (s : Shape) → HasShape b s → (space_of b s).used + (space_of b s).listed_bytes + (space_of b s).unlisted_bytes + 8 ≡ length b }
{}

/// The head of a good image's content is what the fields of its two first records say.
pub fn head_is_fields()
    ensures { (b : List ℕ) (s : Shape) → IsGoodImage b s → head_of (content b) ≡ head_by_fields b }
{}

/// No record of a variable stands past its greatest record number.
pub fn records_end_at_max_rec()
    ensures { (b : List ℕ) (v : VariableShape) → All (λ pair. nat_lt pair.0 (extent (variable_of b v).max_rec) ≡ true) (variable_of b v).recs }
{}

/// A good image is good by its shape, and sound, and its eof is its length.
pub fn good_has_shape()
    ensures good { (b : List ℕ) → Good b → IsGoodImage b (shape b) }
    ensures sound { (b : List ℕ) → Good b → IsSound b (shape b) }
    ensures eof { (b : List ℕ) → Good b → eof b (gdr_offset b) ≡ length b }
{}

/// The new file is good, and its data set is the new one.
pub fn new_file_is_good()
    ensures good { Good new_image }
    ensures content { content new_image ≡ new_data_set }
    ensures length { length new_image ≡ new_size }
{}

/// The image of a file that keeps the rules of the format is good, and it is not too long.
pub fn image_is_good()
    ensures good { (f : List ℕ) → KeepsFormat f → Good (image_of f) }
    ensures fits { (f : List ℕ) → KeepsFormat f → length (image_of f) ≤ image_limit }
{}
