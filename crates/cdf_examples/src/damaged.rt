//! Files with one change, and the rule that each breaks first.

ghost use Rattle.std.specs.Prelude.{◌≢◌, ℕ, [], ◌∷◌, take};
ghost use Rattle.cdf_base.specs.Bytes.{put};
ghost use Rattle.cdf_format.specs.Sealed.{sealed};
ghost use Rattle.cdf_format.specs.Records.{uir_next_uir};
ghost use Rattle.cdf_format.specs.WellFormed.{Breaks, KeepsFormat};
ghost use Rattle.cdf_examples.specs.Attributes.{moved_file};
ghost use Rattle.cdf_examples.specs.ChecksumFile.{checksum_image};
ghost use Rattle.cdf_examples.specs.Damage.{EachBreaks, Number, changed};
ghost use Rattle.cdf_examples.specs.DamagedNew.{damaged_new, not_owned_file, circle_file};
ghost use Rattle.cdf_examples.specs.DamagedUsual.{damaged_heads, damaged_chains, damaged_attributes, damaged_variables, damaged_indexes, damaged_owners};
ghost use Rattle.cdf_examples.specs.DeepFiles.{eight_levels, nine_levels};
ghost use Rattle.cdf_examples.specs.NewFile.{new_file};
ghost use Rattle.cdf_examples.specs.PackedFiles.{packed_file, damaged_packing, not_compressed_file};
ghost use Rattle.cdf_examples.specs.Usual.{usual_image};

/// The usual file, cut to 7 bytes, and one without any.
pub fn cut()
    ensures verdict { Breaks (take 7 (sealed usual_image)) 0 1 0 }
    ensures empty { Breaks [] 0 1 0 }
{}

/// The new file: the second magic number, the Flags and eof are changed, or a block stands behind that nobody owns.
pub fn new_file_changed()
    ensures verdicts { EachBreaks new_file damaged_new }
    ensures not_owned { Breaks not_owned_file 9 1 404 }
{}

/// Two attributes, the second of which leads back to the first.
pub fn attribute_circle()
    ensures verdict { Breaks circle_file 5 2 728 }
{}

/// Another byte in the digest, and another bit in the Copyright of an image with a digest.
pub fn digests()
    ensures digest { (byte : ℕ) → byte ≢ 0x2a → Breaks (put (sealed usual_image) 2790 (byte ∷ [])) 10 1 2786 }
    ensures copyright { Breaks (put (sealed checksum_image) 64 (0x0b ∷ [])) 10 1 404 }
{}

/// The usual file: a magic number, the CDR or the GDR is changed.
pub fn usual_heads()
    ensures verdicts { EachBreaks (sealed usual_image) damaged_heads }
{}

/// The usual file: sizes and types of records, and links between them.
pub fn usual_chains()
    ensures verdicts { EachBreaks (sealed usual_image) damaged_chains }
{}

/// The usual file: attributes and entries.
pub fn usual_attributes()
    ensures verdicts { EachBreaks (sealed usual_image) damaged_attributes }
{}

/// The usual file: variables.
pub fn usual_variables()
    ensures verdicts { EachBreaks (sealed usual_image) damaged_variables }
{}

/// The usual file: indexes and blocks.
pub fn usual_indexes()
    ensures verdicts { EachBreaks (sealed usual_image) damaged_indexes }
{}

/// The usual file: two variables have one index, and the other has none: each of four records may be named.
pub fn usual_owners()
    ensures verdicts { EachBreaks (sealed usual_image) damaged_owners }
{}

/// The packed file: its parameters, its block and its index.
pub fn packing()
    ensures verdicts { EachBreaks packed_file damaged_packing }
    ensures not_compressed { Breaks not_compressed_file 8 6 784 }
{}

/// An index of nine levels is too deep, and one of eight is not.
pub fn too_deep()
    ensures nine { Breaks nine_levels 8 1 1056 }
    ensures eight { KeepsFormat eight_levels }
{}

/// The unused list goes in a circle.
pub fn unused_circle()
    ensures verdict { Breaks (changed moved_file (Number 728 uir_next_uir 728)) 5 11 728 }
{}
