//! The new file, of two records.

ghost use Rattle.std.specs.Prelude.{◌≡◌, [], ◌∷◌, length, take, drop, codes};
ghost use Rattle.md5.specs.Md5.{md5};
ghost use Rattle.cdf_format.specs.Content.{content};
ghost use Rattle.cdf_format.specs.Owners.{owned, space_of};
ghost use Rattle.cdf_format.specs.Sealed.{sealed};
ghost use Rattle.cdf_format.specs.Shape.{shape};
ghost use Rattle.cdf_format.specs.WellFormed.{WellFormed};
ghost use Rattle.cdf_examples.specs.ChecksumFile.{checksum_image, checksum_digest, checksum_data_set};
ghost use Rattle.cdf_examples.specs.NewFile.{new_file, new_shape, new_owned, new_space, new_data_set};
ghost use Rattle.cdf_examples.specs.Scripts.{replies, made_by, room_for};
ghost use Rattle.cdf_text_examples.specs.Texts.{text_lines};

/// What the new file is written as: 404 bytes, the sizes of its records, and eof.
pub fn written()
    ensures length { length new_file ≡ 404 }
    ensures cdr_size { take 8 (drop 8 new_file) ≡ 0x00 ∷ 0x00 ∷ 0x00 ∷ 0x00 ∷ 0x00 ∷ 0x00 ∷ 0x01 ∷ 0x38 ∷ [] }
    ensures gdr_size { take 8 (drop 320 new_file) ≡ 0x00 ∷ 0x00 ∷ 0x00 ∷ 0x00 ∷ 0x00 ∷ 0x00 ∷ 0x00 ∷ 0x54 ∷ [] }
    ensures eof { take 8 (drop 356 new_file) ≡ 0x00 ∷ 0x00 ∷ 0x00 ∷ 0x00 ∷ 0x00 ∷ 0x00 ∷ 0x01 ∷ 0x94 ∷ [] }
{}

/// What it means: two records, both of the file, and a data set without attributes and variables. No rule is broken, those on what is not read so far neither.
pub fn two_records()
    ensures shape { shape new_file ≡ new_shape }
    ensures owned { owned new_file new_shape ≡ new_owned }
    ensures space { space_of new_file new_shape ≡ new_space }
    ensures content { content new_file ≡ new_data_set }
    ensures well_formed { WellFormed new_file }
{}

/// The reply to `info`.
pub fn shown()
    ensures info { replies new_data_set (codes "info" ∷ []) ≡ text_lines (codes "1 ok version 3.9.0 encoding 6 majority row checksum none rdims - attributes 0 rvars 0 zvars 0" ∷ []) }
{}

/// With a checksum in use: two bits of the Flags are set, and 16 bytes follow the image.
pub fn with_checksum()
    ensures digest { md5 checksum_image ≡ checksum_digest }
    ensures length { length (sealed checksum_image) ≡ 420 }
    ensures content { content checksum_image ≡ checksum_data_set }
    ensures rules { WellFormed (sealed checksum_image) }
    ensures made { made_by new_data_set (codes "checksum md5" ∷ []) ≡ checksum_data_set }
    ensures replies { replies new_data_set (codes "checksum md5" ∷ codes "info" ∷ [])
        ≡ text_lines (codes "1 ok" ∷ codes "2 ok version 3.9.0 encoding 6 majority row checksum md5 rdims - attributes 0 rvars 0 zvars 0" ∷ []) }
    ensures room { room_for new_file (codes "checksum md5") ≡ 0 }
{}
