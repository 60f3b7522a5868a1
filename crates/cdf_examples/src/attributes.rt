//! Files with one attribute.

ghost use Rattle.std.specs.Prelude.{◌≡◌, [], ◌∷◌, length, take, drop, codes};
ghost use Rattle.cdf_format.specs.Content.{content};
ghost use Rattle.cdf_format.specs.Owners.{owned, space_of};
ghost use Rattle.cdf_edits.specs.Space.Placement.{unused, place_for, taken_from, eof_after, given_to};
ghost use Rattle.cdf_format.specs.Shape.{shape};
ghost use Rattle.cdf_format.specs.WellFormed.{KeepsFormat};
ghost use Rattle.cdf_examples.specs.Attributes.{attribute_file, with_project, shape_with, entry_file, entry_as_written, text_item, entry_owned, replaced_file, moved_file, moved_owned, moved_space, freed_file, again_file, again_space, text24, text16, freed100_file, behind_file, behind_space, split_file, split_space};
ghost use Rattle.cdf_examples.specs.NewFile.{new_file, new_data_set};
ghost use Rattle.cdf_examples.specs.Scripts.{replies, made_by, room_for};
ghost use Rattle.cdf_text_examples.specs.Texts.{text_lines};

/// An attribute is made: it stands at 404, and the file has 728 bytes. A second one of its name is refused.
pub fn made()
    ensures length { length attribute_file ≡ 728 }
    ensures shape { shape attribute_file ≡ shape_with (8 ∷ 320 ∷ 404 ∷ []) [] [] }
    ensures content { content attribute_file ≡ with_project [] }
    ensures rules { KeepsFormat attribute_file }
    ensures room { room_for new_file (codes "attr Project global") ≡ 324 }
    ensures replies { replies new_data_set (codes "attr Project global" ∷ codes "attr Project global" ∷ []) ≡ text_lines (codes "1 ok" ∷ codes "2 refused 6 NameTaken" ∷ []) }
    ensures made { made_by new_data_set (codes "attr Project global" ∷ codes "attr Project global" ∷ []) ≡ with_project [] }
{}

/// It gets an entry, of 60 bytes at 728.
pub fn given_entry()
    ensures length { length entry_file ≡ 788 }
    ensures written { drop 728 entry_file ≡ entry_as_written }
    ensures shape { shape entry_file ≡ shape_with (8 ∷ 320 ∷ 404 ∷ 728 ∷ []) (728 ∷ []) [] }
    ensures owned { owned entry_file (shape_with (8 ∷ 320 ∷ 404 ∷ 728 ∷ []) (728 ∷ []) []) ≡ entry_owned }
    ensures content { content entry_file ≡ with_project (text_item (codes "ISTP") ∷ []) }
    ensures rules { KeepsFormat entry_file }
    ensures room { room_for attribute_file (codes "put-entry Project g 0 CHAR \"ISTP\"") ≡ 60 }
    ensures replies { replies new_data_set (codes "attr Project global" ∷ codes "put-entry Project g 0 CHAR \"ISTP\"" ∷ codes "get-entry Project g 0" ∷ [])
        ≡ text_lines (codes "1 ok" ∷ codes "2 ok" ∷ codes "3 ok CHAR 4 \"ISTP\"" ∷ []) }
    ensures made { made_by (with_project []) (codes "put-entry Project g 0 CHAR \"ISTP\"" ∷ []) ≡ with_project (text_item (codes "ISTP") ∷ []) }
{}

/// A text of the same size is put in its place. A longer one is put at the end, and the record of the old one is unused.
pub fn entry_replaced()
    ensures in_place { shape replaced_file ≡ shape_with (8 ∷ 320 ∷ 404 ∷ 728 ∷ []) (728 ∷ []) [] }
    ensures replaced { content replaced_file ≡ with_project (text_item (codes "ABCD") ∷ []) }
    ensures replaced_rules { KeepsFormat replaced_file }
    ensures length { length moved_file ≡ 849 }
    ensures shape { shape moved_file ≡ shape_with (8 ∷ 320 ∷ 404 ∷ 728 ∷ 788 ∷ []) (788 ∷ []) (728 ∷ []) }
    ensures owned { owned moved_file (shape moved_file) ≡ moved_owned }
    ensures space { space_of moved_file (shape moved_file) ≡ moved_space }
    ensures content { content moved_file ≡ with_project (text_item (codes "ABCDE") ∷ []) }
    ensures rules { KeepsFormat moved_file }
    ensures place { place_for (unused replaced_file (shape replaced_file)) 788 61 ≡ 788 }
    ensures end { eof_after (unused replaced_file (shape replaced_file)) 788 61 ≡ 849 }
    ensures list { given_to (unused replaced_file (shape replaced_file)) 728 60 ≡ unused moved_file (shape moved_file) }
    ensures room { room_for replaced_file (codes "put-entry Project g 0 CHAR \"ABCDE\"") ≡ 61 }
    ensures made { made_by (content entry_file) (codes "put-entry Project g 0 CHAR \"ABCD\"" ∷ []) ≡ content replaced_file }
    ensures made_longer { made_by (content replaced_file) (codes "put-entry Project g 0 CHAR \"ABCDE\"" ∷ []) ≡ content moved_file }
{}

/// The entry is taken away, and one of its size takes its place.
pub fn place_taken()
    ensures freed { shape freed_file ≡ shape_with (8 ∷ 320 ∷ 404 ∷ 728 ∷ []) [] (728 ∷ []) }
    ensures freed_content { content freed_file ≡ with_project [] }
    ensures freed_rules { KeepsFormat freed_file }
    ensures list { unused freed_file (shape freed_file) ≡ (728, 60) ∷ [] }
    ensures place { place_for ((728, 60) ∷ []) 788 60 ≡ 728 }
    ensures list_after { taken_from ((728, 60) ∷ []) 60 ≡ [] }
    ensures end { eof_after ((728, 60) ∷ []) 788 60 ≡ 788 }
    ensures shape { shape again_file ≡ shape_with (8 ∷ 320 ∷ 404 ∷ 728 ∷ []) (728 ∷ []) [] }
    ensures space { space_of again_file (shape again_file) ≡ again_space }
    ensures content { content again_file ≡ with_project (text_item (codes "DATA") ∷ []) }
    ensures rules { KeepsFormat again_file }
    ensures room { room_for entry_file (codes "del-entry Project g 0") ≡ 0 }
    ensures made { made_by (content entry_file) (codes "del-entry Project g 0" ∷ []) ≡ content freed_file }
    ensures made_again { made_by (content freed_file) (codes "put-entry Project g 0 CHAR \"DATA\"" ∷ []) ≡ content again_file }
{}

/// Of 100 unused bytes 80 are not taken, since 20 cannot be a record.
pub fn rest_too_small()
    ensures list { unused freed100_file (shape freed100_file) ≡ (728, 100) ∷ [] }
    ensures freed_rules { KeepsFormat freed100_file }
    ensures place { place_for ((728, 100) ∷ []) 828 80 ≡ 828 }
    ensures list_after { taken_from ((728, 100) ∷ []) 80 ≡ (728, 100) ∷ [] }
    ensures end { eof_after ((728, 100) ∷ []) 828 80 ≡ 908 }
    ensures shape { shape behind_file ≡ shape_with (8 ∷ 320 ∷ 404 ∷ 728 ∷ 828 ∷ []) (828 ∷ []) (728 ∷ []) }
    ensures space { space_of behind_file (shape behind_file) ≡ behind_space }
    ensures content { content behind_file ≡ with_project (text_item text24 ∷ []) }
    ensures rules { KeepsFormat behind_file }
    ensures made { made_by (content freed100_file) (codes "put-entry Project g 0 CHAR abcdefghijklmnopqrstuvwx" ∷ []) ≡ content behind_file }
{}

/// 72 of them are taken, and the rest is a record of 28 bytes.
pub fn split()
    ensures place { place_for ((728, 100) ∷ []) 828 72 ≡ 728 }
    ensures list_after { taken_from ((728, 100) ∷ []) 72 ≡ (800, 28) ∷ [] }
    ensures end { eof_after ((728, 100) ∷ []) 828 72 ≡ 828 }
    ensures shape { shape split_file ≡ shape_with (8 ∷ 320 ∷ 404 ∷ 728 ∷ 800 ∷ []) (728 ∷ []) (800 ∷ []) }
    ensures list { unused split_file (shape split_file) ≡ (800, 28) ∷ [] }
    ensures space { space_of split_file (shape split_file) ≡ split_space }
    ensures content { content split_file ≡ with_project (text_item text16 ∷ []) }
    ensures rules { KeepsFormat split_file }
    ensures made { made_by (content freed100_file) (codes "put-entry Project g 0 CHAR abcdefghijklmnop" ∷ []) ≡ content split_file }
{}
