//! Variables that are deleted, and descriptors that move.

ghost use Rattle.std.specs.Prelude.{◌≡◌, [], ◌∷◌, ◌++◌, length, codes, Some, None};
ghost use Rattle.cdf_format.specs.Content.{content};
ghost use Rattle.cdf_format.specs.Owners.{owned, space_of};
ghost use Rattle.cdf_format.specs.Shape.{shape};
ghost use Rattle.cdf_format.specs.WellFormed.{KeepsFormat};
ghost use Rattle.cdf_examples.specs.DeletedVariable.{three_variables, three_data, three_script, bare_shape, shape_of_units, two_variables, two_data, two_owned, two_space};
ghost use Rattle.cdf_examples.specs.Moved.{without_pad, with_pad, pad_script, data_with_pad, padded_shape, padded_space, set_up_file, r_variable_file, set_up_data, x_data, r_variable_shape, r_variable_owned, r_variable_space};
ghost use Rattle.cdf_examples.specs.NewFile.{new_file, new_data_set};
ghost use Rattle.cdf_examples.specs.Scripts.{replies, made_by, room_for};
ghost use Rattle.cdf_text_examples.specs.Texts.{text_lines};

/// Three variables with an entry each.
pub fn three_with_entries()
    ensures length { length three_variables ≡ 1931 }
    ensures shape { shape three_variables ≡ shape_of_units (1760 ∷ 1817 ∷ 1874 ∷ []) (bare_shape 728 ∷ bare_shape 1072 ∷ bare_shape 1416 ∷ []) [] }
    ensures content { content three_variables ≡ three_data }
    ensures rules { KeepsFormat three_variables }
    ensures made { made_by new_data_set three_script ≡ three_data }
{}

/// The first one is deleted with its entry, and the numbers of the others and of their entries fall.
pub fn first_deleted()
    ensures length { length two_variables ≡ 1931 }
    ensures shape { shape two_variables ≡ shape_of_units (1817 ∷ 1874 ∷ []) (bare_shape 1072 ∷ bare_shape 1416 ∷ []) (728 ∷ 1760 ∷ []) }
    ensures owned { owned two_variables (shape two_variables) ≡ two_owned }
    ensures space { space_of two_variables (shape two_variables) ≡ two_space }
    ensures content { content two_variables ≡ two_data }
    ensures rules { KeepsFormat two_variables }
    ensures made { made_by three_data (codes "del-var A" ∷ []) ≡ two_data }
    ensures replies { replies new_data_set (three_script ++ codes "del-var A" ∷ codes "get-entry UNITS z 0" ∷ codes "get-entry UNITS z 1" ∷ codes "get-entry UNITS z 2" ∷ [])
        ≡ text_lines (codes "1 ok" ∷ codes "2 ok" ∷ codes "3 ok" ∷ codes "4 ok" ∷ codes "5 ok" ∷ codes "6 ok" ∷ codes "7 ok" ∷ codes "8 ok"
        ∷ codes "9 ok CHAR 1 \"b\"" ∷ codes "10 ok CHAR 1 \"c\"" ∷ codes "11 refused 8 NoSuchEntry" ∷ []) }
    ensures room { room_for three_variables (codes "del-var A") ≡ 0 }
{}

/// A variable gets a pad value: its VDR moves to the end, and its neighbours are linked to it there.
pub fn pad_given()
    ensures before { content without_pad ≡ data_with_pad None }
    ensures rules_before { KeepsFormat without_pad }
    ensures length { length with_pad ≡ 1800 }
    ensures shape { shape with_pad ≡ padded_shape }
    ensures space { space_of with_pad padded_shape ≡ padded_space }
    ensures content { content with_pad ≡ data_with_pad (Some (0 ∷ 0 ∷ 0 ∷ 5 ∷ [])) }
    ensures rules { KeepsFormat with_pad }
    ensures variables { made_by new_data_set pad_script ≡ data_with_pad None }
    ensures made { made_by (data_with_pad None) (codes "set-pad U 5" ∷ []) ≡ data_with_pad (Some (0 ∷ 0 ∷ 0 ∷ 5 ∷ [])) }
    ensures room { room_for without_pad (codes "set-pad U 5") ≡ 356 }
{}

/// The GDR gets dimensions and moves; then an r variable is made.
pub fn set_up()
    ensures set_up_length { length set_up_file ≡ 496 }
    ensures set_up_content { content set_up_file ≡ set_up_data [] }
    ensures set_up_rules { KeepsFormat set_up_file }
    ensures set_up_room { room_for new_file (codes "setup 1 column 2,3") ≡ 92 }
    ensures length { length r_variable_file ≡ 844 }
    ensures shape { shape r_variable_file ≡ r_variable_shape }
    ensures owned { owned r_variable_file r_variable_shape ≡ r_variable_owned }
    ensures space { space_of r_variable_file r_variable_shape ≡ r_variable_space }
    ensures content { content r_variable_file ≡ set_up_data (x_data ∷ []) }
    ensures rules { KeepsFormat r_variable_file }
    ensures room { room_for set_up_file (codes "rvar X INT4 1 vary TT") ≡ 348 }
    ensures made { made_by new_data_set (codes "setup 1 column 2,3" ∷ codes "rvar X INT4 1 vary TT" ∷ []) ≡ set_up_data (x_data ∷ []) }
    ensures replies { replies new_data_set (codes "setup 1 column 2,3" ∷ codes "rvar X INT4 1 vary TT" ∷ codes "info" ∷ [])
        ≡ text_lines (codes "1 ok" ∷ codes "2 ok" ∷ codes "3 ok version 3.9.0 encoding 1 majority column checksum none rdims 2,3 attributes 0 rvars 1 zvars 0" ∷ []) }
{}
