//! Records of a variable: they are put, read and deleted, and their index is made anew.

ghost use Rattle.std.specs.Prelude.{◌≡◌, [], ◌∷◌, ◌++◌, length, take, drop, codes, true, false, negsuc};
ghost use Rattle.cdf_edits.specs.Space.Acts.{Took, Gave};
ghost use Rattle.cdf_edits.specs.Index.Blocks.{range, ranges_after_put, ranges_after_cut};
ghost use Rattle.cdf_format.specs.Content.{content};
ghost use Rattle.cdf_format.specs.Index.{no_node, no_entry, block, leaves_of};
ghost use Rattle.cdf_edits.specs.Index.Grown.{index_cut_closed, outline};
ghost use Rattle.cdf_edits.specs.Commands.Puts.{stays_in_place, PutsBytes, PutsLeaves};
ghost use Rattle.cdf_edits.specs.Commands.Reindex.{made_acts};
ghost use Rattle.cdf_format.specs.Owners.{owned, space_of};
ghost use Rattle.cdf_format.specs.Shape.{shape};
ghost use Rattle.cdf_format.specs.WellFormed.{KeepsFormat};
ghost use Rattle.cdf_model.specs.declared.kinds.Kind.TheVariants as kinds;
ghost use Rattle.cdf_examples.specs.NewFile.{new_file, new_data_set};
ghost use Rattle.cdf_examples.specs.OneVariable.{one_node, variable_shape, owned_by_file, of_variable, of_none, with_variable};
ghost use Rattle.cdf_examples.specs.RecordFiles.{unblocked_file, variable_file, t_data, records_file, records_block, records_index, records_shape, records_data, records_space, in_place_file, in_place_data, t_shape, full_file, full_data, deleted_file, deleted_data, deleted_index, reindexed_file, reindexed_shape, reindexed_space};
ghost use Rattle.cdf_examples.specs.Scripts.{replies, made_by, room_for, makes_too_large};
ghost use Rattle.cdf_text_examples.specs.Texts.{text_lines};

/// A variable is made: its VDR has 344 bytes. A record far behind would make the file too large.
pub fn variable_made()
    ensures length { length variable_file ≡ 748 }
    ensures shape { shape variable_file ≡ variable_shape (8 ∷ 320 ∷ 404 ∷ []) no_node [] [] }
    ensures content { content variable_file ≡ with_variable (t_data (negsuc 0) []) }
    ensures rules { KeepsFormat variable_file }
    ensures made { made_by new_data_set (codes "zvar T INT4 1 vary - -" ∷ codes "set-blocking T 4" ∷ []) ≡ with_variable (t_data (negsuc 0) []) }
    ensures room { room_for new_file (codes "zvar T INT4 1 vary - -") ≡ 344 }
    ensures too_large { makes_too_large unblocked_file (codes "put-rec T 2147483646 5") ≡ true }
{}

/// Two records are put, and those between them are pads: one block of four, then a node.
pub fn put_and_read()
    ensures length { length records_file ≡ 916 }
    ensures block { take 16 (drop 760 records_file) ≡ records_block }
    ensures shape { shape records_file ≡ records_shape }
    ensures owned { owned records_file records_shape ≡ owned_by_file ++ of_variable 404 ∷ of_variable 776 ∷ of_variable 748 ∷ [] }
    ensures space { space_of records_file records_shape ≡ records_space }
    ensures content { content records_file ≡ with_variable records_data }
    ensures rules { KeepsFormat records_file }
    ensures replies { replies new_data_set (codes "zvar T INT4 1 vary - -" ∷ codes "set-blocking T 4" ∷ codes "put-rec T 0 7" ∷ codes "put-rec T 3 9" ∷ codes "get-rec T 1" ∷ codes "get-rec T 3" ∷ codes "get-rec T 4" ∷ [])
        ≡ text_lines (codes "1 ok" ∷ codes "2 ok" ∷ codes "3 ok" ∷ codes "4 ok" ∷ codes "5 ok -2147483647" ∷ codes "6 ok 9" ∷ codes "7 ok -2147483647" ∷ []) }
    ensures made { made_by (content variable_file) (codes "put-rec T 0 7" ∷ codes "put-rec T 3 9" ∷ []) ≡ with_variable records_data }
    ensures blocks { ranges_after_put (t_data (negsuc 0) []) no_node 0 ≡ range 0 3 ∷ [] }
    ensures acts { PutsLeaves variable_file records_file false 404 (leaves_of records_index) no_node (Took 748 28 ∷ Took 776 140 ∷ []) records_index }
    ensures room { room_for variable_file (codes "put-rec T 0 7") ≡ 352 }
    ensures room_in_place { room_for records_file (codes "put-rec T 1 8") ≡ 0 }
{}

/// A record is put where its block has room: nothing changes but MaxRec and its bytes.
pub fn put_in_place()
    ensures content { content in_place_file ≡ with_variable in_place_data }
    ensures made { made_by (with_variable records_data) (codes "put-rec T 1 8" ∷ []) ≡ with_variable in_place_data }
    ensures in_place { stays_in_place records_data (t_shape records_index) 1 ≡ true }
    ensures acts { PutsLeaves records_file in_place_file false 404 (leaves_of records_index) records_index [] records_index }
    ensures puts { PutsBytes records_file in_place_file kinds.Z records_data 1 (t_shape records_index) (t_shape records_index) [] }
{}

/// Two records in the middle go, and the last one follows the first.
pub fn deleted()
    ensures full { content full_file ≡ with_variable full_data }
    ensures full_rules { KeepsFormat full_file }
    ensures length { length deleted_file ≡ 916 }
    ensures content { content deleted_file ≡ with_variable deleted_data }
    ensures rules { KeepsFormat deleted_file }
    ensures replies { replies (content full_file) (codes "del-recs T 1 2" ∷ codes "get-rec T 1" ∷ codes "get-rec T 2" ∷ [])
        ≡ text_lines (codes "1 ok" ∷ codes "2 ok 4" ∷ codes "3 ok -2147483647" ∷ []) }
    ensures put { made_by (content records_file) (codes "put-rec T 0 1" ∷ codes "put-rec T 1 2" ∷ codes "put-rec T 2 3" ∷ codes "put-rec T 3 4" ∷ []) ≡ with_variable full_data }
    ensures made { made_by (content full_file) (codes "del-recs T 1 2" ∷ []) ≡ with_variable deleted_data }
    ensures blocks { ranges_after_cut full_data records_index 1 2 ≡ range 0 1 ∷ [] }
    ensures index { outline [] deleted_index ≡ outline [] (index_cut_closed 1 2 records_index) }
    ensures room { room_for full_file (codes "del-recs T 1 2") ≡ 256 }
{}

/// The index is made anew: a node of 64 entries, and the old one is unused.
pub fn index_made_anew()
    ensures length { length reindexed_file ≡ 1968 }
    ensures shape { shape reindexed_file ≡ reindexed_shape }
    ensures owned { owned reindexed_file reindexed_shape ≡ owned_by_file ++ of_variable 404 ∷ of_variable 916 ∷ of_variable 748 ∷ of_none 776 ∷ [] }
    ensures space { space_of reindexed_file reindexed_shape ≡ reindexed_space }
    ensures content { content reindexed_file ≡ with_variable records_data }
    ensures rules { KeepsFormat reindexed_file }
    ensures made { made_by (content records_file) (codes "reindex T" ∷ []) ≡ with_variable records_data }
    ensures acts { made_acts records_file records_index (one_node 916 64 (block 0 3 748 false no_entry)) ≡ Took 916 1052 ∷ Gave 776 140 ∷ [] }
    ensures room { room_for records_file (codes "reindex T") ≡ 1052 }
{}
